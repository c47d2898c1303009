//! The style in which what is printed has times.
ghost use Rattle.std.specs.Prelude.{◌≡◌, option_map};
ghost use Rattle.command_words.specs.TimeStyles.{best_format_in, output_in, report_format_in, row_format_in, styled_in, styled_periods, time_style_in, time_style_named};

use crate::refusal::Refusal;
use run_settings::{
    BestFormat, PeriodStyle, ReportFormat, RowFormat, RunOutput, TimeStyle, ValueStyle,
};

/// Returns the style of this name.
pub fn time_style_named(name: &str) -> Option<TimeStyle>
    ensures { result ≡ time_style_named name.now }
{
    if name == "utc" {
        Some(TimeStyle::Utc)
    } else if name == "seconds" {
        Some(TimeStyle::Seconds)
    } else {
        None
    }
}

/// Returns the style of values with times in this style.
fn style_in(style: TimeStyle, plain: ValueStyle) -> ValueStyle
    ensures { result ≡ record plain { times = style } }
{
    ValueStyle {
        times: style,
        venues: plain.venues,
    }
}

/// Returns the format with times in this style, which lines of text haven't.
pub fn best_format_in(style: TimeStyle, format: BestFormat) -> Option<BestFormat>
    ensures { result ≡ best_format_in style format }
{
    match format {
        BestFormat::Csv(plain) => Some(BestFormat::Csv(style_in(style, plain))),
        BestFormat::Json(plain) => Some(BestFormat::Json(style_in(style, plain))),
        BestFormat::Text => None,
    }
}

/// Returns the format of rows with times in this style.
fn row_format_in(style: TimeStyle, format: RowFormat) -> RowFormat
    ensures { result ≡ row_format_in style format }
{
    match format {
        RowFormat::Csv(plain) => RowFormat::Csv(style_in(style, plain)),
        RowFormat::Json(plain) => RowFormat::Json(style_in(style, plain)),
    }
}

/// Returns the format of counts with times in this style.
fn report_format_in(style: TimeStyle, format: ReportFormat) -> ReportFormat
    ensures { result ≡ report_format_in style format }
{
    match format {
        ReportFormat::Table(plain) => ReportFormat::Table(style_in(style, plain)),
        ReportFormat::Csv(plain) => ReportFormat::Csv(style_in(style, plain)),
        ReportFormat::Json(plain) => ReportFormat::Json(style_in(style, plain)),
    }
}

/// Returns the style of periods with times in this style.
fn styled_periods(style: TimeStyle, periods: PeriodStyle) -> PeriodStyle
    ensures { result ≡ styled_periods style periods }
{
    PeriodStyle {
        format: row_format_in(style, periods.format),
        length: periods.length,
    }
}

/// Returns the output with its times in this style, which lines of text haven't.
fn output_in(style: TimeStyle, output: RunOutput) -> Option<RunOutput>
    ensures { result ≡ output_in style output }
{
    match output {
        RunOutput::Lines => None,
        RunOutput::Bests(format) => Some(RunOutput::Bests(best_format_in(style, format)?)),
        RunOutput::Stats(format) => Some(RunOutput::Stats(report_format_in(style, format))),
        RunOutput::Gaps(format) => Some(RunOutput::Gaps(row_format_in(style, format))),
        RunOutput::Periods(periods) => Some(RunOutput::Periods(styled_periods(style, periods))),
        RunOutput::BestTimes(periods) => Some(RunOutput::BestTimes(styled_periods(style, periods))),
    }
}

/// Returns the output with its times in the style that is named, if one is, by the
/// texts of `--times` and `--lines`.
pub fn read_style(
    plain: RunOutput,
    times: Option<&str>,
    lines: Option<&str>,
) -> Result<RunOutput, Refusal>
    ensures { result ≡ styled_in plain (option_map (λ name. name.now) times.entry)
        (option_map (λ list. list.now) lines.entry) }
{
    let Some(name) = times else {
        return Ok(plain);
    };
    let Some(style) = time_style_named(name) else {
        return Err(Refusal::BadTimeStyle);
    };
    let Some(output) = output_in(style, plain) else {
        return Err(Refusal::TimesOfText);
    };
    match lines {
        Some(_) => Ok(output),
        None => Err(Refusal::TimesWithoutLines),
    }
}

/// Returns the style of this name, numbers where none is named.
pub fn read_time_style(name: Option<&str>) -> Result<TimeStyle, Refusal>
    ensures { result ≡ time_style_in (option_map (λ name. name.now) name.entry) }
{
    match name {
        None => Ok(TimeStyle::Seconds),
        Some(name) => time_style_named(name).ok_or(Refusal::BadTimeStyle),
    }
}
