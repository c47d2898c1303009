//! What `nbbo stats` prints: counts, or the rows of gaps or of periods.
ghost use Rattle.std.specs.Prelude.{◌≡◌, Some, false, option_map};
ghost use Rattle.command_words.specs.StatsOutputs.{ReadsCounted, bests_by, report_format_by, report_format_named, row_format_by, row_format_named};

use crate::period_words::read_period;
use crate::refusal::Refusal;
use run_settings::{PeriodStyle, ReportFormat, RowFormat, RunOutput, ValueStyle};

/// Returns the form of rows of this name.
fn row_format_named(name: &str) -> Option<RowFormat>
    ensures { result ≡ row_format_named name.now }
{
    if name == "csv" {
        Some(RowFormat::Csv(ValueStyle::numbers()))
    } else if name == "json" {
        Some(RowFormat::Json(ValueStyle::numbers()))
    } else {
        None
    }
}

/// Returns the form of rows by its name, comma-separated values where none is named.
pub fn read_row_format(name: Option<&str>) -> Result<RowFormat, Refusal>
    ensures { result ≡ row_format_by (option_map (λ name. name.now) name.entry) }
{
    match name {
        None => Ok(RowFormat::Csv(ValueStyle::numbers())),
        Some(name) => row_format_named(name).ok_or(Refusal::BadFormat),
    }
}

/// Returns the form of counts of this name.
fn report_format_named(name: &str) -> Option<ReportFormat>
    ensures { result ≡ report_format_named name.now }
{
    if name == "table" {
        Some(ReportFormat::Table(ValueStyle::numbers()))
    } else if name == "csv" {
        Some(ReportFormat::Csv(ValueStyle::numbers()))
    } else if name == "json" {
        Some(ReportFormat::Json(ValueStyle::numbers()))
    } else {
        None
    }
}

/// Returns the form of counts by its name, tables where none is named.
fn read_report_format(name: Option<&str>) -> Result<ReportFormat, Refusal>
    ensures { result ≡ report_format_by (option_map (λ name. name.now) name.entry) }
{
    match name {
        None => Ok(ReportFormat::Table(ValueStyle::numbers())),
        Some(name) => report_format_named(name).ok_or(Refusal::BadFormat),
    }
}

/// Returns the rows of periods of this length that are printed, in a format, where the input has
/// lines.
fn read_periods(
    every: &str,
    format: Option<&str>,
    lines: Option<&str>,
) -> Result<RunOutput, Refusal>
    ensures { ReadsCounted false (Some every.now) (option_map (λ name. name.now) format.entry)
        (option_map (λ list. list.now) lines.entry) result }
{
    let Some(length) = read_period(every) else {
        return Err(Refusal::BadPeriod);
    };
    let format = read_row_format(format)?;
    match lines {
        Some(_) => Ok(RunOutput::Periods(PeriodStyle { format, length })),
        None => Err(Refusal::EveryWithoutLines),
    }
}

/// Returns what is printed where `--gaps` is given, or isn't, by the texts of the options
/// `--every`, `--format` and `--lines`.
pub fn read_counted(
    gaps: bool,
    every: Option<&str>,
    format: Option<&str>,
    lines: Option<&str>,
) -> Result<RunOutput, Refusal>
    ensures { ReadsCounted gaps (option_map (λ text. text.now) every.entry)
        (option_map (λ name. name.now) format.entry)
        (option_map (λ list. list.now) lines.entry) result }
{
    match every {
        Some(_) if gaps => Err(Refusal::GapsWithEvery),
        Some(every) => read_periods(every, format, lines),
        None if gaps => Ok(RunOutput::Gaps(read_row_format(format)?)),
        None => Ok(RunOutput::Stats(read_report_format(format)?)),
    }
}

/// Returns what is printed where `--bests` is given, or isn't: rows of how long national bests
/// stood in place of those of periods.
pub fn bests_by(bests: bool, output: RunOutput) -> Result<RunOutput, Refusal>
    ensures { result ≡ bests_by bests output }
{
    match output {
        output if !bests => Ok(output),
        RunOutput::Periods(style) => Ok(RunOutput::BestTimes(style)),
        RunOutput::Lines | RunOutput::Bests(_) => Err(Refusal::BestsWithoutEvery),
        RunOutput::Stats(_) | RunOutput::Gaps(_) => Err(Refusal::BestsWithoutEvery),
        RunOutput::BestTimes(_) => Err(Refusal::BestsWithoutEvery),
    }
}
