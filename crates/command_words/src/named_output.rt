//! The output in which venues have names.
ghost use Rattle.std.specs.Prelude.{◌≡◌, ◌≤◌, option_map};
ghost use Rattle.command_words.specs.VenueLists.{ReadsListenVenues, ReadsVenues, listen_rows, named_best_format, named_output, named_periods, named_report_format, named_row_format};

use crate::refusal::Refusal;
use crate::venue_list::read_venue_names;
use run_settings::{
    BestFormat, PeriodStyle, ReportFormat, RowFormat, RunOutput, ValueStyle, VenueNames,
};
use std::alloc::Global;

/// Returns the style with these names.
fn style_of(names: VenueNames, plain: ValueStyle) -> ValueStyle
    ensures { result ≡ record plain { venues = names } }
{
    ValueStyle {
        times: plain.times,
        venues: names,
    }
}

/// Returns the format with these names, which lines of text don't have.
fn named_best_format(names: VenueNames, format: BestFormat) -> Option<BestFormat>
    ensures { result ≡ named_best_format names format }
{
    match format {
        BestFormat::Csv(plain) => Some(BestFormat::Csv(style_of(names, plain))),
        BestFormat::Json(plain) => Some(BestFormat::Json(style_of(names, plain))),
        BestFormat::Text => None,
    }
}

/// Returns the format of rows with these names.
fn named_row_format(names: VenueNames, format: RowFormat) -> RowFormat
    ensures { result ≡ named_row_format names format }
{
    match format {
        RowFormat::Csv(plain) => RowFormat::Csv(style_of(names, plain)),
        RowFormat::Json(plain) => RowFormat::Json(style_of(names, plain)),
    }
}

/// Returns the format of counts with these names.
fn named_report_format(names: VenueNames, format: ReportFormat) -> ReportFormat
    ensures { result ≡ named_report_format names format }
{
    match format {
        ReportFormat::Table(plain) => ReportFormat::Table(style_of(names, plain)),
        ReportFormat::Csv(plain) => ReportFormat::Csv(style_of(names, plain)),
        ReportFormat::Json(plain) => ReportFormat::Json(style_of(names, plain)),
    }
}

/// Returns the style of periods with these names.
fn named_periods(names: VenueNames, periods: PeriodStyle) -> PeriodStyle
    ensures { result ≡ named_periods names periods }
{
    PeriodStyle {
        format: named_row_format(names, periods.format),
        length: periods.length,
    }
}

/// Returns the output with these names, which lines of text don't have.
fn named_output(names: VenueNames, output: RunOutput) -> Option<RunOutput>
    ensures { result ≡ named_output names output }
{
    match output {
        RunOutput::Lines => None,
        RunOutput::Bests(format) => Some(RunOutput::Bests(named_best_format(names, format)?)),
        RunOutput::Stats(format) => Some(RunOutput::Stats(named_report_format(names, format))),
        RunOutput::Gaps(format) => Some(RunOutput::Gaps(named_row_format(names, format))),
        RunOutput::Periods(periods) => Some(RunOutput::Periods(named_periods(names, periods))),
        RunOutput::BestTimes(periods) => Some(RunOutput::BestTimes(named_periods(names, periods))),
    }
}

/// Returns the output with the names of this many venues, 16 at most, if a list names them.
pub fn read_venues(
    alloc: Global,
    plain: RunOutput,
    list: Option<&str>,
    venues: usize,
) -> Result<RunOutput, Refusal>
    requires { venues ≤ 16 }
    ensures { ReadsVenues (option_map (λ list. list.now) list.entry) venues plain result }
{
    let Some(list) = list else {
        return Ok(plain);
    };
    let names = read_venue_names(alloc, list, venues)?;
    named_output(names, plain).ok_or(Refusal::VenuesOfText)
}

/// Returns what stands for each of `venues` venues, 16 at most, of a run that listens: the names
/// that the text of `--venues` gives, or where it isn't given their numbers.
pub fn read_listen_venues(
    alloc: Global,
    list: Option<&str>,
    venues: usize,
) -> Result<VenueNames, Refusal>
    requires { venues ≤ 16 }
    ensures { ReadsListenVenues (option_map (λ list. list.now) list.entry) venues result }
{
    match list {
        Some(list) => read_venue_names(alloc, list, venues),
        None => Ok(VenueNames::Numbers),
    }
}

/// Returns the format of the rows of a run that listens, with these names where it isn't lines of
/// text.
pub fn listen_rows(names: VenueNames, plain: BestFormat) -> BestFormat
    ensures { result ≡ listen_rows names plain }
{
    named_best_format(names, plain).unwrap_or(plain)
}
