//! The counts of messages by type for which the options of `stats` ask.
ghost use Rattle.std.specs.Prelude.{◌≡◌, ◌≤◌};
ghost use Rattle.clap.specs.Matches.{found_of};
ghost use Rattle.clap.specs.Walk.{rows_of};
ghost use Rattle.command_words.specs.TypeRequests.{ReadsRowFormat, ReadsTypes, ReadsTypesAlone, asks_rows, gap_format};

use crate::feed_words::feed_of;
use crate::option_values::{flag_of, given_text};
use crate::refusal::Refusal;
use crate::run_words::{input_of, span_of, styled_of};
use crate::stats_output::read_row_format;
use crate::type_settings::TypeSettings;
use clap::ArgMatches;
use run_settings::{RowFormat, RunOutput};
use std::alloc::Global;

/// Returns whether rows of another kind are asked for.
fn asks_rows(stats: &ArgMatches<'_>) -> bool
    ensures { result ≡ asks_rows (rows_of (found_of stats.now)) }
{
    let every = given_text(stats, "every").is_some();
    flag_of(stats, "gaps") || (every || flag_of(stats, "bests"))
}

/// Returns the format of rows of gaps, if these are printed.
fn gap_format(output: RunOutput) -> Option<RowFormat>
    ensures { result ≡ gap_format output }
{
    match output {
        RunOutput::Gaps(format) => Some(format),
        RunOutput::Lines | RunOutput::Bests(_) | RunOutput::Stats(_) => None,
        RunOutput::Periods(_) | RunOutput::BestTimes(_) => None,
    }
}

/// Returns the form of the rows for `venues` venues, 16 at most.
fn row_format_of(alloc: Global, stats: &ArgMatches<'_>, venues: usize) -> Result<RowFormat, Refusal>
    requires { venues ≤ 16 }
    ensures { ReadsRowFormat (rows_of (found_of stats.now)) venues result }
{
    let plain = read_row_format(given_text(stats, "format"))?;
    let output = styled_of(alloc, stats, RunOutput::Gaps(plain), venues)?;
    gap_format(output).ok_or(Refusal::BadFormat)
}

/// Returns the counts by type for which the options ask, if they ask for no other rows.
fn types_alone(alloc: Global, stats: &ArgMatches<'_>) -> Result<TypeSettings, Refusal>
    ensures { ReadsTypesAlone (rows_of (found_of stats.now)) result }
{
    let feed = feed_of(alloc, stats, u32::MAX)?;
    let venues = feed.sessions.len();
    let format = row_format_of(alloc, stats, venues)?;
    let input = input_of(alloc, stats, venues)?;
    let span = span_of(stats, &RunOutput::Gaps(format))?;
    Ok(TypeSettings {
        venues,
        input,
        format,
        span,
    })
}

/// Returns the counts of messages by type for which the options of `stats` ask.
pub fn types_of(alloc: Global, stats: &ArgMatches<'_>) -> Result<TypeSettings, Refusal>
    ensures { ReadsTypes (rows_of (found_of stats.now)) result }
{
    if asks_rows(stats) {
        return Err(Refusal::TypesWithRows);
    }
    types_alone(alloc, stats)
}
