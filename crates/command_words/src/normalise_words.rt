//! The requests that the options of `normalise` give.
ghost use Rattle.std.specs.Prelude.{◌≡◌, ◌≤◌, IfOk, codes, length, map};
ghost use Rattle.clap.specs.Matches.{found_of};
ghost use Rattle.clap.specs.Walk.{first_of, one_of, rows_of};
ghost use Rattle.run_settings.specs.Lists.{AreOfVenues};
ghost use Rattle.run_settings.specs.RunInputs.{captured_lines_in};
ghost use Rattle.command_words.specs.EndNumbers.{end_number_in};
ghost use Rattle.command_words.specs.NormaliseRequests.{ReadsAddressed, ReadsNormalising, ReadsNormalisingSkips, orders_in};
ghost use Rattle.command_words.specs.OptionValues.{snapshot_texts_in};
ghost use Rattle.command_words.specs.Readings.{mapped};
ghost use Rattle.command_words.specs.SnapshotFiles.{SnapshotsOfVenues, ReadsSnapshots, named_by};

use crate::destinations::is_addressed;
use crate::end_number::read_end_number;
use crate::feed_words::feed_of;
use crate::limits::DEFAULT_ORDERS;
use crate::normalise_request::NormaliseRequest;
use crate::option_values::{flag_of, given_text, number_of, number_or};
use crate::refusal::Refusal;
use crate::run_words::{input_of, next_sessions_of, skips_in};
use crate::snapshot_file::SnapshotFile;
use crate::snapshot_words::read_snapshots;
use clap::ArgMatches;
use feed_types::SessionName;
use run_settings::{EndNumberRule, NormaliseSettings, RunInput, SkipRule};
use std::alloc::Global;

/// Returns the input for `venues` venues that the options give, of which a packet capture has a
/// destination for the frames of each.
fn addressed_of(alloc: Global, options: &ArgMatches<'_>, venues: usize) -> Result<RunInput, Refusal>
    requires { venues ≤ 16 }
    ensures reads { ReadsAddressed (first_of (codes "lines") (rows_of (found_of options.now)))
        venues result }
    ensures venues { IfOk result (λ input. AreOfVenues venues (captured_lines_in input)) }
{
    let input = input_of(alloc, options, venues)?;
    if !is_addressed(&input, venues) {
        return Err(Refusal::BadLines);
    }
    Ok(input)
}

/// Returns the rule for gaps that the options give.
fn normalising_skips_of(options: &ArgMatches<'_>) -> Result<SkipRule, Refusal>
    ensures { ReadsNormalisingSkips (rows_of (found_of options.now)) result }
{
    skips_in(
        false,
        flag_of(options, "skip-gaps"),
        number_of(options, "skip-after"),
        given_text(options, "lines"),
    )
}

/// Returns the rule for the number of an end of session that the option gives.
pub fn end_number_of(options: &ArgMatches<'_>) -> Result<EndNumberRule, Refusal>
    ensures { result ≡ end_number_in
        (first_of (codes "end-number") (rows_of (found_of options.now))) }
{
    read_end_number(given_text(options, "end-number"))
}

/// Returns how many live orders a venue may have.
fn orders_of(options: &ArgMatches<'_>) -> u32
    ensures { result ≡ orders_in (one_of (codes "orders") (rows_of (found_of options.now))) }
{
    number_or(options, "orders", DEFAULT_ORDERS)
}

/// Returns the files of snapshots that the options name for venues with these first sessions.
fn snapshots_of(
    alloc: Global,
    options: &ArgMatches<'_>,
    sessions: &[SessionName],
) -> Result<Vec<SnapshotFile>, Refusal>
    requires { length sessions.now ≤ 16 }
    ensures reads { ReadsSnapshots (snapshot_texts_in (rows_of (found_of options.now)))
        sessions.now (mapped (λ files. map (λ file. named_by file) files.items) result) }
    ensures venues { IfOk result
        (λ files. SnapshotsOfVenues (length sessions.now) files.items) }
{
    match options.get_strs("snapshot") {
        Some(texts) => read_snapshots(alloc, texts, sessions),
        None => read_snapshots(alloc, &[], sessions),
    }
}

/// Returns the request that the options of `normalise` give.
pub fn normalising_of(alloc: Global, options: &ArgMatches<'_>) -> Result<NormaliseRequest, Refusal>
    ensures { ReadsNormalising (rows_of (found_of options.now)) result }
{
    let feed = feed_of(alloc, options, 0)?;
    let input = addressed_of(alloc, options, feed.sessions.len())?;
    let skips = normalising_skips_of(options)?;
    let end_number = end_number_of(options)?;
    let next_sessions = next_sessions_of(alloc, options, feed.sessions.len())?;
    let snapshots = snapshots_of(alloc, options, feed.sessions.as_slice())?;
    let settings = NormaliseSettings {
        feed,
        next_sessions,
        orders: orders_of(options),
        skips,
        end_number,
        input,
    };
    Ok(NormaliseRequest {
        settings,
        snapshots,
    })
}
