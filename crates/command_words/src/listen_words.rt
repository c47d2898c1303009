//! The settings that the options of `listen` give.
ghost use Rattle.std.specs.Prelude.{◌≡◌};
ghost use Rattle.clap.specs.Matches.{found_of};
ghost use Rattle.clap.specs.Walk.{rows_of};
ghost use Rattle.command_words.specs.ListenRequests.{ReadsListening, datagrams_by};

use crate::itch_words::itch_of;
use crate::limits::DEFAULT_COUNT;
use crate::listen_outputs::listen_outputs_of;
use crate::listen_rules::listen_rules_of;
use crate::option_values::{flag_of, number_of};
use crate::reception::{is_followed, reception_of};
use crate::refusal::Refusal;
use clap::ArgMatches;
use run_settings::ListenSettings;
use std::alloc::Global;

/// Returns the most datagrams that a line reads, if there is any limit: where best lines are
/// printed as they come there is none but the one that the option gives.
fn datagrams_by(follow: bool, datagrams: Option<u32>) -> Option<u32>
    ensures { result ≡ datagrams_by follow datagrams }
{
    match datagrams {
        None if !follow => Some(DEFAULT_COUNT),
        datagrams => datagrams,
    }
}

/// Returns the settings that the options of `listen` give.
pub fn listening_of(alloc: Global, listen: &ArgMatches<'_>) -> Result<ListenSettings, Refusal>
    ensures { ReadsListening (rows_of (found_of listen.now)) result }
{
    let reception = reception_of(alloc, listen)?;
    let itch = itch_of(alloc, listen, reception.feed.sessions.as_slice())?;
    let rules = listen_rules_of(alloc, listen)?;
    let venues = reception.feed.sessions.len();
    let outputs = listen_outputs_of(alloc, listen, venues)?;
    let follow = is_followed(listen);
    Ok(ListenSettings {
        feed: reception.feed,
        next: reception.next,
        itch,
        lines: reception.lines,
        request: reception.request,
        request_after: number_of(listen, "request-after"),
        senders: rules.senders,
        most_ahead: number_of(listen, "most-ahead"),
        join: flag_of(listen, "join"),
        skip_after: number_of(listen, "skip-after"),
        silent_after: number_of(listen, "silent-after"),
        datagrams: datagrams_by(follow, number_of(listen, "datagrams")),
        end: rules.end,
        buffer: number_of(listen, "buffer"),
        seconds: number_of(listen, "seconds"),
        until_input_ends: flag_of(listen, "until-input-ends"),
        complete: flag_of(listen, "complete"),
        follow,
        format: outputs.format,
        kept: rules.kept,
        stats: outputs.stats,
        metrics: outputs.metrics,
        record: outputs.record,
        venues: outputs.venues,
    })
}
