//! What a run of `listen` tells of itself: its metrics, its counts, its best lines, its recording.
ghost use Rattle.std.specs.Prelude.{◌≡◌, ◌≤◌, codes};
ghost use Rattle.clap.specs.Matches.{found_of};
ghost use Rattle.clap.specs.Walk.{first_of, one_of, rows_of};
ghost use Rattle.command_words.specs.Addresses.{ReadsMetrics};
ghost use Rattle.command_words.specs.ListenFormats.{listen_format_in};
ghost use Rattle.command_words.specs.ListenRequests.{ReadsListenOutputs, is_followed};
ghost use Rattle.command_words.specs.OptionValues.{number_given};
ghost use Rattle.command_words.specs.StatsFormats.{listen_stats_in};
ghost use Rattle.command_words.specs.VenueLists.{ReadsListenVenues};

use crate::addresses::read_metrics;
use crate::file_names::file_of;
use crate::listen_format::read_listen_format;
use crate::listen_parts::ListenOutputs;
use crate::named_output::{listen_rows, read_listen_venues};
use crate::option_values::{given_text, number_of};
use crate::reception::is_followed;
use crate::refusal::Refusal;
use crate::stats_format::read_listen_stats;
use clap::ArgMatches;
use run_settings::{BestFormat, ListenStats, VenueNames};
use std::alloc::Global;
use std::net::SocketAddr;

/// Returns the address at which metrics are served that the option gives, if it is given.
fn metrics_of(listen: &ArgMatches<'_>) -> Result<Option<SocketAddr>, Refusal>
    ensures { ReadsMetrics (first_of (codes "metrics") (rows_of (found_of listen.now))) result }
{
    read_metrics(given_text(listen, "metrics"))
}

/// Returns the counts that the options ask for, if for any.
fn listen_stats_of(listen: &ArgMatches<'_>) -> Result<Option<ListenStats>, Refusal>
    ensures { result ≡ listen_stats_in (number_given (one_of (codes "stats")
        (rows_of (found_of listen.now))))
        (first_of (codes "stats-format") (rows_of (found_of listen.now))) }
{
    read_listen_stats(
        number_of(listen, "stats"),
        given_text(listen, "stats-format"),
    )
}

/// Returns the format of the best lines that the options give.
fn listen_format_of(listen: &ArgMatches<'_>) -> Result<BestFormat, Refusal>
    ensures { result ≡ listen_format_in (is_followed (rows_of (found_of listen.now)))
        (first_of (codes "format") (rows_of (found_of listen.now)))
        (first_of (codes "times") (rows_of (found_of listen.now))) }
{
    read_listen_format(
        is_followed(listen),
        given_text(listen, "format"),
        given_text(listen, "times"),
    )
}

/// Returns what the options have stand for each of `venues` venues, 16 at most.
fn names_of(alloc: Global, listen: &ArgMatches<'_>, venues: usize) -> Result<VenueNames, Refusal>
    requires { venues ≤ 16 }
    ensures { ReadsListenVenues (first_of (codes "venues") (rows_of (found_of listen.now)))
        venues result }
{
    read_listen_venues(alloc, given_text(listen, "venues"), venues)
}

/// Returns what the options of `listen` say is told of `venues` venues, 16 at most.
pub fn listen_outputs_of(
    alloc: Global,
    listen: &ArgMatches<'_>,
    venues: usize,
) -> Result<ListenOutputs, Refusal>
    requires { venues ≤ 16 }
    ensures { ReadsListenOutputs (rows_of (found_of listen.now)) venues result }
{
    let metrics = metrics_of(listen)?;
    let stats = listen_stats_of(listen)?;
    let plain = listen_format_of(listen)?;
    let names = names_of(alloc, listen, venues)?;
    let record = file_of(alloc, listen, "record", Refusal::BadRecording)?;
    Ok(ListenOutputs {
        metrics,
        stats,
        format: listen_rows(names, plain),
        venues: names,
        record,
    })
}
