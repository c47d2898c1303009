//! What a run of `listen` receives: its feed, its lines, and where it asks for what is missing.
ghost use Rattle.std.specs.Prelude.{◌≡◌, ◌*◌, ◌≤◌, IfOk, codes, true, unwrap_or, vec_len};
ghost use Rattle.clap.specs.Matches.{found_of};
ghost use Rattle.clap.specs.Walk.{first_of, one_of, rows_of};
ghost use Rattle.command_words.specs.Addresses.{ReadsLines, ReadsRequest};
ghost use Rattle.command_words.specs.ListenRequests.{ReadsReception, is_followed, usual_journal};
ghost use Rattle.run_settings.specs.NextSessions.{FollowVenues};
ghost use Rattle.command_words.specs.NextSessions.{ReadsNextSessions};
ghost use Rattle.command_words.specs.OptionValues.{lines_in, list_in, number_given};
ghost use Rattle.command_words.specs.Readings.{mapped};
ghost use Rattle.command_words.specs.Sessions.{ReadsSessions};

use crate::addresses::{read_lines, read_request};
use crate::feed_words::{symbols_of, window_of};
use crate::limits::DEFAULT_COUNT;
use crate::listen_parts::Reception;
use crate::next_sessions::read_next_sessions;
use crate::option_values::{flag_of, given_text, number_or, text_of};
use crate::refusal::Refusal;
use crate::sessions::read_sessions;
use clap::ArgMatches;
use feed_types::SessionName;
use run_settings::{FeedSettings, NextSession};
use std::alloc::Global;
use std::net::SocketAddr;

/// Returns whether best lines are printed as they come.
pub fn is_followed(listen: &ArgMatches<'_>) -> bool
    ensures { result ≡ is_followed (rows_of (found_of listen.now)) }
{
    flag_of(listen, "follow")
}

/// Returns the number of entries for which there is room where the words don't say: as many as
/// there may be where best lines are printed as they come, since no entry is kept then.
fn usual_journal(follow: bool) -> u32
    ensures { result ≡ usual_journal follow }
{
    if follow { u32::MAX } else { DEFAULT_COUNT }
}

/// Returns the number of entries for which there is room.
fn journal_of(listen: &ArgMatches<'_>) -> u32
    ensures { result ≡ unwrap_or (number_given (one_of (codes "journal")
        (rows_of (found_of listen.now)))) (usual_journal (is_followed
        (rows_of (found_of listen.now)))) }
{
    number_or(listen, "journal", usual_journal(is_followed(listen)))
}

/// Returns the first session of each venue that the option names. Others may follow.
fn sessions_of(alloc: Global, listen: &ArgMatches<'_>) -> Result<Vec<SessionName>, Refusal>
    ensures reads { ReadsSessions true (list_in (rows_of (found_of listen.now)))
        (mapped (λ sessions. sessions.items) result) }
    ensures count { IfOk result (λ sessions. (1 ≤ vec_len sessions) × (vec_len sessions ≤ 16)) }
{
    read_sessions(alloc, text_of(listen, "sessions"), true)
}

/// Returns the sessions that follow the first ones of `venues` venues.
fn next_sessions_of(
    alloc: Global,
    listen: &ArgMatches<'_>,
    venues: usize,
) -> Result<Vec<NextSession>, Refusal>
    requires { venues ≤ 16 }
    ensures reads { ReadsNextSessions true (list_in (rows_of (found_of listen.now))) venues
        (mapped (λ next. next.items) result) }
    ensures venues { IfOk result (λ next. FollowVenues venues next.items) }
{
    read_next_sessions(alloc, text_of(listen, "sessions"), true, venues)
}

/// Returns the lines that the option gives, two for each of `venues` venues.
fn lines_of(
    alloc: Global,
    listen: &ArgMatches<'_>,
    venues: usize,
) -> Result<Vec<Option<SocketAddr>>, Refusal>
    requires { venues ≤ 16 }
    ensures reads { ReadsLines (lines_in (rows_of (found_of listen.now))) venues
        (mapped (λ lines. lines.items) result) }
    ensures count { IfOk result (λ lines. vec_len lines ≡ 2 * venues) }
{
    read_lines(alloc, text_of(listen, "lines"), venues)
}

/// Returns the address for these lines' requests that the option gives, if it is given.
fn request_of(
    listen: &ArgMatches<'_>,
    lines: &[Option<SocketAddr>],
) -> Result<Option<SocketAddr>, Refusal>
    ensures { ReadsRequest lines.now
        (first_of (codes "request") (rows_of (found_of listen.now))) result }
{
    read_request(given_text(listen, "request"), lines)
}

/// Returns what the options of `listen` say is received.
pub fn reception_of(alloc: Global, listen: &ArgMatches<'_>) -> Result<Reception, Refusal>
    ensures { ReadsReception (rows_of (found_of listen.now)) result }
{
    let sessions = sessions_of(alloc, listen)?;
    let lines = lines_of(alloc, listen, sessions.len())?;
    let request = request_of(listen, lines.as_slice())?;
    let next = next_sessions_of(alloc, listen, sessions.len())?;
    let symbols = symbols_of(alloc, listen)?;
    let feed = FeedSettings {
        sessions,
        symbols,
        window: window_of(listen),
        journal: journal_of(listen),
    };
    Ok(Reception {
        feed,
        next,
        lines,
        request,
    })
}
