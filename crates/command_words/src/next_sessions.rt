//! The sessions that follow a venue's first one on the command line.
ghost use Rattle.std.specs.Prelude.{◌≡◌, ◌==◌, ◌≤◌, ◌++◌, IfOk, OnOk, count_by, length, map, take};
ghost use Rattle.std.specs.List.{slice_split};
ghost use Rattle.std.specs.Str.{bytes_eq};
ghost use Rattle.run_settings.specs.NextSessions.{FollowVenues};
ghost use Rattle.command_words.specs.NextSessions.{ReadsNextSessions, are_once, chain_in, chain_of, named_next, next_sessions_from, next_session_of};
ghost use Rattle.command_words.specs.Readings.{Gives, OrNoMemory, mapped};

use crate::refusal::Refusal;
use crate::sessions::{are_names, filled_all};
use feed_types::{MAX_SESSIONS, SessionName, VenueId};
use run_settings::NextSession;
use std::alloc::{AllocError, Global};

/// Returns how many of the sessions have this name.
pub fn times_in(sessions: &[SessionName], name: &SessionName) -> usize
    ensures { result ≡ count_by (bytes_eq name.now) sessions.now }
{
    let mut times = 0;
    for session in sessions {
        if name == session {
            times += 1;
        }
    }
    times
}

/// Returns whether each session stands there once.
pub fn are_once(sessions: &[SessionName]) -> bool
    ensures { result ≡ are_once sessions.now }
{
    sessions.iter().all(|name| times_in(sessions, name) == 1)
}

/// Returns the sessions of a venue, the first one among them, by their names.
fn chain_of(alloc: Global, names: &[&str]) -> Result<Vec<SessionName>, Refusal>
    ensures { OrNoMemory (Gives (chain_of (map (λ name. name.now) names.now)))
        (mapped (λ sessions. sessions.items) result) }
{
    if names.len() > MAX_SESSIONS {
        return Err(Refusal::BadNextSession);
    }
    if !are_names(names) {
        return Err(Refusal::BadNextSession);
    }
    let sessions = filled_all(alloc, names)?;
    if !are_once(sessions.as_slice()) {
        return Err(Refusal::BadNextSession);
    }
    Ok(sessions)
}

/// Returns the sessions of a venue, the first one among them, by the text that names them.
fn read_chain(alloc: Global, text: &str) -> Result<Vec<SessionName>, Refusal>
    ensures { OrNoMemory (Gives (chain_of (chain_in text.now)))
        (mapped (λ sessions. sessions.items) result) }
{
    let names: Vec<&str> = text.split('/').collect(alloc)?;
    chain_of(alloc, names.as_slice())
}

/// Appends sessions of a venue.
fn push_all(
    next: &mut Vec<NextSession>,
    venue: VenueId,
    names: &[SessionName],
) -> Result<(), AllocError>
    ensures { OnOk result (next.new.items ≡ next.old.items ++ named_next venue names.now) }
{
    for name in names {
        next.push(NextSession { venue, name: *name })?;
    }
    Ok(())
}

/// Appends the sessions of a venue but the first one.
fn push_next(
    next: &mut Vec<NextSession>,
    venue: VenueId,
    sessions: &[SessionName],
) -> Result<(), AllocError>
    ensures { OnOk result (next.new.items ≡ next.old.items ++ next_session_of venue sessions.now) }
{
    if sessions.is_empty() {
        return Ok(());
    }
    let (_, others) = sessions.split_at(1);
    push_all(next, venue, others)
}

/// Returns the sessions that follow those of the first `venues` texts, by these texts.
fn next_from(alloc: Global, texts: &[&str], venues: usize) -> Result<Vec<NextSession>, Refusal>
    requires { venues ≤ 16 }
    ensures reads { OrNoMemory
        (Gives (next_sessions_from 0 (take venues (map (λ text. text.now) texts.now))))
        (mapped (λ next. next.items) result) }
    ensures venues { IfOk result (λ next. FollowVenues venues next.items) }
{
    let mut next = Vec::new(alloc);
    let mut place = 0;
    while place < venues && place < texts.len() {
        let Some(venue) = VenueId::from_index(place) else {
            unreachable!();
        };
        let sessions = read_chain(alloc, texts[place])?;
        push_next(&mut next, venue, sessions.as_slice())?;
        place += 1;
    }
    Ok(next)
}

/// Returns the sessions that follow the first ones of `venues` venues in a list, where others may
/// follow a session; else none.
pub fn read_next_sessions(
    alloc: Global,
    list: &str,
    chained: bool,
    venues: usize,
) -> Result<Vec<NextSession>, Refusal>
    requires { venues ≤ 16 }
    ensures reads { ReadsNextSessions chained list.now venues
        (mapped (λ next. next.items) result) }
    ensures venues { IfOk result (λ next. FollowVenues venues next.items) }
{
    if !chained {
        return Ok(Vec::new(alloc));
    }
    let texts: Vec<&str> = list.split(',').collect(alloc)?;
    next_from(alloc, texts.as_slice(), venues)
}
