//! The venues in ITCH on the command line, and how that is read.
ghost use Rattle.std.specs.Prelude.{◌≡◌, ◌≤◌, IfOk, codes, length, map, option_map};
ghost use Rattle.std.specs.List.{list_all};
ghost use Rattle.clap.specs.Matches.{found_of};
ghost use Rattle.clap.specs.Walk.{first_of, one_of, rows_of};
ghost use Rattle.command_words.specs.ItchRequests.{ReadsItch, ReadsItchVenues, is_among, itch_by, itch_venues_from};
ghost use Rattle.command_words.specs.NormaliseRequests.{orders_in};
ghost use Rattle.command_words.specs.Readings.{Gives, OrNoMemory, mapped};

use crate::limits::DEFAULT_ORDERS;
use crate::next_sessions::{are_once, times_in};
use crate::normalise_words::end_number_of;
use crate::option_values::{given_text, number_or};
use crate::refusal::Refusal;
use crate::sessions::{are_names, filled_all};
use clap::ArgMatches;
use feed_types::{SessionName, VenueId};
use run_settings::ItchSettings;
use std::alloc::{AllocError, Global};

/// Returns whether the name is that of one of the sessions.
fn is_among(sessions: &[SessionName], name: &SessionName) -> bool
    ensures { result ≡ is_among sessions.now name.now }
{
    times_in(sessions, name) != 0
}

/// Returns whether each of the names is that of one of the sessions.
fn are_among(sessions: &[SessionName], names: &[SessionName]) -> bool
    ensures { result ≡ list_all (is_among sessions.now) names.now }
{
    names.iter().all(|name| is_among(sessions, name))
}

/// Returns the venues whose first sessions have one of these names, in order.
fn venues_named(
    alloc: Global,
    names: &[SessionName],
    sessions: &[SessionName],
) -> Result<Vec<VenueId>, AllocError>
    requires { length sessions.now ≤ 16 }
    ensures { IfOk result (λ venues. venues.items
        ≡ itch_venues_from 0 names.now sessions.now) }
{
    let mut venues = Vec::new(alloc);
    for place in 0..sessions.len() {
        if is_among(names, &sessions[place]) {
            venues.push(VenueId::at(place))?;
        }
    }
    Ok(venues)
}

/// Returns the venues whose first sessions have these names.
fn venues_by(
    alloc: Global,
    names: &[&str],
    sessions: &[SessionName],
) -> Result<Vec<VenueId>, Refusal>
    requires { length sessions.now ≤ 16 }
    ensures { OrNoMemory (Gives (itch_by (map (λ name. name.now) names.now) sessions.now))
        (mapped (λ venues. venues.items) result) }
{
    if !are_names(names) {
        return Err(Refusal::UnknownItch);
    }
    let filled = filled_all(alloc, names)?;
    if !are_among(sessions, filled.as_slice()) {
        return Err(Refusal::UnknownItch);
    }
    if !are_once(filled.as_slice()) {
        return Err(Refusal::ItchTwice);
    }
    Ok(venues_named(alloc, filled.as_slice(), sessions)?)
}

/// Returns the venues in ITCH that a list names, none where none is given.
fn read_itch_venues(
    alloc: Global,
    list: Option<&str>,
    sessions: &[SessionName],
) -> Result<Vec<VenueId>, Refusal>
    requires { length sessions.now ≤ 16 }
    ensures { ReadsItchVenues (option_map (λ list. list.now) list.entry) sessions.now
        (mapped (λ venues. venues.items) result) }
{
    let Some(list) = list else {
        return Ok(Vec::new(alloc));
    };
    let names: Vec<&str> = list.split(',').collect(alloc)?;
    venues_by(alloc, names.as_slice(), sessions)
}

/// Returns which venues are in ITCH, and how that is read, by the options of `listen`; these are
/// the first sessions of the venues.
pub fn itch_of(
    alloc: Global,
    listen: &ArgMatches<'_>,
    sessions: &[SessionName],
) -> Result<ItchSettings, Refusal>
    requires { length sessions.now ≤ 16 }
    ensures { ReadsItch (rows_of (found_of listen.now)) sessions.now result }
{
    let venues = read_itch_venues(alloc, given_text(listen, "itch"), sessions)?;
    let end_number = end_number_of(listen)?;
    Ok(ItchSettings {
        venues,
        orders: number_or(listen, "orders", DEFAULT_ORDERS),
        end_number,
    })
}
