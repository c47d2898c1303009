//! The sessions that follow a venue's first one.

ghost use Rattle.std.specs.Prelude.{◌≡◌, ◌+◌, ◌≤◌, IfSome, Some, slice_get};
ghost use Rattle.venue_lines.specs.NextSessions.{AreNextNames, AreOfFeed, RenewsFirst, RenewsIf, name_after, names_at};

use crate::cell::VenueCell;
use feed_steps::FeedName;
use feed_types::{Genuine, SessionName, VenueId};
use mold_packet::Packet;
use std::marker::{Model, PhantomData};

/// The names of the sessions that follow a venue's first one, in order, which the lines may use.
#[derive(Drop)]
pub struct NextSessions<G: Genuine> {
    of_venue: VenueId,
    in_order: Vec<SessionName>,
    lines: PhantomData<G>,
}

impl<G: Genuine> Model for NextSessions<G> {
    ghost use Rattle.venue_lines.specs.NextSessions.{AreNextNames, NextNames};

    ghost Value = { NextNames };

    ghost view = { λ n. record { venue = n.of_venue; names = n.in_order.items } };

    ghost invariant = { λ n. AreNextNames G.sessions n.of_venue n.in_order.items };
}

/// The name at this place, if there is one.
fn name_at(names: &[SessionName], place: usize) -> Option<SessionName>
    ensures { result ≡ slice_get names.now place }
{
    match names.get(place) {
        Some(name) => Some(*name),
        None => None,
    }
}

impl<G: Genuine> NextSessions<G> {
    /// The sessions of these names, which follow the venue's first one in this order.
    pub(crate) fn new(venue: VenueId, names: Vec<SessionName>) -> NextSessions<G>
        requires { AreNextNames G.sessions venue names.items }
        ensures { result ≡ record { venue = venue; names = names.items } }
    {
        NextSessions {
            of_venue: venue,
            in_order: names,
            lines: PhantomData,
        }
    }

    /// The name of the session that follows the one of this ordinal at the venue, if one does.
    fn name_after(&self, venue: VenueId, ordinal: u64) -> Option<SessionName>
        requires { 1 ≤ ordinal }
        ensures name { result ≡ name_after self.now venue ordinal }
        ensures named { IfSome result (λ name. G.sessions venue (ordinal + 1) name) }
    {
        if self.of_venue != venue {
            return None;
        }
        name_at(self.in_order.as_slice(), (ordinal - 1) as usize)
    }
}

/// The sessions that follow a venue's first one in a feed.
#[derive(Drop)]
pub struct FollowingSessions<G: Genuine, N: FeedName> {
    sessions: NextSessions<G>,
    feed: PhantomData<N>,
}

impl<G: Genuine, N: FeedName> Model for FollowingSessions<G, N> {
    ghost use Rattle.venue_lines.specs.NextSessions.{AreOfFeed, NextNames};

    ghost Value = { NextNames };

    ghost view = { λ f. f.sessions };

    ghost invariant = { λ f. AreOfFeed N.lanes f.sessions };
}

impl<G: Genuine, N: FeedName> FollowingSessions<G, N> {
    /// The sessions that follow the venue's first one, which are the feed's, if any are named for
    /// it.
    pub(crate) fn of(
        next: Option<NextSessions<G>>,
        venue: VenueId,
    ) -> Option<FollowingSessions<G, N>>
        requires { slice_get N.lanes.next venue ≡ Some (names_at venue next) }
        ensures { names_at venue result ≡ names_at venue next }
    {
        let sessions = next?;
        if sessions.of_venue != venue {
            return None;
        }
        Some(FollowingSessions {
            sessions,
            feed: PhantomData,
        })
    }
}

/// Does nothing: it says that the sessions, if any are named to follow, are the feed's.
#[inline(always)]
pub(crate) fn show_following<G: Genuine, N: FeedName>(next: &Option<FollowingSessions<G, N>>)
    ensures { IfSome next.now (AreOfFeed N.lanes) }
{
    // for the prover: the invariant is known where a field is used
    if let Some(next) = next {
        let _ = &next.sessions;
    }
}

/// Begins the session that follows the cell's present one where that is over, all of it was sent,
/// and the packet is of the one that is named to follow it. Returns whether that was done.
fn renew_at<G: Genuine, N: FeedName>(
    next: &NextSessions<G>,
    cell: &mut VenueCell<G, N>,
    packet: &Packet<'_>,
) -> bool
    ensures { RenewsFirst next.now packet.now result cell.old cell.new }
{
    let Some(session) = next.name_after(cell.venue(), cell.ordinal()) else {
        return false;
    };
    if packet.session() != session {
        return false;
    }
    match cell.renew(session) {
        Ok(_) => true,
        Err(_) => false,
    }
}

/// Begins the cell's next session before the packet, as `renew_at` does, where sessions are named
/// to follow. Returns whether that was done.
#[inline(always)]
pub(crate) fn renew_if_named<G: Genuine, N: FeedName>(
    next: &Option<FollowingSessions<G, N>>,
    cell: &mut VenueCell<G, N>,
    packet: &Packet<'_>,
) -> bool
    ensures renews { RenewsIf next.now packet.now result cell.old cell.new }
    ensures venue { cell.new.arbiter.venue ≡ cell.old.arbiter.venue }
{
    cell.show_lock_invariant();
    match next {
        Some(next) => renew_at(&next.sessions, cell, packet),
        None => false,
    }
}
