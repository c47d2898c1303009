//! The venues of a new feed, and how they are put under their locks.

ghost use Rattle.std.specs.Prelude.{◌≡◌, ◌≤◌, ◌<◌, [], All, length, vec_len, vec_capacity, IfOk};
ghost use Rattle.venue_lines.specs.Starts.{AreNamed, AreStarts, HasItsLane, names_by_venue, none_next};

use crate::locked_venue::LockedVenue;
use crate::locks::{VenueLock, VenueLocks};
use crate::start::VenueStart;
use crossbeam_utils::CachePadded;
use feed_steps::FeedName;
use feed_types::{FeedConfig, Genuine, Numbered, SessionName, VenueId};
use fifo_lane::{Receiver, VenueItems, lane};
use line_arbiter::Arbiter;
use live_wakeups::Wakeups;
use std::alloc::{AllocError, Global};
use std::sync::{Arc, Mutex};

/// Makes a venue to which nothing came, and the receiving end of its lane.
fn new_start<G: Genuine>(
    alloc: Global,
    venue: VenueId,
    session: SessionName,
    config: &FeedConfig<'_>,
) -> Result<(VenueStart<G>, Receiver<Numbered, VenueItems<G>>), AllocError>
    requires { G.sessions venue 1 session }
    ensures lane { IfOk result (λ made. (made.1 ≡ made.0.lane) × (made.1.tag ≡ venue)
        × (made.1.items ≡ [])) }
    ensures sized { IfOk result (λ made. (made.0.arbiter.window ≡ config.now.window)
        × (made.0.lane.capacity ≡ config.now.lane)) }
    ensures venue { IfOk result (λ made. made.0.arbiter.venue ≡ venue) }
    ensures next { IfOk result (λ made. made.0.next ≡ []) }
{
    let Ok(arbiter) = Arbiter::new(alloc, venue, session, config.window) else {
        return Err(AllocError);
    };
    let Ok((sender, receiver)) = lane(alloc, venue.index() as u8, config.lane) else {
        return Err(AllocError);
    };
    Ok((VenueStart::new(arbiter, sender), receiver))
}

/// Makes the venues to which nothing came, and the receiving ends of their lanes.
pub fn new_starts<G: Genuine>(
    alloc: Global,
    config: &FeedConfig<'_>,
) -> Result<(Vec<VenueStart<G>>, Vec<Receiver<Numbered, VenueItems<G>>>), AllocError>
    requires few { length config.now.sessions.now ≤ 16 }
    requires named { AreNamed G.sessions config.now.sessions.now }
    ensures starts { IfOk result (λ made. AreStarts config.now.window config.now.lane made.0.items
        made.1.items) }
    ensures count { IfOk result (λ made. length made.1.items ≡ length config.now.sessions.now) }
    ensures next { IfOk result (λ made. names_by_venue made.0.items
        ≡ none_next (length config.now.sessions.now)) }
{
    let mut starts = Vec::new(alloc);
    let mut receivers = Vec::new(alloc);
    for (place, session) in config.sessions.iter().enumerate() {
        let (start, receiver) = new_start(alloc, VenueId::at(place), *session, config)?;
        starts.push(start)?;
        receivers.push(receiver)?;
    }
    Ok((starts, receivers))
}

/// Puts each venue under a lock of its own. There is room for all.
fn locked<G: Genuine, N: FeedName>(
    starts: Vec<VenueStart<G>>,
    mut venues: Vec<VenueLock<G, N>>,
) -> Vec<VenueLock<G, N>>
    requires lanes { All (HasItsLane N.lanes) starts.items }
    requires room { (length venues.items ≡ 0) × (vec_len starts ≤ vec_capacity venues) }
    ensures { length result.items ≡ length starts.items }
{
    for start in starts {
        venues.push_reserved(CachePadded::new(Mutex::new(LockedVenue::new(start))));
    }
    venues
}

impl<G: Genuine, N: FeedName> VenueLocks<G, N> {
    /// Puts the venues under their locks. There is room for all.
    pub fn open(
        starts: Vec<VenueStart<G>>,
        room: Vec<VenueLock<G, N>>,
        wakeups: Arc<Wakeups, Global>,
    ) -> VenueLocks<G, N>
        requires lanes { All (HasItsLane N.lanes) starts.items }
        requires count { length starts.items ≡ length N.lanes.venues }
        requires room { (length room.items ≡ 0) × (vec_len starts ≤ vec_capacity room) }
    {
        VenueLocks::new(locked(starts, room), wakeups)
    }
}
