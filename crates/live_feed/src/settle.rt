//! The settlement of a feed.

ghost use Rattle.std.specs.Prelude.{◌≡◌, ◌≤◌, [], length, map, vec_len, vec_capacity, IfOk, IfErr, OnOk};
ghost use Rattle.live_feed.specs.settle.Settlements.{AllAgree, AreInOrder, AreVenues, IsClosedVenue, IsSettlement, ShowsSubscriber};
ghost use Rattle.live_feed.specs.settle.Closings.{HasRoom, IsClosedFeed, IsToClose, IsToServe};

mod agreeing;
pub(crate) mod fault;
mod rooms;
pub(crate) mod settlement;
mod subscriber_end;
mod subscriber_lane;
mod tally;
pub(crate) mod unsettled;
mod venue_end;
mod venue_lane;

use crate::feed::log_size::LogSize;
use crate::feed::open_feed::OpenFeed;
use crate::hub_cell::HubCell;
use crate::hub_lock::HubLock;
use crate::lists::{made_of_each, made_of_three};
use crate::settle::agreeing::{all_agree, are_in_order, has_its_seats};
use crate::settle::fault::SettleFault;
use crate::settle::rooms::{FeedRoom, feed_room};
use crate::settle::settlement::Settlement;
use crate::settle::subscriber_end::SubscriberEnd;
use crate::settle::subscriber_lane::settle_subscriber;
use crate::settle::unsettled::Unsettled;
use crate::settle::venue_end::VenueEnd;
use crate::settle::venue_lane::settle_venue;
use crate::subscriber::Subscriber;
use crossbeam_utils::CachePadded;
use feed_steps::FeedName;
use feed_types::Genuine;
use live_wakeups::Wakeups;
use std::alloc::Global;
use std::sync::{Arc, Mutex, Wait};
use venue_lines::{LineSeat, LockedVenue, VenueLock, VenueLocks};

/// A feed out of its locks, and an empty list with room for the venues' locks.
#[derive(Drop)]
struct Unlocked<G: Genuine, N: FeedName> {
    venues: Vec<LockedVenue<G, N>>,
    hub: HubCell<G, N>,
    locks: Vec<VenueLock<G, N>>,
    wakeups: Arc<Wakeups, Global>,
    log_size: LogSize<N>,
}

/// Takes the feed out of its locks. Where memory was refused, it is handed back.
fn unlock<G: Genuine, N: FeedName>(
    alloc: Global,
    feed: OpenFeed<G, N>,
) -> Result<Unlocked<G, N>, OpenFeed<G, N>>
    ensures room { IfOk result (λ u. (u.locks.items ≡ [])
        × (vec_len u.venues ≤ vec_capacity u.locks)) }
    ensures count { IfOk result (λ u. length u.venues.items ≡ length N.lanes.venues) }
{
    let count = feed.venues.len();
    let (Ok(venues), Ok(locks)) = (
        Vec::with_capacity(alloc, count),
        Vec::with_capacity(alloc, count),
    ) else {
        return Err(feed);
    };
    let OpenFeed {
        venues: venue_locks,
        hub,
        log_size,
    } = feed;
    let (venue_locks, wakeups) = venue_locks.into_parts();
    Ok(Unlocked {
        venues: made_of_each(
            venue_locks,
            venues,
            &|_, lock| lock.into_inner().into_inner(),
        ),
        hub: hub.into_inner().into_inner(),
        locks,
        wakeups,
        log_size,
    })
}

/// Puts the feed under locks again.
fn relock<G: Genuine, N: FeedName>(unlocked: Unlocked<G, N>) -> OpenFeed<G, N>
    requires room { (unlocked.locks.items ≡ [])
        × (vec_len unlocked.venues ≤ vec_capacity unlocked.locks) }
    requires count { length unlocked.venues.items ≡ length N.lanes.venues }
{
    let Unlocked {
        venues,
        hub,
        locks,
        wakeups,
        log_size,
    } = unlocked;
    let locks = made_of_each(
        venues,
        locks,
        &|_, venue| CachePadded::new(Mutex::new(venue)),
    );
    OpenFeed {
        venues: VenueLocks::new(locks, wakeups),
        hub: CachePadded::new(HubLock::new(hub)),
        log_size,
    }
}

/// Returns what is missing of the seats that were handed out and of the subscribers, if anything.
fn first_missing<G: Genuine, N: FeedName, W: Wait>(
    rt: &W,
    feed: &OpenFeed<G, N>,
    seats: &[LineSeat<G, N>],
    subscribers: &[Subscriber<N>],
) -> Option<SettleFault> {
    for lock in feed.venues.as_slice() {
        let locked = lock.lock(rt);
        if !has_its_seats(&locked, seats) {
            return Some(SettleFault::SeatsMissing);
        }
    }
    let count = feed.hub.lock(rt).core.subscriber_count();
    if count != subscribers.len() || !are_in_order(subscribers) {
        return Some(SettleFault::SubscribersMissing);
    }
    None
}

/// Makes room for everything that is left of the feed, where the venues count what their seats
/// show. (What was looked at under the locks is looked at again: nothing is known of it once they
/// are let go.)
fn room_for<G: Genuine, N: FeedName>(
    alloc: Global,
    unlocked: &Unlocked<G, N>,
    seats: &[LineSeat<G, N>],
    subscribers: &[Subscriber<N>],
) -> Result<FeedRoom, SettleFault>
    ensures agree { OnOk result (AllAgree seats.now (map (λ g. g.cell) unlocked.now.venues.items)) }
    ensures order { OnOk result (AreInOrder (map (λ s. s.log) subscribers.now)) }
    ensures counts { OnOk result
        ((length unlocked.now.venues.items ≡ unlocked.now.hub.core.journal.venues)
        × (length subscribers.now ≡ length unlocked.now.hub.core.journal.cursors)) }
    ensures room { IfOk result (HasRoom (map (λ g. g.cell) unlocked.now.venues.items)
        unlocked.now.hub.core) }
{
    let core = &unlocked.hub.core;
    let venues = unlocked.venues.as_slice();
    if venues.len() != core.venue_count() || !all_agree(venues, seats) {
        return Err(SettleFault::CountsDiffer);
    }
    if subscribers.len() != core.subscriber_count() || !are_in_order(subscribers) {
        return Err(SettleFault::SubscribersMissing);
    }
    match feed_room(alloc, venues, core) {
        Ok(room) => Ok(room),
        Err(_) => Err(SettleFault::NoMemory),
    }
}

/// Closes all lanes of the feed.
fn close_lanes<G: Genuine, N: FeedName, W: Wait>(
    rt: &W,
    unlocked: Unlocked<G, N>,
    subscribers: Vec<Subscriber<N>>,
    room: FeedRoom,
) -> Settlement
    requires venues { AreVenues (map (λ g. g.cell) unlocked.venues.items) }
    requires order { AreInOrder (map (λ s. s.log) subscribers.items) }
    requires counts { (length unlocked.venues.items ≡ unlocked.hub.core.journal.venues)
        × (length subscribers.items ≡ length unlocked.hub.core.journal.cursors) }
    requires room { HasRoom (map (λ g. g.cell) unlocked.venues.items) unlocked.hub.core room }
    ensures { IsClosedFeed G.Genuine N.lanes (map (λ g. g.cell) unlocked.venues.items)
        unlocked.hub.core (map (λ s. s.log) subscribers.items) result }
{
    let Unlocked {
        venues,
        hub,
        locks: _,
        wakeups: _,
        log_size: _,
    } = unlocked;
    let (journal, receivers, senders) = hub.core.into_parts();
    let venue_ends = made_of_three(
        venues,
        receivers,
        room.venues,
        room.venue_ends,
        &|locked, receiver, room| -> VenueEnd
            requires { IsToClose G.Genuine N.lanes journal locked.cell receiver room }
            ensures { IsClosedVenue G.Genuine N.lanes journal locked.cell result }
        { settle_venue(rt, &journal, locked.cell, receiver, room) },
    );
    let subscriber_ends = made_of_three(
        subscribers,
        senders,
        room.subscribers,
        room.subscriber_ends,
        &|subscriber, sender, room| -> SubscriberEnd
            requires { IsToServe N.lanes journal subscriber.log sender room }
            ensures { ShowsSubscriber journal subscriber.log.id subscriber.log result }
        { settle_subscriber(rt, &journal, sender, subscriber.log, room) },
    );
    Settlement::new(journal, venue_ends, subscriber_ends)
}

impl<G: Genuine, N: FeedName> OpenFeed<G, N> {
    /// Closes all lanes, once all threads have returned, and returns the settlement. All seats that
    /// were handed out are handed in, in any order, and all subscribers, in the order of their ids.
    ///
    /// SeatsMissing where a seat is missing; SubscribersMissing where a subscriber is, or is out of
    /// order; CountsDiffer where a venue's counts differ from those of its seats, which no feed
    /// meets; NoMemory where memory for the lists was refused: all of it is taken before a lane is
    /// closed. Each hands everything back.
    pub fn settle<W: Wait>(
        self,
        rt: &W,
        alloc: Global,
        seats: Vec<LineSeat<G, N>>,
        subscribers: Vec<Subscriber<N>>,
    ) -> Result<Settlement, Unsettled<G, N>>
        ensures settled { IfOk result (IsSettlement G.Genuine N.lanes seats.items
            (map (λ s. s.log) subscribers.items)) }
        ensures back { IfErr result (λ back. (back.seats.items ≡ seats.items)
            × (back.subscribers.items ≡ subscribers.items)) }
    {
        if let Some(fault) = first_missing(rt, &self, seats.as_slice(), subscribers.as_slice()) {
            return Err(Unsettled {
                fault,
                feed: self,
                seats,
                subscribers,
            });
        }
        let unlocked = match unlock(alloc, self) {
            Ok(unlocked) => unlocked,
            Err(feed) => {
                return Err(Unsettled {
                    fault: SettleFault::NoMemory,
                    feed,
                    seats,
                    subscribers,
                });
            }
        };
        match room_for(alloc, &unlocked, seats.as_slice(), subscribers.as_slice()) {
            Ok(room) => Ok(close_lanes(rt, unlocked, subscribers, room)),
            Err(fault) => Err(Unsettled {
                fault,
                feed: relock(unlocked),
                seats,
                subscribers,
            }),
        }
    }
}
