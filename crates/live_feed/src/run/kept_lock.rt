//! The consolidator's lock, kept from turn to turn.

use crate::feed::open_feed::OpenFeed;
use crate::hub_cell::HubCell;
use feed_steps::FeedName;
use feed_types::Genuine;
use hub_lanes::Consolidated;
use std::sync::{MutexGuard, Wait};

/// The consolidator's lock in the hand of the consolidator's thread, which keeps it from turn to
/// turn until somebody wants it, and lets it go before it takes another lock, lets others run or
/// sleeps. While somebody wants it, it is let go after each turn.
#[derive(Drop)]
pub(crate) struct KeptLock<'f, G: Genuine, N: FeedName> {
    /// The feed whose lock it is.
    pub(crate) feed: &'f OpenFeed<G, N>,
    kept: Option<MutexGuard<'f, HubCell<G, N>>>,
}

impl<'f, G: Genuine, N: FeedName> KeptLock<'f, G, N> {
    /// The feed's lock, which isn't taken yet.
    pub(crate) fn of(feed: &'f OpenFeed<G, N>) -> KeptLock<'f, G, N> {
        KeptLock { feed, kept: None }
    }

    /// Takes the lock, where it isn't kept.
    fn take<W: Wait>(&mut self, rt: &W) -> MutexGuard<'f, HubCell<G, N>> {
        match self.kept.take() {
            Some(guard) => guard,
            None => self.feed.hub.lock(rt),
        }
    }

    /// Keeps the lock, or lets it go where somebody wants it.
    fn keep(&mut self, guard: MutexGuard<'f, HubCell<G, N>>) {
        if self.feed.hub.is_wanted() {
            drop(guard);
        } else {
            self.kept = Some(guard);
        }
    }

    /// Lets the lock go.
    pub(crate) fn let_go(&mut self) {
        self.kept = None;
    }

    /// Journals and offers, as [`OpenFeed::consolidate`] does.
    pub(crate) fn take_turn<W: Wait>(&mut self, rt: &W) -> Consolidated {
        let wakeups = self.feed.venues.wakeups();
        let mut hub = self.take(rt);
        let done = hub.take_turn(rt, wakeups);
        self.keep(hub);
        if done.consumed > 0 {
            wakeups.wake_consolidators();
        }
        done
    }

    /// Offers each subscriber what it wants, and journals nothing.
    pub(crate) fn offer_alone<W: Wait>(&mut self, rt: &W) -> Consolidated {
        let wakeups = self.feed.venues.wakeups();
        let mut hub = self.take(rt);
        let done = hub.offer_alone(rt, wakeups);
        self.keep(hub);
        done
    }
}
