//! The consolidator's lock.

use crate::hub_cell::HubCell;
use feed_steps::FeedName;
use feed_types::Genuine;
use std::sync::atomic::{AtomicU64, Ordering};
use std::sync::{Mutex, MutexGuard, Wait};

/// The consolidator's lock, and how many threads wait for it. Who keeps the lock from one section
/// to the next looks there after each, and lets it go where somebody waits.
#[derive(Drop)]
pub struct HubLock<G: Genuine, N: FeedName> {
    hub: Mutex<HubCell<G, N>>,
    /// The number of threads that found the lock held, and wait for it.
    waiting: AtomicU64,
}

impl<G: Genuine, N: FeedName> HubLock<G, N> {
    /// A lock that nobody holds.
    pub(crate) fn new(hub: HubCell<G, N>) -> HubLock<G, N> {
        HubLock {
            hub: Mutex::new(hub),
            waiting: AtomicU64::new(0),
        }
    }

    /// Takes the lock. Where another thread holds it, that one is shown that somebody waits.
    pub(crate) fn lock<W: Wait>(&self, rt: &W) -> MutexGuard<'_, HubCell<G, N>> {
        if let Some(guard) = self.hub.try_lock() {
            return guard;
        }
        self.waiting.fetch_add(1, Ordering::SeqCst);
        let guard = self.hub.lock(rt);
        self.waiting.fetch_sub(1, Ordering::SeqCst);
        guard
    }

    /// Whether somebody waits for the lock.
    pub(crate) fn is_wanted(&self) -> bool {
        self.waiting.load(Ordering::SeqCst) > 0
    }

    /// Returns what the lock guarded.
    pub(crate) fn into_inner(self) -> HubCell<G, N> {
        let HubLock { hub, waiting: _ } = self;
        hub.into_inner()
    }
}
