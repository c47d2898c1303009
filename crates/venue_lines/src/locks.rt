//! The venues of a feed, each under a lock.

ghost use Rattle.std.specs.Prelude.{◌≡◌, ◌<◌, ◌↔◌, length, IsSome};

use crate::locked_venue::LockedVenue;
use crossbeam_utils::CachePadded;
use feed_steps::FeedName;
use feed_types::{Genuine, MAX_VENUES, VenueId};
use live_wakeups::Wakeups;
use std::alloc::{AllocError, Global};
use std::marker::Model;
use std::sync::atomic::{AtomicBool, Ordering};
use std::sync::{Arc, Mutex, MutexGuard, Wait};
use std::{array, hint};

/// The number of tries at a lock that another thread holds, before the thread sleeps for it.
const TRIES: u32 = 40;

/// The most pauses between two tries: longer than a section takes.
const MOST_PAUSES: u32 = 64;

/// Takes the lock. A thread that finds it held tries again for a while, each time after twice as
/// long a pause: a section is short, and one that sleeps has to be woken by a system call.
/// Meanwhile the other thread, whose caches have what the lock guards, takes what else came on its
/// line.
pub(crate) fn lock_spinning<'l, T, W: Wait>(rt: &W, lock: &'l Mutex<T>) -> MutexGuard<'l, T> {
    let mut pauses: u32 = 16;
    for _ in 0..TRIES {
        if let Some(guard) = lock.try_lock() {
            return guard;
        }
        for _ in 0..pauses {
            hint::spin_loop();
        }
        pauses = pauses.saturating_mul(2).min(MOST_PAUSES);
    }
    lock.lock(rt)
}

/// A venue under its lock, on cache lines of its own.
pub type VenueLock<G, N> = CachePadded<Mutex<LockedVenue<G, N>>>;

/// The venues under their locks, in order. There are as many as the feed has lanes for. Contracts
/// see how many.
#[derive(Drop)]
pub struct VenueLocks<G: Genuine, N: FeedName> {
    locks: Vec<VenueLock<G, N>>,
    /// By venue, whether something may be ready that wasn't pushed. It changes under the
    /// venue's lock alone, and is stored only where it differs. It lies on cache lines of its own,
    /// apart from what each datagram reads.
    backlogged: CachePadded<[AtomicBool; MAX_VENUES]>,
    wakeups: Arc<Wakeups, Global>,
}

impl<G: Genuine, N: FeedName> Model for VenueLocks<G, N> {
    ghost use Rattle.std.specs.Prelude.{◌≡◌, ℕ, length};

    ghost Value = { ℕ };

    ghost view = { λ v. length v.locks.items };

    ghost invariant = { λ v. length v.locks.items ≡ length N.lanes.venues };
}

impl<G: Genuine, N: FeedName> VenueLocks<G, N> {
    /// The venues under these locks, in order, where none has a backlog.
    pub fn new(locks: Vec<VenueLock<G, N>>, wakeups: Arc<Wakeups, Global>) -> VenueLocks<G, N>
        requires { length locks.items ≡ length N.lanes.venues }
    {
        VenueLocks {
            locks,
            backlogged: CachePadded::new(array::from_fn(|_| AtomicBool::new(false))),
            wakeups,
        }
    }

    /// The places where the threads of the feed sleep.
    pub fn wakeups(&self) -> &Wakeups {
        &self.wakeups
    }

    /// The same bells, for a subscriber.
    pub fn share_bells(&self) -> Result<Arc<Wakeups, Global>, AllocError> {
        Arc::try_clone(&self.wakeups)
    }

    /// Whether something may be ready at the venue that wasn't pushed.
    pub fn has_backlog(&self, venue: VenueId) -> bool {
        self.backlogged[venue.index()].load(Ordering::SeqCst)
    }

    /// Notes whether something may be ready at the venue that wasn't pushed, and returns whether
    /// that is new: nothing was before. A consolidator that has looked since an older note knows of
    /// it, and sleeps only where it couldn't go on.
    pub(crate) fn set_backlog(&self, venue: VenueId, has_backlog: bool) -> bool {
        let had_backlog = self.has_backlog(venue);
        if had_backlog != has_backlog {
            self.backlogged[venue.index()].store(has_backlog, Ordering::SeqCst);
        }
        has_backlog && !had_backlog
    }

    /// The number of venues.
    pub fn len(&self) -> usize
        ensures { result ≡ length N.lanes.venues }
    {
        self.locks.len()
    }

    /// The venue's lock, if there is such a venue.
    pub(crate) fn get(&self, venue: VenueId) -> Option<&Mutex<LockedVenue<G, N>>>
        ensures { IsSome result ↔ (venue < length N.lanes.venues) }
    {
        match self.locks.get(venue.index()) {
            Some(lock) => Some(&**lock),
            None => None,
        }
    }

    /// All locks.
    pub fn as_slice(&self) -> &[VenueLock<G, N>] {
        self.locks.as_slice()
    }

    /// Returns the locks, and the places where the threads of the feed sleep.
    pub fn into_parts(self) -> (Vec<VenueLock<G, N>>, Arc<Wakeups, Global>)
        ensures { length result.0.items ≡ length N.lanes.venues }
    {
        let VenueLocks {
            locks,
            backlogged: _,
            wakeups,
        } = self;
        (locks, wakeups)
    }
}
