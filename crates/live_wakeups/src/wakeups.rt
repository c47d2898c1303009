//! Where the threads of a feed sleep, how they are woken, and what ends its runs.

use crate::times::FeedTimes;
use crossbeam_utils::CachePadded;
use crossbeam_utils::sync::EventCount;
use feed_types::{MAX_SUBSCRIBERS, SubscriberId};
use std::array;
use std::sync::atomic::{AtomicBool, Ordering};

/// Where the threads of a feed sleep that have nothing to do, who waits for room, and whether runs
/// are to end; and the times of what the threads hand on to each other. The feed, its subscribers
/// and its stop handles share it: whoever has made work for another thread wakes it then.
#[derive(Drop)]
pub struct Wakeups {
    /// The place where the consolidators of runs sleep.
    work: EventCount,
    /// By id, the place where the subscriber's thread sleeps.
    notices: [EventCount; MAX_SUBSCRIBERS],
    /// By id, whether a notice waits for room in the subscriber's lane. It changes under the
    /// consolidator's lock alone, and is stored only where it differs.
    full: [AtomicBool; MAX_SUBSCRIBERS],
    /// By id, whether a thread takes notices out of the subscriber's lane.
    polled: [AtomicBool; MAX_SUBSCRIBERS],
    /// The lines of runs are to read no further datagram. Each reads it before each datagram, so it
    /// lies on a cache line of its own.
    ended: CachePadded<AtomicBool>,
    times: FeedTimes,
}

impl Wakeups {
    /// Bells of a feed where nobody sleeps or waits, and where these times are kept.
    pub fn new(times: FeedTimes) -> Wakeups {
        Wakeups {
            work: EventCount::new(),
            notices: array::from_fn(|_| EventCount::new()),
            full: array::from_fn(|_| AtomicBool::new(false)),
            polled: array::from_fn(|_| AtomicBool::new(false)),
            ended: CachePadded::new(AtomicBool::new(false)),
            times,
        }
    }

    /// The times of what goes through the feed.
    #[inline(always)]
    pub fn times(&self) -> &FeedTimes {
        &self.times
    }

    /// Has the lines of the feed's runs read no further datagram.
    pub fn end_runs(&self) {
        self.ended.store(true, Ordering::SeqCst);
    }

    /// Whether the lines of the feed's runs are to read no further datagram.
    pub fn are_runs_ended(&self) -> bool {
        self.ended.load(Ordering::SeqCst)
    }

    /// Where consolidators sleep while there is nothing to journal, push or offer.
    pub fn work(&self) -> &EventCount {
        &self.work
    }

    /// Wakes the consolidators: there is something to journal, push or offer, or a run has ended
    /// sooner. Two runs of one feed have two consolidators, and each has to look.
    pub fn wake_consolidators(&self) {
        self.work.notify_all();
    }

    /// The place where the subscriber's thread sleeps while there are no notices.
    pub fn notices(&self, id: SubscriberId) -> &EventCount {
        &self.notices[id.index()]
    }

    /// Wakes the thread of each subscriber.
    pub fn wake_subscribers(&self) {
        for bell in &self.notices {
            bell.notify_all();
        }
    }

    /// Whether a notice waits for room in the subscriber's lane.
    pub fn is_room_wanted(&self, id: SubscriberId) -> bool {
        self.full[id.index()].load(Ordering::SeqCst)
    }

    /// Notes that a notice waits for room in the subscriber's lane. The caller then looks once more
    /// whether there is room: a poll before the note has rung nobody.
    pub fn want_room(&self, id: SubscriberId) {
        self.full[id.index()].store(true, Ordering::SeqCst);
    }

    /// Says that no notice waits for room in the subscriber's lane. Where one did, the
    /// consolidators are woken: one that hasn't offered it itself may wait for that alone.
    pub fn clear_room_wanted(&self, id: SubscriberId) {
        if self.is_room_wanted(id) {
            self.full[id.index()].store(false, Ordering::SeqCst);
            self.wake_consolidators();
        }
    }

    /// Whether a thread takes notices out of the subscriber's lane.
    pub fn is_polled(&self, id: SubscriberId) -> bool {
        self.polled[id.index()].load(Ordering::SeqCst)
    }

    /// Notes whether a thread takes notices out of the subscriber's lane from now on. Where none
    /// does any more, the consolidators are woken: one may wait for it.
    pub fn set_polled(&self, id: SubscriberId, is_polled: bool) {
        let was_polled = self.polled[id.index()].swap(is_polled, Ordering::SeqCst);
        if was_polled && !is_polled {
            self.wake_consolidators();
        }
    }

    /// Wakes the consolidators where a notice waits for the room that was just made in the
    /// subscriber's lane.
    pub fn wake_for_room(&self, id: SubscriberId) {
        if self.is_room_wanted(id) {
            self.wake_consolidators();
        }
    }
}
