//! The times of what goes through a feed.
//!
//! A change of the national best is caused by an item, and an item is brought by a datagram: the
//! one with whose taking it is ready to be pushed. Items, notices and entries carry no time, since
//! all that is said of them would have to speak of it. So times go beside them, each in a slot that
//! is known by a number: that of the item, counted through all sessions of its venue, or that of
//! the change.

use feed_types::VenueId;
use std::alloc::{AllocError, Global};
use std::sync::atomic::{AtomicU64, Ordering};

/// The time of a datagram of which none is known.
const UNKNOWN: u64 = u64::MAX;

/// The number in a slot that is being written, which is past all others.
const WRITING: u64 = u64::MAX;

/// A number from 1 on, or 0 at first, and its time in nanoseconds from 1970 on.
#[derive(Drop)]
struct TimeSlot {
    number: AtomicU64,
    time: AtomicU64,
}

impl TimeSlot {
    /// The number whose time it has.
    fn number(&self) -> u64 {
        self.number.load(Ordering::SeqCst)
    }

    /// Writes a number and its time. Who reads the slot meanwhile finds that it is being written.
    fn write(&self, number: u64, time: u64) {
        self.number.store(WRITING, Ordering::SeqCst);
        self.time.store(time, Ordering::SeqCst);
        self.number.store(number, Ordering::SeqCst);
    }
}

/// The times of the latest numbers, each in the slot of its number modulo their count. One thread
/// writes at a time, with rising numbers, and any may read.
#[derive(Drop)]
struct TimeRing {
    slots: Vec<TimeSlot>,
}

impl TimeRing {
    /// A ring of as many slots, none of which has a time.
    fn new(alloc: Global, count: usize) -> Result<TimeRing, AllocError> {
        let mut slots = Vec::with_capacity(alloc, count)?;
        for _ in 0..count {
            slots.push(TimeSlot {
                number: AtomicU64::new(0),
                time: AtomicU64::new(UNKNOWN),
            })?;
        }
        Ok(TimeRing { slots })
    }

    /// The slot of the number; None where there is no slot at all.
    fn slot(&self, number: u64) -> Option<&TimeSlot> {
        let count = self.slots.len() as u64;
        if count == 0 {
            return None;
        }
        self.slots.get((number % count) as usize)
    }

    /// Notes the number's time, in place of that of an earlier number.
    fn note(&self, number: u64, time: u64) {
        if let Some(slot) = self.slot(number) {
            slot.write(number, time);
        }
    }

    /// The number's time; None where none was noted for it, or that of a later number was since.
    fn time_of(&self, number: u64) -> Option<u64> {
        let slot = self.slot(number)?;
        if slot.number() != number {
            return None;
        }
        let time = slot.time.load(Ordering::SeqCst);
        // A time that was written meanwhile is a later number's.
        if slot.number() == number {
            Some(time)
        } else {
            None
        }
    }

    /// Whether a time of the number would no longer be there.
    fn is_past(&self, number: u64) -> bool {
        match self.slot(number) {
            Some(slot) => slot.number() > number,
            None => true,
        }
    }
}

/// The times of a venue's items. The items are counted through all sessions, from 1: in this order
/// they get ready, are pushed and are journaled.
#[derive(Drop)]
struct VenueClock {
    /// The times of datagrams, each under the count of the first item that it brings. The items
    /// after that one up to the next time have the same.
    datagrams: TimeRing,
    /// By how much the count of an item is past its number in its session, modulo 2^64. It changes
    /// under the venue's lock alone.
    offset: AtomicU64,
}

impl VenueClock {
    /// The times of a venue to which nothing came, of at most as many items at a time.
    fn new(alloc: Global, items: usize) -> Result<VenueClock, AllocError> {
        Ok(VenueClock {
            datagrams: TimeRing::new(alloc, items)?,
            offset: AtomicU64::new(0),
        })
    }
}

/// How many items of a venue were journaled, and the time of the last of them.
#[derive(Clone, Copy, Debug)]
struct JournaledItems {
    count: u64,
    /// The time, or `UNKNOWN`.
    last: u64,
}

impl JournaledItems {
    /// No items.
    fn none() -> JournaledItems {
        JournaledItems {
            count: 0,
            last: UNKNOWN,
        }
    }

    /// Counts one more item, whose venue has these times.
    fn add_one(&mut self, times: &VenueClock) {
        self.count = self.count.wrapping_add(1);
        if let Some(time) = times.datagrams.time_of(self.count) {
            self.last = time;
        } else if times.datagrams.is_past(self.count) {
            self.last = UNKNOWN;
        }
    }
}

/// How far a feed has noted the times of its items and changes. It stands under the consolidator's
/// lock, beside the journal, and [`FeedTimes`] beside the locks.
#[derive(Clone, Copy, Debug)]
pub struct NotedTimes {
    /// By the venue's number, its items that were journaled.
    items: [JournaledItems; 16],
    /// The number of the last change whose time was noted, or that has none.
    changes: u64,
}

impl NotedTimes {
    /// Nothing was noted: no item was journaled.
    pub fn nothing() -> NotedTimes {
        NotedTimes {
            items: [JournaledItems::none(); 16],
            changes: 0,
        }
    }

    /// Says that the changes up to this number that have no time get none: no item caused them.
    pub fn pass_changes(&mut self, changes: usize) {
        self.changes = changes as u64;
    }
}

/// The times of what goes through a feed, where they are asked for, shared by the feed's parts.
///
/// A datagram's time is noted under the venue's lock before it is taken, and so before anything
/// that it brings is pushed. A change's is noted under the consolidator's lock once its item was
/// journaled, and so before it is offered. A time that isn't there any more, as where there are
/// too few slots, is no other one's: there is none.
#[derive(Drop)]
pub struct FeedTimes {
    /// Those of each venue; none where no times are asked for.
    venues: Vec<VenueClock>,
    /// Those of the latest changes.
    changes: TimeRing,
}

impl FeedTimes {
    /// No times, and no slots for them: then nothing is stored.
    pub fn none(alloc: Global) -> FeedTimes {
        FeedTimes {
            venues: Vec::new(alloc),
            changes: TimeRing {
                slots: Vec::new(alloc),
            },
        }
    }

    /// The times of a feed of `venues` venues to which nothing came: of `items` items of each that
    /// are ready and not journaled yet, and of the latest `changes` changes.
    pub fn new(
        alloc: Global,
        venues: usize,
        items: usize,
        changes: usize,
    ) -> Result<FeedTimes, AllocError> {
        let mut of_venues = Vec::with_capacity(alloc, venues)?;
        for _ in 0..venues {
            of_venues.push(VenueClock::new(alloc, items)?)?;
        }
        Ok(FeedTimes {
            venues: of_venues,
            changes: TimeRing::new(alloc, changes)?,
        })
    }

    /// Whether times are asked for. Where they aren't, no other call is needed.
    #[inline(always)]
    pub fn are_kept(&self) -> bool {
        !self.venues.is_empty()
    }

    /// Notes the time of the venue's datagram that is taken next. What it brings comes after the
    /// item of number `ready` in its session, the last that is ready or was pushed.
    pub fn note_datagram(&self, venue: VenueId, ready: u64, time: Option<u64>) {
        if let Some(times) = self.venues.get(venue.index()) {
            let offset = times.offset.load(Ordering::SeqCst);
            let first = offset.wrapping_add(ready).wrapping_add(1);
            times.datagrams.note(first, time.unwrap_or(UNKNOWN));
        }
    }

    /// Says that the venue's numbers go on after `to` now, where they would have gone on after
    /// `from`: a session has begun, or messages were given up. All that was ready was pushed.
    pub fn go_on_from(&self, venue: VenueId, from: u64, to: u64) {
        if let Some(times) = self.venues.get(venue.index()) {
            let offset = times.offset.load(Ordering::SeqCst);
            let moved = offset.wrapping_add(from).wrapping_sub(to);
            times.offset.store(moved, Ordering::SeqCst);
        }
    }

    /// Counts an item of the venue that was journaled, after which there are `changes` changes, and
    /// notes its time as that of those that it caused: those past `noted`, which is how far this
    /// came before.
    pub fn note_item(&self, noted: &mut NotedTimes, venue: VenueId, changes: usize) {
        let Some(times) = self.venues.get(venue.index()) else {
            return;
        };
        let items = &mut noted.items[venue.index()];
        items.add_one(times);
        let time = items.last;
        let first = noted.changes.saturating_add(1);
        for number in first..=changes as u64 {
            self.changes.note(number, time);
        }
        noted.pass_changes(changes);
    }

    /// The time in nanoseconds from 1970 on of the datagram that brought the item by which the
    /// change of this number was caused; None where it isn't known or no longer there.
    pub fn time_of(&self, change: u64) -> Option<u64> {
        match self.changes.time_of(change) {
            Some(time) if time != UNKNOWN => Some(time),
            _ => None,
        }
    }
}
