//! How far the rows of a run are, for the thread beside the one that prints them.

use std::alloc::{AllocError, Global};
use std::sync::Arc;
use std::sync::atomic::{AtomicU64, Ordering};

/// What the thread that prints rows marks of them.
#[derive(Drop)]
struct RowMarks {
    /// The number of the last change of the national best that was taken; 0 before the first one.
    taken: AtomicU64,
    /// The number of the last one whose row was printed.
    printed: AtomicU64,
    /// How many writes were begun.
    begun: AtomicU64,
    /// How many of them are over.
    done: AtomicU64,
    /// How many rows have a time.
    timed: AtomicU64,
    /// The nanoseconds from these times until the rows were printed, added up.
    latency: AtomicU64,
}

/// How far the rows of a run are: the thread that prints them marks it, and the one beside it,
/// which has a share, looks at it.
#[derive(Drop)]
pub struct RowProgress {
    marks: Arc<RowMarks, Global>,
}

impl RowProgress {
    /// The progress of rows of which none was printed.
    pub fn new(alloc: Global) -> Result<RowProgress, AllocError> {
        let marks = RowMarks {
            taken: AtomicU64::new(0),
            printed: AtomicU64::new(0),
            begun: AtomicU64::new(0),
            done: AtomicU64::new(0),
            timed: AtomicU64::new(0),
            latency: AtomicU64::new(0),
        };
        Ok(RowProgress {
            marks: Arc::new(alloc, marks)?,
        })
    }

    /// The same progress, for another thread. AllocError where it can't be shared any further.
    pub fn share(&self) -> Result<RowProgress, AllocError> {
        Ok(RowProgress {
            marks: Arc::try_clone(&self.marks)?,
        })
    }

    /// Marks that all changes up to the one with this number were taken.
    pub fn take(&self, number: u64) {
        self.marks.taken.store(number, Ordering::SeqCst);
    }

    /// Marks that a write of rows begins.
    pub fn begin_write(&self) {
        self.marks.begun.fetch_add(1, Ordering::SeqCst);
    }

    /// Marks that the write is over, and that the rows of all changes up to this number were
    /// printed.
    pub fn end_write(&self, printed: u64) {
        self.marks.printed.store(printed, Ordering::SeqCst);
        self.marks.done.fetch_add(1, Ordering::SeqCst);
    }

    /// Counts a printed row that came this many nanoseconds after its datagram.
    pub fn count_latency(&self, nanoseconds: u64) {
        self.marks.timed.fetch_add(1, Ordering::SeqCst);
        self.marks.latency.fetch_add(nanoseconds, Ordering::SeqCst);
    }

    /// How many changes of the national best were taken.
    pub fn taken(&self) -> u64 {
        self.marks.taken.load(Ordering::SeqCst)
    }

    /// How many rows were printed.
    pub fn printed(&self) -> u64 {
        self.marks.printed.load(Ordering::SeqCst)
    }

    /// The write that goes on, counted from 1, if one does.
    pub(crate) fn write_going_on(&self) -> Option<u64> {
        let done = self.marks.done.load(Ordering::SeqCst);
        let begun = self.marks.begun.load(Ordering::SeqCst);
        if begun > done { Some(begun) } else { None }
    }

    /// How many printed rows have a time.
    pub fn timed(&self) -> u64 {
        self.marks.timed.load(Ordering::SeqCst)
    }

    /// The nanoseconds from the times of these rows until they were printed, added up.
    pub fn latency(&self) -> u64 {
        self.marks.latency.load(Ordering::SeqCst)
    }
}
