//! How far a recording is.

use crate::venue_records::VenueRecords;
use std::alloc::{AllocError, Global};
use std::sync::Arc;
use std::sync::atomic::{AtomicBool, AtomicU64, Ordering};

/// What is marked of a recording.
#[derive(Drop)]
struct RecordingMarks {
    /// Nothing more comes.
    ending: AtomicBool,
    /// All is written that will be.
    done: AtomicBool,
    /// A write has failed.
    failed: AtomicBool,
    /// How many records are written.
    written: AtomicU64,
    /// How many each sender was given.
    given: Vec<Arc<AtomicU64, Global>>,
}

/// How far a recording is: its thread marks it, and the one beside it, which has a share, looks at
/// it and marks that nothing more comes.
#[derive(Drop)]
pub struct RecordingState {
    marks: Arc<RecordingMarks, Global>,
}

impl RecordingState {
    /// The state of a recording of these venues, of which nothing is written.
    pub fn new(alloc: Global, venues: &[VenueRecords]) -> Result<RecordingState, AllocError> {
        let mut given = Vec::new(alloc);
        for venue in venues {
            venue.share_given(&mut given)?;
        }
        let marks = RecordingMarks {
            ending: AtomicBool::new(false),
            done: AtomicBool::new(false),
            failed: AtomicBool::new(false),
            written: AtomicU64::new(0),
            given,
        };
        Ok(RecordingState {
            marks: Arc::new(alloc, marks)?,
        })
    }

    /// The same state, for another thread. AllocError where it can't be shared any further.
    pub fn share(&self) -> Result<RecordingState, AllocError> {
        Ok(RecordingState {
            marks: Arc::try_clone(&self.marks)?,
        })
    }

    /// Marks that nothing more comes.
    pub fn end(&self) {
        self.marks.ending.store(true, Ordering::SeqCst);
    }

    /// Whether nothing more comes.
    pub fn is_ending(&self) -> bool {
        self.marks.ending.load(Ordering::SeqCst)
    }

    /// Marks that all is written that will be.
    pub(crate) fn finish(&self) {
        self.marks.done.store(true, Ordering::SeqCst);
    }

    /// Whether all is written that will be.
    pub fn is_done(&self) -> bool {
        self.marks.done.load(Ordering::SeqCst)
    }

    /// Marks that a write has failed.
    pub(crate) fn fail(&self) {
        self.marks.failed.store(true, Ordering::SeqCst);
    }

    /// Whether a write has failed.
    pub fn has_failed(&self) -> bool {
        self.marks.failed.load(Ordering::SeqCst)
    }

    /// Counts records that were written.
    pub(crate) fn count_written(&self, count: u64) {
        self.marks.written.fetch_add(count, Ordering::SeqCst);
    }

    /// How many of the datagrams and skips that its senders were given aren't written.
    pub fn without(&self) -> u64 {
        let mut given = 0u64;
        for count in self.marks.given.as_slice() {
            given = given.saturating_add(count.load(Ordering::SeqCst));
        }
        given.saturating_sub(self.marks.written.load(Ordering::SeqCst))
    }
}
