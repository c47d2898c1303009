//! What the threads of a run tell each other of standard output.

use std::alloc::{AllocError, Global};
use std::sync::Arc;
use std::sync::atomic::{AtomicBool, Ordering};

/// What the threads of a run mark of standard output.
#[derive(Drop)]
struct OutputMarks {
    /// A write has failed.
    failed: AtomicBool,
    /// The run is to end, whether or not the output takes anything.
    ending: AtomicBool,
    /// The thread that prints rows has ended.
    done: AtomicBool,
}

/// How standard output does: the thread that writes marks it, and the run's monitor looks at it and
/// marks that the run is to end.
#[derive(Drop)]
pub struct OutputState {
    marks: Arc<OutputMarks, Global>,
}

impl OutputState {
    /// Returns the state of an output on which nothing was written.
    pub fn new(alloc: Global) -> Result<OutputState, AllocError> {
        let marks = OutputMarks {
            failed: AtomicBool::new(false),
            ending: AtomicBool::new(false),
            done: AtomicBool::new(false),
        };
        Ok(OutputState {
            marks: Arc::new(alloc, marks)?,
        })
    }

    /// Returns the same state, for another thread. AllocError where it can't be shared any further.
    pub fn share(&self) -> Result<OutputState, AllocError> {
        Ok(OutputState {
            marks: Arc::try_clone(&self.marks)?,
        })
    }

    /// Marks that a write has failed.
    pub fn fail(&self) {
        self.marks.failed.store(true, Ordering::SeqCst);
    }

    /// Whether a write has failed.
    pub fn has_failed(&self) -> bool {
        self.marks.failed.load(Ordering::SeqCst)
    }

    /// Marks that the run is to end, whether or not the output takes anything.
    pub fn end(&self) {
        self.marks.ending.store(true, Ordering::SeqCst);
    }

    /// Whether the run is to end, whether or not the output takes anything.
    pub fn is_ending(&self) -> bool {
        self.marks.ending.load(Ordering::SeqCst)
    }

    /// Marks that the thread that prints rows has ended.
    pub fn finish(&self) {
        self.marks.done.store(true, Ordering::SeqCst);
    }

    /// Whether the thread that prints rows has ended.
    pub fn is_done(&self) -> bool {
        self.marks.done.load(Ordering::SeqCst)
    }
}
