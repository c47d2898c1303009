//! How far standard error is read, for who writes it and the thread beside the run.

use libc::net::{POLLOUT, poll};
use libc::types::pollfd;
use std::alloc::{AllocError, Global};
use std::sync::Arc;
use std::sync::atomic::{AtomicBool, AtomicU64, Ordering};

/// What is marked of standard error.
#[derive(Drop)]
struct ErrorsMarks {
    /// A text wasn't taken, and that isn't told yet: until then none is written.
    is_behind: AtomicBool,
    /// The last text that was taken breaks off.
    is_cut: AtomicBool,
    /// How many texts weren't taken.
    untaken: AtomicU64,
    /// How many of these were told.
    told: AtomicU64,
}

/// Texts that standard error didn't take.
#[derive(Clone, Copy, Debug, PartialEq, Eq)]
pub struct UntakenTexts {
    /// How many there were, each up to its end of line.
    pub count: u64,
    /// Whether the text before them breaks off.
    pub is_cut: bool,
}

/// How far standard error is read: its writer marks it, and the thread beside the run, which has a
/// share, tells how many texts weren't taken.
#[derive(Drop)]
pub struct ErrorsProgress {
    marks: Arc<ErrorsMarks, Global>,
    /// The number of the file that is written.
    descriptor: i32,
}

/// How many ends of line a text has.
fn ends_in(text: &[u8]) -> u64 {
    let mut ends: u64 = 0;
    for byte in text {
        if *byte == b'\n' {
            ends = ends.saturating_add(1);
        }
    }
    ends
}

impl ErrorsProgress {
    /// The progress of the file with this number, of which everything was taken.
    pub fn new(alloc: Global, descriptor: i32) -> Result<ErrorsProgress, AllocError> {
        let marks = ErrorsMarks {
            is_behind: AtomicBool::new(false),
            is_cut: AtomicBool::new(false),
            untaken: AtomicU64::new(0),
            told: AtomicU64::new(0),
        };
        Ok(ErrorsProgress {
            marks: Arc::new(alloc, marks)?,
            descriptor,
        })
    }

    /// The same progress, for another thread. AllocError where it can't be shared any further.
    pub fn share(&self) -> Result<ErrorsProgress, AllocError> {
        Ok(ErrorsProgress {
            marks: Arc::try_clone(&self.marks)?,
            descriptor: self.descriptor,
        })
    }

    /// Whether a write wouldn't wait: the file takes some bytes, or has failed.
    fn is_ready(&self) -> bool {
        let mut asked = [pollfd {
            fd: self.descriptor,
            events: POLLOUT,
            revents: 0,
        }];
        poll(&mut asked, 0) > 0
    }

    /// Whether a text is to be written now: it wouldn't wait, and all that weren't taken before it
    /// were told.
    pub(crate) fn takes(&self) -> bool {
        !self.marks.is_behind.load(Ordering::SeqCst) && self.is_ready()
    }

    /// Marks that this text isn't written. `is_in_row` is whether the text before it breaks off.
    pub(crate) fn refuse(&self, text: &[u8], is_in_row: bool) {
        if !self.marks.is_behind.swap(true, Ordering::SeqCst) {
            self.marks.is_cut.store(is_in_row, Ordering::SeqCst);
        }
        self.marks
            .untaken
            .fetch_add(ends_in(text), Ordering::SeqCst);
    }

    /// Returns how many texts weren't taken, once texts are taken again; the writer goes on then.
    /// None where all were taken, or none are taken yet.
    pub(crate) fn resume(&self) -> Option<UntakenTexts> {
        if !self.marks.is_behind.load(Ordering::SeqCst) || !self.is_ready() {
            return None;
        }
        let untaken = self.untaken();
        let told = self.marks.told.swap(untaken, Ordering::SeqCst);
        let is_cut = self.marks.is_cut.load(Ordering::SeqCst);
        self.marks.is_behind.store(false, Ordering::SeqCst);
        Some(UntakenTexts {
            count: untaken.saturating_sub(told),
            is_cut,
        })
    }

    /// How many texts weren't taken.
    pub fn untaken(&self) -> u64 {
        self.marks.untaken.load(Ordering::SeqCst)
    }
}
