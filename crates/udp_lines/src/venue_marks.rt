//! What the lines of a venue know of one another.

use feed_types::LineId;
use std::alloc::{AllocError, Global};
use std::sync::Arc;
use std::sync::atomic::{AtomicU64, Ordering};

/// What the lines' threads mark of their venue's session.
#[derive(Drop)]
struct Marks {
    /// The highest number that one of them has brought; 0 where none has brought any.
    highest: AtomicU64,
    /// The number of the end of the session that A and B have brought last; 0 where they have
    /// brought none.
    end_of_a: AtomicU64,
    end_of_b: AtomicU64,
}

/// What a line sees of its venue's other lines.
#[derive(Clone, Copy, Debug, PartialEq, Eq)]
pub(crate) struct OthersSeen {
    /// The highest number that a line of the venue has brought; 0 where none has brought any.
    pub(crate) highest: u64,
    /// The number of the end of the session that the other one of A and B has brought last; 0 where
    /// it has brought none.
    pub(crate) end: u64,
}

/// Others that have brought nothing.
pub(crate) const NOTHING_SEEN: OthersSeen = OthersSeen { highest: 0, end: 0 };

/// How far the lines of a venue have come in its session: each marks it, and all look at it.
#[derive(Drop)]
pub struct VenueMarks {
    marks: Arc<Marks, Global>,
}

impl VenueMarks {
    /// The marks of a venue whose lines have brought nothing.
    pub fn new(alloc: Global) -> Result<VenueMarks, AllocError> {
        let marks = Marks {
            highest: AtomicU64::new(0),
            end_of_a: AtomicU64::new(0),
            end_of_b: AtomicU64::new(0),
        };
        Ok(VenueMarks {
            marks: Arc::new(alloc, marks)?,
        })
    }

    /// The same marks, for another line. AllocError where they can't be shared any further.
    pub fn share(&self) -> Result<VenueMarks, AllocError> {
        Ok(VenueMarks {
            marks: Arc::try_clone(&self.marks)?,
        })
    }

    /// The highest number that a line of the venue has brought; 0 where none has brought any.
    pub(crate) fn highest(&self) -> u64 {
        self.marks.highest.load(Ordering::SeqCst)
    }

    /// Marks that a line has brought this number, which is higher than those before.
    pub(crate) fn raise(&self, number: u64) {
        self.marks.highest.fetch_max(number, Ordering::SeqCst);
    }

    /// Marks that line A or B has brought an end of the session that has this number.
    pub(crate) fn mark_end(&self, line: LineId, number: u64) {
        match line {
            LineId::A => self.marks.end_of_a.store(number, Ordering::SeqCst),
            LineId::B => self.marks.end_of_b.store(number, Ordering::SeqCst),
            LineId::Recovery => {}
        }
    }

    /// What this line sees of the others.
    pub(crate) fn seen_by(&self, line: LineId) -> OthersSeen {
        OthersSeen {
            highest: self.highest(),
            end: match line {
                LineId::A => self.marks.end_of_b.load(Ordering::SeqCst),
                LineId::B => self.marks.end_of_a.load(Ordering::SeqCst),
                LineId::Recovery => 0,
            },
        }
    }
}
