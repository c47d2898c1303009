//! The gaps that an event ends.

ghost use Rattle.std.specs.Prelude.{◌≡◌, ◌+◌, ◌≤◌, length, [], ◌∷◌, ◌++◌};

use crate::open_gap::EndedGap;
use arrayvec::ArrayVec;

/// The most gaps that one event ends: of A, of B and of all lines 16 that were open, and one that
/// begins with it.
pub(crate) const MOST: usize = 51;

/// The gaps that an event ended: those of line A, of line B and of all lines, each by their first
/// numbers.
#[derive(Drop)]
pub struct EndedGaps {
    pub gaps: ArrayVec<EndedGap, MOST>,
}

impl EndedGaps {
    /// None.
    pub fn new() -> EndedGaps
        ensures { result.gaps.items ≡ [] }
    {
        EndedGaps {
            gaps: ArrayVec::new(),
        }
    }

    /// Forgets all.
    #[inline(always)]
    pub fn clear(&mut self)
        ensures { self.new.gaps.items ≡ [] }
    {
        if !self.gaps.is_empty() {
            self.gaps.clear();
        }
    }

    /// Returns them in order.
    pub fn as_slice(&self) -> &[EndedGap]
        ensures { result.now ≡ self.now.gaps.items }
    {
        self.gaps.as_slice()
    }

    /// Adds one more.
    pub(crate) fn push(&mut self, gap: EndedGap)
        requires { length self.old.gaps.items + 1 ≤ 51 }
        ensures { self.new.gaps.items ≡ self.old.gaps.items ++ gap ∷ [] }
    {
        self.gaps.push(gap);
    }
}
