//! The trait of formats of captures, which read records.
ghost use Rattle.std.specs.Prelude.{◌≡◌, ℕ, ◌++◌, ◌<◌, [], ◌∷◌, List, IsTrue, ◌↔◌};
ghost use Rattle.capture_records.specs.Formats.{CameOf, StepsTo, TimedRecord};

use crate::capture::Record;
use crate::read_buffer::ReadBuffer;

/// The most bytes of a capture that are held.
pub const CAPTURE_ROOM: usize = 1_179_648;

/// What some bytes of a capture begin with.
#[derive(Clone, Copy, Debug, PartialEq, Eq)]
pub enum Step<'a, F> {
    /// A piece of this length, with a record, and the time at which it came, if that is known.
    // Its length has the place of that of the piece without a record: a record there would be put
    // into one word with it, and taken out again.
    Came {
        len: usize,
        time: Option<u64>,
        record: Record<'a>,
    },
    /// A piece of this length, without a record.
    Passed(usize),
    /// Less than a piece.
    Wants,
    /// No piece, however the bytes go on.
    Bad(F),
}

/// A format of captures, and what was read of one.
pub trait RecordFormat {
    /// Why no piece is read.
    type Fault: Copy;

    /// These bytes begin with whole pieces, whatever follows, which hold these records, and this
    /// rest is left.
    ghost reads: { Self → List ℕ → List TimedRecord → Self → List ℕ → Type 0 };

    /// These bytes are less than a piece.
    ghost wants: { Self → List ℕ → Type 0 };

    /// No piece begins with these bytes.
    ghost is_bad: { Self → List ℕ → Self.Fault → Type 0 };

    /// A capture may end here.
    ghost is_whole: { Self → Type 0 };

    /// How many venues the records are of.
    ghost venues: { Self → ℕ };

    /// Reads the piece at the front of the bytes, which begin where the last one ended.
    fn next<'a>(&mut self, bytes: &'a [u8]) -> Step<'a, Self::Fault>
        ensures steps { StepsTo reads wants is_bad self.old bytes.now result self.new }
        ensures came { CameOf (venues self.old) result };

    /// Whether a capture may end here.
    fn may_end(&self) -> bool
        ensures { IsTrue result ↔ is_whole self.now };

    /// No piece.
    ghost reads_none: { (s : Self) (xs : List ℕ) → reads s xs [] s xs };

    /// Pieces after pieces.
    ghost reads_more: { (s t u : Self) (xs ys zs : List ℕ) (rs qs : List TimedRecord)
        → reads s xs rs t ys → reads t ys qs u zs → reads s xs (rs ++ qs) u zs };

    /// Whatever follows.
    ghost reads_longer: { (s t : Self) (xs ys more : List ℕ) (rs : List TimedRecord)
        → reads s xs rs t ys → reads s (xs ++ more) rs t (ys ++ more) };

    /// The venues stay.
    ghost reads_venues: { (s t : Self) (xs ys : List ℕ) (rs : List TimedRecord)
        → reads s xs rs t ys → venues t ≡ venues s };
}

/// Whether a capture may end here, with no byte unread.
pub fn is_complete<F: RecordFormat>(format: &F, unread: &ReadBuffer<CAPTURE_ROOM>) -> bool
    ensures { IsTrue result ↔ ((unread.now ≡ []) × F.is_whole format.now) }
{
    unread.is_empty() && format.may_end()
}
