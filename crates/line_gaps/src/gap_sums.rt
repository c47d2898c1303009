//! Sums over the gaps of a line.
ghost use Rattle.std.specs.Prelude.{◌≡◌, ℕ, List, [], ◌∷◌, ◌++◌};
ghost use Rattle.feed_types.specs.FullCounts.{count_after};
ghost use Rattle.line_gaps.specs.declared.open_gap.EndedGap.{EndedGap};
ghost use Rattle.line_gaps.specs.Sums.{AreEndsOf, AreSumsOf, lost_of, time_taken};

use crate::open_gap::{EndedGap, GapEnd};

/// How many gaps each cause ended.
#[derive(Clone, Copy, Debug, Default, PartialEq, Eq)]
pub struct GapEnds {
    pub a: u64,
    pub b: u64,
    pub recovery: u64,
    pub skip: u64,
    pub before: u64,
    pub open: u64,
}

/// Sums over the gaps of a line that ended, or were open when the session or the capture ended. A
/// sum stays at its largest number once it is there.
#[derive(Clone, Copy, Debug, Default, PartialEq, Eq)]
pub struct GapSums {
    /// The gaps.
    pub found: u64,
    /// The messages that they lack.
    pub left_out: u64,
    /// The nanoseconds that the longest took, of those whose begin and end are known.
    pub longest: u64,
    pub ended_by: GapEnds,
    /// The messages of them that were given up.
    pub given_up: u64,
    /// The gaps that were merged into others, since 16 others were open.
    pub merged: u64,
    /// The messages that the line passed over and brought later.
    pub late: u64,
    /// The messages that the line brought once more.
    pub again: u64,
    /// The messages past the line's highest number that packets of the venue told of, when its
    /// sessions or the capture ended.
    pub tail: u64,
}

/// Returns a count after this many more.
#[inline(always)]
pub(crate) fn raised(count: u64, more: u64) -> u64
    ensures { result ≡ count_after count more }
{
    count.saturating_add(more)
}

impl GapEnds {
    /// Of no gap.
    fn new() -> GapEnds
        ensures { AreEndsOf [] result }
    {
        GapEnds {
            a: 0,
            b: 0,
            recovery: 0,
            skip: 0,
            before: 0,
            open: 0,
        }
    }

    /// Counts a gap.
    fn add(&mut self, gap: &EndedGap)
        ensures { (gaps : List EndedGap) → AreEndsOf gaps self.old
            → AreEndsOf (gaps ++ gap.now ∷ []) self.new }
    {
        match gap.by {
            GapEnd::A => self.a = raised(self.a, 1),
            GapEnd::B => self.b = raised(self.b, 1),
            GapEnd::Recovery => self.recovery = raised(self.recovery, 1),
            GapEnd::Skip => self.skip = raised(self.skip, 1),
            GapEnd::Before => self.before = raised(self.before, 1),
            GapEnd::Open => self.open = raised(self.open, 1),
        }
    }
}

/// Returns how long a gap took, 0 where its begin or its end isn't known.
fn time_taken(gap: &EndedGap) -> u64
    ensures { result ≡ time_taken gap.now }
{
    match (gap.gap.began, gap.ended) {
        (Some(began), Some(ended)) => ended.saturating_sub(began),
        _ => 0,
    }
}

impl GapSums {
    /// Of no gap.
    pub fn new() -> GapSums
        ensures sums { AreSumsOf [] result }
        ensures merged { result.merged ≡ 0 }
        ensures tail { result.tail ≡ 0 }
    {
        GapSums {
            found: 0,
            left_out: 0,
            longest: 0,
            ended_by: GapEnds::new(),
            given_up: 0,
            merged: 0,
            late: 0,
            again: 0,
            tail: 0,
        }
    }

    /// Adds a gap.
    pub(crate) fn add(&mut self, gap: &EndedGap)
        ensures sums { (gaps : List EndedGap) → AreSumsOf gaps self.old
            → AreSumsOf (gaps ++ gap.now ∷ []) self.new }
        ensures merged { self.new.merged ≡ self.old.merged }
        ensures late { self.new.late ≡ self.old.late }
        ensures again { self.new.again ≡ self.old.again }
        ensures tail { self.new.tail ≡ self.old.tail }
    {
        self.found = raised(self.found, 1);
        self.left_out = raised(self.left_out, gap.gap.messages);
        self.longest = self.longest.max(time_taken(gap));
        self.given_up = raised(self.given_up, gap.given_up);
        self.ended_by.add(gap);
    }

    /// Returns how many messages the line never brought: of those that it passed over, and past its
    /// highest number.
    pub fn lost(&self) -> u64
        ensures { result ≡ lost_of self.now }
    {
        raised(self.left_out.saturating_sub(self.late), self.tail)
    }
}
