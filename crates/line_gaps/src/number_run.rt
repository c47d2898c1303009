//! A run of numbers.
ghost use Rattle.std.specs.Prelude.{◌≡◌, max, min};
ghost use Rattle.line_gaps.specs.Runs.{is_before, len_of, meets_run};

/// The numbers from the first to the last one; none where the last is below the first.
#[derive(Clone, Copy, Debug, Default, PartialEq, Eq)]
pub struct NumberRun {
    pub first: u64,
    pub last: u64,
}

impl NumberRun {
    /// Returns whether a number is in both.
    #[inline(always)]
    pub fn meets(self, other: NumberRun) -> bool
        ensures { result ≡ meets_run self other }
    {
        self.first.max(other.first) <= self.last.min(other.last)
    }

    /// Returns whether the other numbers begin right after these.
    #[inline(always)]
    pub fn is_before(self, other: NumberRun) -> bool
        ensures { result ≡ is_before self other }
    {
        self.first <= other.first && self.last < other.first && other.first - self.last == 1
    }

    /// Returns how many numbers there are, of all 2^64 one less.
    pub fn len(self) -> u64
        ensures { result ≡ len_of self }
    {
        if self.last < self.first {
            return 0;
        }
        (self.last - self.first).saturating_add(1)
    }

    /// Returns the numbers that are in both.
    pub fn both(self, other: NumberRun) -> NumberRun
        ensures { result ≡ record {
          first = max self.first other.first;
          last = min self.last other.last;
        } }
    {
        NumberRun {
            first: self.first.max(other.first),
            last: self.last.min(other.last),
        }
    }
}
