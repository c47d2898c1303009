//! Packets that lines bring.

ghost use Rattle.std.specs.Prelude.{◌≡◌, ◌≤◌, ◌+◌};
ghost use Rattle.line_gaps.specs.Gaps.{goes_on, last_number_told};

use crate::number_run::NumberRun;
use feed_types::{LineId, MAX_WINDOW};

/// A packet of a line that was accepted, with its first number, its count and its time.
#[derive(Clone, Copy, Debug, PartialEq, Eq)]
pub struct TimedPacket {
    pub line: LineId,
    pub number: u64,
    pub count: u16,
    pub time: Option<u64>,
}

impl TimedPacket {
    /// Returns the last number that it tells of: that of its last message, or the one below its
    /// own where it has none.
    #[inline(always)]
    pub fn last(&self) -> u64
        ensures value { result ≡ last_number_told self.now.number self.now.count }
        ensures reaches { self.now.number ≤ result + 1 }
    {
        self.number
            .saturating_sub(1)
            .saturating_add(u64::from(self.count))
    }

    /// Returns the numbers of its messages.
    #[inline(always)]
    pub fn run(&self) -> NumberRun
        ensures { result ≡ record {
          first = self.now.number;
          last = last_number_told self.now.number self.now.count;
        } }
    {
        NumberRun {
            first: self.number,
            last: self.last(),
        }
    }

    /// Returns whether the packet goes on from this earlier one: it begins at or after its first
    /// number, and at most the largest window past its last one.
    pub fn goes_on(&self, earlier: &TimedPacket) -> bool
        ensures { result ≡ goes_on earlier.now self.now.number }
    {
        let most = earlier.last().saturating_add(u64::from(MAX_WINDOW));
        earlier.number <= self.number && self.number <= most
    }
}
