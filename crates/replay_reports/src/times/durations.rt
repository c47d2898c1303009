//! Durations, counted by their size.
ghost use Rattle.std.specs.Prelude.{◌≡◌, ℕ, ◌^◌, ◌<◌, ◌≤◌, List, [], ◌∷◌, IfOk, length};
ghost use Rattle.replay_reports.specs.times.Durations.{AreCounted, IsShareBound};
ghost use Rattle.replay_reports.specs.times.Figures.{capped, longest_of, mean_of};
ghost use Rattle.replay_reports.specs.times.DurationStats.{AreDurationStats};
ghost use Rattle.replay_reports.specs.times.Places.{IsAt, last_at};

use crate::times::duration_stats::DurationStats;
use std::alloc::{AllocError, Global};

/// How many counts there are: one for each duration below 16 ns, and 16 for each power of two from
/// there on.
const COUNTS: usize = 976;

/// How many counts a power of two has.
const PARTS: u64 = 16;

/// How many binary digits say which of these parts it is.
const PART_DIGITS: u32 = 4;

/// Durations in nanoseconds, counted by their size: of each its first five binary digits are kept,
/// so that a bound of a share of them is at most one sixteenth too large. The longest one is exact.
#[derive(Drop)]
pub struct Durations {
    counts: Vec<u64>,
    count: u64,
    total: u64,
    longest: u64,
}

/// The place of a duration among the counts.
pub(crate) fn place_of(duration: u64) -> usize
    ensures within { result < 976 }
    ensures at { IsAt duration result }
{
    if duration < PARTS {
        return duration as usize;
    }
    let power = 63 - duration.leading_zeros().min(63);
    let shift = power.saturating_sub(PART_DIGITS);
    let part = (duration >> shift) % PARTS;
    (u64::from(shift + 1) * PARTS + part) as usize
}

/// The longest duration that has this place among the counts.
pub(crate) fn longest_at(place: usize) -> u64
    ensures { place < 976 → result ≡ last_at place }
{
    let place = place as u64;
    if place < PARTS {
        return place;
    }
    let shift = (place / PARTS - 1).min(59);
    let step = 1u64 << shift;
    (PARTS + place % PARTS)
        .saturating_mul(step)
        .saturating_add(step - 1)
}

impl Durations {
    /// No duration yet. Its memory, some 8 KB, is asked for here and never again.
    pub(crate) fn new(alloc: Global) -> Result<Durations, AllocError>
        ensures { IfOk result (AreCounted []) }
    {
        Ok(Durations {
            counts: vec![in alloc; 0u64; COUNTS]?,
            count: 0,
            total: 0,
            longest: 0,
        })
    }

    /// Counts a duration.
    #[inline(always)]
    pub(crate) fn add(&mut self, duration: u64)
        ensures { (durations : List ℕ) → AreCounted durations self.old
            → AreCounted (duration ∷ durations) self.new }
    {
        if let Some(count) = self.counts.get_mut(place_of(duration)) {
            *count = count.saturating_add(1);
        }
        self.count = self.count.saturating_add(1);
        self.total = self.total.saturating_add(duration);
        self.longest = self.longest.max(duration);
    }

    /// Returns how many durations there are.
    pub fn count(&self) -> u64
        ensures { (durations : List ℕ) → AreCounted durations self.now
            → result ≡ capped (length durations) }
    {
        self.count
    }

    /// Returns the mean of the durations, rounded down, 0 where there is none.
    pub fn mean(&self) -> u64
        ensures { (durations : List ℕ) → AreCounted durations self.now
            → result ≡ mean_of durations }
    {
        self.total / self.count.max(1)
    }

    /// Returns the longest duration, 0 where there is none.
    pub fn longest(&self) -> u64
        ensures { (durations : List ℕ) → AreCounted durations self.now
            → result ≡ longest_of durations }
    {
        self.longest
    }

    /// Returns a bound of the shortest `share` of a thousand of the durations, which is one of
    /// them, or at most one sixteenth longer: with 500 the median.
    pub fn bound_of(&self, share: u64) -> u64
        ensures { (durations : List ℕ) → AreCounted durations self.now → length durations < 2 ^ 64
            → share ≤ 1000 → IsShareBound share durations result }
    {
        let wanted = (u128::from(self.count) * u128::from(share)).div_ceil(1000);
        let mut seen: u128 = 0;
        for place in 0..self.counts.len() {
            seen = seen.saturating_add(u128::from(self.counts[place]));
            if seen >= wanted {
                return longest_at(place).min(self.longest);
            }
        }
        self.longest()
    }

    /// Returns the figures.
    pub(crate) fn stats(&self) -> DurationStats
        ensures { (durations : List ℕ) → AreCounted durations self.now
            → AreDurationStats durations result }
    {
        DurationStats {
            count: self.count(),
            mean: self.mean(),
            p50: self.bound_of(500),
            p90: self.bound_of(900),
            p99: self.bound_of(990),
            p999: self.bound_of(999),
            max: self.longest(),
        }
    }

    /// Forgets all durations.
    pub(crate) fn clear(&mut self)
        ensures { (durations : List ℕ) → AreCounted durations self.old → AreCounted [] self.new }
    {
        self.counts.as_mut_slice().fill(0);
        self.count = 0;
        self.total = 0;
        self.longest = 0;
    }
}
