//! The figures of durations.

/// Figures of durations in nanoseconds.
#[derive(Clone, Copy, Debug, Default, PartialEq, Eq)]
pub struct DurationStats {
    pub count: u64,
    /// The mean, rounded down.
    pub mean: u64,
    /// A bound of the shortest half: one of them, or at most one sixteenth longer.
    pub p50: u64,
    /// The same of the shortest 90 of a hundred.
    pub p90: u64,
    /// The same of the shortest 99 of a hundred.
    pub p99: u64,
    /// The same of the shortest 999 of a thousand.
    pub p999: u64,
    /// The longest.
    pub max: u64,
}
