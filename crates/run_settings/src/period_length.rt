//! The lengths of periods.
ghost use Rattle.std.specs.Prelude.{◌≡◌, ◌*◌, ◌≤◌, SomeIff};

use std::marker::Model;

/// The nanoseconds of a millisecond.
const MILLISECOND: u64 = 1_000_000;

/// The milliseconds of an hour, the longest period.
const MOST_MILLISECONDS: u64 = 3_600_000;

/// The length of a period of the clock: whole milliseconds, from one of them to an hour.
#[derive(Clone, Copy, Debug, PartialEq, Eq)]
pub struct PeriodLength {
    nanoseconds: u64,
}

impl Model for PeriodLength {
    ghost use Rattle.std.specs.Prelude.{ℕ, ◌<◌};

    ghost Value = { ℕ };

    ghost view = { λ p. p.nanoseconds };

    ghost invariant = { λ p. 0 < p.nanoseconds };

    ghost inverse = { λ n. record { nanoseconds = n } };
}

impl PeriodLength {
    /// The length of this many milliseconds, `None` where it is none or longer than an hour.
    pub fn of_milliseconds(milliseconds: u64) -> Option<PeriodLength>
        ensures { SomeIff result ((1 ≤ milliseconds) × (milliseconds ≤ 3600000))
            (milliseconds * 1000000) }
    {
        if milliseconds == 0 || milliseconds > MOST_MILLISECONDS {
            return None;
        }
        Some(PeriodLength {
            nanoseconds: milliseconds * MILLISECOND,
        })
    }

    /// The length in nanoseconds.
    pub fn nanoseconds(self) -> u64
        ensures value { result ≡ self }
        ensures some { 1 ≤ result }
    {
        self.nanoseconds
    }
}
