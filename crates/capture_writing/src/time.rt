//! The time of a frame.
ghost use Rattle.std.specs.Prelude.{◌≡◌, ◌*◌, ◌/◌, ◌%◌, ◌^◌, ◌<◌};
ghost use Rattle.std.specs.Option.{SomeIff};

use std::marker::Model;

/// How many nanoseconds a second has.
const SECOND: u64 = 1_000_000_000;

/// The first time that a savefile can't say: 2^32 seconds from 1970 on, in 2106.
const PAST: u64 = 4_294_967_296_000_000_000;

/// A time that a savefile can say, in nanoseconds from 1970 on.
#[derive(Clone, Copy, Debug, PartialEq, Eq, PartialOrd, Ord)]
pub struct CaptureTime {
    nanoseconds: u64,
}

impl Model for CaptureTime {
    ghost use Rattle.std.specs.Prelude.{ℕ, ◌*◌, ◌^◌, ◌<◌};

    ghost Value = { ℕ };

    ghost view = { λ t. t.nanoseconds };

    ghost invariant = { λ t. t.nanoseconds < 2 ^ 32 * 1000000000 };

    ghost inverse = { λ n. record { nanoseconds = n } };
}

impl CaptureTime {
    /// Returns the time that is `nanoseconds` from 1970 on, or `None` from 2^32 seconds on.
    pub fn new(nanoseconds: u64) -> Option<CaptureTime>
        ensures { SomeIff result (nanoseconds < 2 ^ 32 * 1000000000) nanoseconds }
    {
        if nanoseconds < PAST {
            Some(CaptureTime { nanoseconds })
        } else {
            None
        }
    }

    /// Returns its second, from 1970 on.
    pub(crate) fn seconds(self) -> u32
        ensures { result ≡ self / 1000000000 }
    {
        (self.nanoseconds / SECOND) as u32
    }

    /// Returns its nanoseconds past the second.
    pub(crate) fn parts(self) -> u32
        ensures { result ≡ self % 1000000000 }
    {
        (self.nanoseconds % SECOND) as u32
    }
}
