//! A moment of a run.

use std::time::Duration;

/// A moment of a run.
#[derive(Clone, Copy, Debug)]
pub struct Moment {
    /// How many milliseconds after the beginning of the run it is.
    pub elapsed_ms: u64,
    /// The time from 1970 on in UTC, if the system has it.
    pub since_1970: Option<Duration>,
}

impl Moment {
    /// How many whole seconds after the beginning of the run it is.
    pub fn second(&self) -> u64 {
        self.elapsed_ms / 1_000
    }
}
