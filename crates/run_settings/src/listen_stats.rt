//! The counts that a run that listens prints while it goes on.

use crate::formats::StatsFormat;

/// When counts are printed, and in which form.
#[derive(Clone, Copy, Debug, PartialEq, Eq)]
pub struct ListenStats {
    /// Every how many seconds.
    pub seconds: u32,
    pub format: StatsFormat,
}
