//! The rules by which the lines of a run go on.

/// The rules by which the lines of a run go on.
#[derive(Clone, Copy, Debug, Default, PartialEq, Eq)]
pub struct RunRules {
    /// How many milliseconds a gap waits before it is asked for: the other line may close it. A gap
    /// that has to wait is also asked for where nothing comes any more. At 0 it is asked for at
    /// once, when a datagram shows it.
    pub request_after_ms: u64,
    /// Whether a session of a venue is joined at its first packet: where that begins past the first
    /// message, the messages before it are given up.
    pub join: bool,
}
