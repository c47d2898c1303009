//! The rules by which the lines of venues in ITCH go on.

/// The rules by which the lines of venues in ITCH go on.
#[derive(Clone, Copy, Debug, PartialEq, Eq)]
pub struct ItchRules {
    /// For how many milliseconds a gap stands before its messages are asked for. With 0 a request
    /// leaves with a datagram of the venue alone.
    pub request_after_ms: u64,
    /// After how many milliseconds a gap is given up that stands so long, if after any number.
    pub skip_after_ms: Option<u64>,
    /// For how many milliseconds after the session's end, or after something came of what is
    /// missing, a reply is awaited. With 0 none is.
    pub reply_wait_ms: u64,
}
