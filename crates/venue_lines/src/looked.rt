//! What a line sees of its venue.

use feed_types::SessionName;

/// What a line sees of its venue once a datagram was taken, at that moment.
#[derive(Clone, Copy, Debug, Default, PartialEq, Eq)]
pub struct Looked {
    /// Whether messages are missing: the session is known to go past the first gap.
    pub gap: bool,
    /// The datagram's place among the datagrams and skips of the venue, in the order in which its
    /// lock took them, from 1. Each has one, refused datagrams too, but for a refused skip. 0 where
    /// there is no such venue.
    pub place: u64,
    /// The name of the venue's next session, where that has begun at the datagram.
    pub begun: Option<SessionName>,
}
