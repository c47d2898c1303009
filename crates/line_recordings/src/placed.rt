//! What a venue took, at its place.

use feed_types::SessionName;

/// A datagram that a venue took, or a skip, and its place among those of the venue.
#[derive(Drop)]
pub struct Placed {
    /// Its place in the order in which the venue's lock took them, from 1.
    pub place: u64,
    /// The name of the venue's next session, where that has begun at it.
    pub begun: Option<SessionName>,
    /// The bytes of its record: those of the datagram, or the eight of the number of a skip.
    pub bytes: Vec<u8>,
}
