//! The origin of packets.

use capture_writing::CaptureTime;
use feed_types::{SessionName, VenueId};

/// The venue and the session of packets, and the time of what made them ready.
#[derive(Clone, Copy, Debug)]
pub struct PacketOrigin {
    pub venue: VenueId,
    /// Ten bytes, filled on the right with spaces.
    pub session: SessionName,
    pub time: CaptureTime,
}
