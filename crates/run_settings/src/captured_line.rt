//! A line whose datagrams a packet capture has.

use feed_types::{LineId, VenueId};
use packet_capture::Address;

/// A line of a venue, and where its datagrams go in a packet capture.
#[derive(Clone, Copy, Debug, PartialEq, Eq)]
pub struct CapturedLine {
    /// The address of one machine or of a group. One of zeros takes each destination with the port.
    pub address: Address,
    /// The port.
    pub port: u16,
    pub venue: VenueId,
    pub line: LineId,
}
