//! What is reported of a venue at the end.

use crate::packet_counts::PacketCounts;
use feed_types::{MissingRange, VenueId};
use itch_book::Oddities;

/// What is reported of a venue at the end.
#[derive(Clone, Copy, Debug, PartialEq, Eq)]
pub struct VenueReport {
    pub venue: VenueId,
    /// The gap that stands, if one does.
    pub missing: Option<MissingRange>,
    /// The messages of the session that changed no order, or took more than there was.
    pub oddities: Oddities,
    pub counts: PacketCounts,
}
