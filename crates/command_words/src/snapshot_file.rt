//! The file of a snapshot of a venue's live orders.

use feed_types::VenueId;

/// The file of a snapshot of a venue's live orders.
#[derive(Debug, Drop)]
pub struct SnapshotFile {
    pub venue: VenueId,
    /// The file's name, not empty.
    pub name: String,
}
