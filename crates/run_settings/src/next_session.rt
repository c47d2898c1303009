//! A session that follows a venue's session.

use feed_types::{SessionName, VenueId};

/// A session that follows a venue's session. The order of a list is the order in which the sessions
/// of each venue follow one another.
#[derive(Clone, Copy, Debug, PartialEq, Eq)]
pub struct NextSession {
    pub venue: VenueId,
    /// Ten bytes, filled on the right with spaces.
    pub name: SessionName,
}
