//! What is missing of a venue at the end.
ghost use Rattle.std.specs.Prelude.{◌≡◌};

use feed_types::{MissingRange, VenueId};
use mold_packet::Request;

/// The first gap of a venue, as far as the window and what is known of the session go.
#[derive(Clone, Copy, Debug, PartialEq, Eq)]
pub struct VenueGap {
    /// The venue.
    pub venue: VenueId,
    /// Its messages that are missing in a row.
    pub messages: MissingRange,
}

impl VenueGap {
    /// Returns the gap of the venue, by the request that it would make.
    pub fn of(venue: VenueId, gap: &Request) -> VenueGap
        ensures { result ≡ record {
          venue = venue;
          messages = record { first = gap.now.number; count = gap.now.count };
        } }
    {
        VenueGap {
            venue,
            messages: MissingRange {
                first: gap.number,
                count: gap.count as u64,
            },
        }
    }
}
