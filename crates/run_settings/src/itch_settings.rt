//! Which venues send ITCH, and how that is read.

ghost use Rattle.std.specs.Prelude.{◌↔◌, Contains, IsTrue};

use crate::end_number_rule::EndNumberRule;
use feed_types::VenueId;

/// Which venues of a feed send TotalView-ITCH 5.0 in place of this project's own messages, and how
/// that is read.
#[derive(Debug, Drop)]
pub struct ItchSettings {
    /// The venues, in their order; none where each sends own messages.
    pub venues: Vec<VenueId>,
    /// How many live orders each of them may have.
    pub orders: u32,
    /// Which number an end of session has on their lines.
    pub end_number: EndNumberRule,
}

impl ItchSettings {
    /// Returns whether this venue is one of them.
    pub fn has(&self, venue: VenueId) -> bool
        ensures { IsTrue result ↔ Contains self.now.venues.items venue }
    {
        self.venues.contains(&venue)
    }
}
