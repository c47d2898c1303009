//! What a venue in ITCH has come to.
ghost use Rattle.std.specs.Prelude.{◌≡◌};
ghost use Rattle.itch_lines.specs.Ends.{given_up_messages};

use feed_types::{MissingRange, VenueId};
use itch_book::BookFault;
use mold_packet::Request;

/// A gap that was given up first of a session.
#[derive(Clone, Copy, Debug, PartialEq, Eq)]
pub struct GivenUp {
    /// Which of the venue's sessions it is, counted from 1.
    pub ordinal: u64,
    /// The messages that are missing.
    pub messages: MissingRange,
}

/// Returns the messages of a gap that was given up, if one was.
pub fn given_up_messages(given_up: Option<GivenUp>) -> Option<MissingRange>
    ensures { result ≡ given_up_messages given_up }
{
    match given_up {
        Some(given_up) => Some(given_up.messages),
        None => None,
    }
}

/// What a venue in ITCH has come to.
#[derive(Clone, Copy, Debug, PartialEq, Eq)]
pub struct ItchVenueEnd {
    pub venue: VenueId,
    /// The first gap of a session that was given up last, which ended what is put out of it.
    pub given_up: Option<MissingRange>,
    /// The gap that stands, if one does: the run that is asked for.
    pub missing: Option<Request>,
    /// Why its normaliser has failed, if it has.
    pub fault: Option<BookFault>,
}
