//! What is read of an open feed while it runs.

ghost use Rattle.std.specs.Prelude.{◌≡◌, ◌≤◌, ◌↔◌, length, IsSome, IsTrue, Err};
ghost use Rattle.nbbo_book.specs.Books.{is_configured};
ghost use Rattle.venue_lines.specs.Statuses.{IsPossibleStatus};

use crate::feed::open_feed::OpenFeed;
use feed_steps::FeedName;
use feed_types::{Genuine, National, SymbolName, VenueId};
use hub_lanes::national_in;
use std::sync::Wait;
use venue_lines::{FeedFault, VenueStatus};

impl<G: Genuine, N: FeedName> OpenFeed<G, N> {
    /// Returns the national best of the symbol after all entries that are journaled at a moment of
    /// the call; None exactly where the symbol isn't configured. Any thread may call it while the
    /// feed runs: it takes the consolidator's lock, for the time of one look.
    pub fn national<W: Wait>(&self, rt: &W, symbol: &SymbolName) -> Option<National>
        ensures configured { IsSome result
            ↔ IsTrue (is_configured N.lanes.setting.symbols symbol.now) }
    {
        national_in(&self.hub.lock(rt).core, symbol)
    }

    /// Returns what the venue has come to at a moment of the call, all read under its lock taken
    /// once; UnknownVenue where there is no such venue. Any thread may call it while the feed runs.
    pub fn status<W: Wait>(&self, rt: &W, venue: VenueId) -> Result<VenueStatus, FeedFault>
        ensures status { IsPossibleStatus G.Genuine N.lanes venue result }
        ensures unknown { length N.lanes.venues ≤ venue → result ≡ Err FeedFault.UnknownVenue }
    {
        self.venues.status(rt, venue)
    }
}
