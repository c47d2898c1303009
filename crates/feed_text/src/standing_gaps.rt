//! The gaps of a replay's venues that stand, and since when.
ghost use Rattle.std.specs.Prelude.{◌≡◌, ℕ, List};
ghost use Rattle.line_arbiter.specs.Histories.{History};
ghost use Rattle.feed_text.specs.Following.{FollowAll};
ghost use Rattle.feed_text.specs.Standings.{IsStandingKept, KeepsNone, standing_noted};

use crate::standing_gap::{StandingGap, stands_then};
use crate::venues::ReplayVenues;
use feed_types::VenueId;

/// The most venues.
const MOST_VENUES: usize = 16;

/// The gaps that stood before a record was taken, and that record's venue and time. What stands
/// after it is noted when the next one is about to be taken, so that without a rule nothing is done
/// for a record.
#[derive(Clone, Copy, Debug, PartialEq, Eq)]
pub struct StandingGaps {
    pub(crate) gaps: [Option<StandingGap>; MOST_VENUES],
    pub(crate) venue: VenueId,
    pub(crate) time: Option<u64>,
}

impl StandingGaps {
    /// No gap stands.
    pub fn new() -> StandingGaps
        ensures { KeepsNone result }
    {
        StandingGaps {
            gaps: [None; MOST_VENUES],
            venue: VenueId::at(0),
            time: None,
        }
    }

    /// Notes which gap of its venue stands after the record that was taken last.
    pub fn note(&mut self, venues: &ReplayVenues)
        ensures { (window : ℕ) (hs : List History) → FollowAll window venues.now.items hs
            → IsStandingKept self.new (standing_noted window self.old hs) }
    {
        let Some(time) = self.time else {
            return;
        };
        let place = self.venue.index();
        self.gaps[place] = stands_then(self.gaps[place], time, venues.gap(self.venue));
    }

    /// A record of this venue, with this time, is about to be taken.
    pub fn wait_for(&mut self, venue: VenueId, time: Option<u64>)
        ensures { self.new ≡ record (self.old) { venue = venue; time = time } }
    {
        self.venue = venue;
        self.time = time;
    }
}
