//! What is read of a venue while the feed runs.

ghost use Rattle.std.specs.Prelude.{◌≡◌, ◌≤◌, length, IfOk, Err};
ghost use Rattle.feed_types.specs.declared.line.LineId.{LineId};
ghost use Rattle.feed_types.specs.PerLines.{on_line};
ghost use Rattle.venue_lines.specs.Statuses.{IsPossibleStatus, ShowsBrought, status_on};

use crate::faults::FeedFault;
use crate::locked_venue::LockedVenue;
use crate::locks::{VenueLocks, lock_spinning};
use crate::status::VenueStatus;
use feed_steps::FeedName;
use feed_types::{Genuine, VenueId};
use std::sync::Wait;

/// The status of this venue, whose cell it is; UnknownVenue where it is another's.
fn status_in<G: Genuine, N: FeedName>(
    locked: &LockedVenue<G, N>,
    venue: VenueId,
) -> Result<VenueStatus, FeedFault>
    ensures status { IsPossibleStatus G.Genuine N.lanes venue result }
    ensures requests { IfOk result (λ status. status.requests ≡ locked.now.requests) }
    ensures before_join { IfOk result (λ status. status.before_join ≡ locked.now.before_join) }
    ensures counts { IfOk result (λ status. (line : LineId)
        → ShowsBrought (on_line line locked.now.cell.brought) (status_on line status)) }
{
    locked.cell.show_lock_invariant();
    if locked.cell.venue() != venue {
        return Err(FeedFault::UnknownVenue);
    }
    Ok(VenueStatus::of(locked))
}

impl<G: Genuine, N: FeedName> VenueLocks<G, N> {
    /// Returns what the venue has come to at a moment of the call, all read under its lock taken
    /// once; UnknownVenue where there is no such venue.
    pub fn status<W: Wait>(&self, rt: &W, venue: VenueId) -> Result<VenueStatus, FeedFault>
        ensures status { IsPossibleStatus G.Genuine N.lanes venue result }
        ensures unknown { length N.lanes.venues ≤ venue → result ≡ Err FeedFault.UnknownVenue }
    {
        let Some(lock) = self.get(venue) else {
            return Err(FeedFault::UnknownVenue);
        };
        status_in(&lock_spinning(rt, lock), venue)
    }
}
