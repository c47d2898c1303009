//! Where the skips of a run are handed over.
ghost use Rattle.std.specs.Prelude.{◌↔◌, IsSome, IsTrue};

use crate::record_sender::RecordSender;
use feed_types::VenueId;
use std::alloc::{AllocError, Global};
use std::cell::Cell;

/// Where who gives up gaps hands over the skips of each venue, for a recording, if there is one.
#[derive(Drop)]
pub struct SkipRecords {
    venues: Vec<Cell<Option<RecordSender>>>,
}

impl SkipRecords {
    /// Those of a run without a recording.
    pub fn none(alloc: Global) -> SkipRecords {
        SkipRecords {
            venues: Vec::new(alloc),
        }
    }

    /// Adds the sender of the skips of the next venue.
    pub fn push(&mut self, sender: RecordSender) -> Result<(), AllocError> {
        self.venues.push(Cell::new(Some(sender)))?;
        Ok(())
    }

    /// Hands over that the venue has gone on from the message of this number, where it has, at this
    /// place. Returns whether it has.
    pub fn took(&self, venue: VenueId, place: Option<u64>, number: u64) -> bool
        ensures { IsTrue result ↔ IsSome place }
    {
        let Some(place) = place else {
            return false;
        };
        if let Some(cell) = self.venues.get(venue.index()) {
            if let Some(mut sender) = cell.take() {
                sender.record(place, None, &number.to_be_bytes());
                cell.set(Some(sender));
            }
        }
        true
    }
}
