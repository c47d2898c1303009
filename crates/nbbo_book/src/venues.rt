//! The venues of a book.

ghost use Rattle.std.specs.Prelude.{◌≡◌};
ghost use Rattle.nbbo_book.specs.Rows.{may_at, helped_after as flags_after};

use crate::book_side::Quoter;
use feed_types::{Entry, MAX_VENUES, VenueId};

/// The venues of a book: how many there are, and on which self-help is declared.
#[derive(Clone, Copy)]
pub struct VenueStates {
    pub count: usize,
    pub helped: [bool; MAX_VENUES],
}

impl VenueStates {
    /// Returns the venue, and whether it may be ranked in a symbol that these venues halt.
    #[inline(always)]
    pub fn quoter(&self, halted: &[bool; MAX_VENUES], venue: VenueId) -> Quoter
        ensures { result
            ≡ record { venue = venue; may_rank = may_at self.now.helped halted.now venue } }
    {
        Quoter {
            venue,
            may_rank: !self.helped[venue.index()] && !halted[venue.index()],
        }
    }

    /// Notes the venues on which self-help is declared after one more entry.
    #[inline(always)]
    pub fn take_self_help(&mut self, entry: &Entry)
        ensures helped { self.new.helped ≡ flags_after entry.now self.old.helped }
        ensures count { self.new.count ≡ self.old.count }
    {
        match entry {
            Entry::Consumed {
                venue: _,
                numbered: _,
            } => {}
            Entry::SelfHelp { venue, on } => {
                self.helped[venue.index()] = *on;
            }
        }
    }
}
