//! How many items of each venue were journaled.

ghost use Rattle.std.specs.Prelude.{◌≡◌, ◌<◌, ℕ, [], ◌∷◌, ◌++◌, length};
ghost use Rattle.journal_book.specs.ItemsIn.{items_in};
ghost use Rattle.journal_book.specs.ItemCounting.{items_counted, item_count};

use feed_types::{Entry, MAX_VENUES, Past, VenueId};
use std::marker::Model;

/// The number of items of each venue in the entries that were counted. Contracts see those entries.
#[derive(Drop)]
pub(crate) struct ItemCounts {
    counts: [u32; MAX_VENUES],
    past: Past<Entry>,
}

impl Model for ItemCounts {
    ghost use Rattle.std.specs.Prelude.{List};
    ghost use Rattle.feed_types.specs.declared.journal.Entry.{Entry};
    ghost use Rattle.journal_book.specs.ItemCounting.{AreCounts};

    ghost Value = { List Entry };

    ghost view = { λ c. c.past.items };

    ghost invariant = { λ c. AreCounts c.counts c.past.items };
}

/// Adds one for the venue of the item that the entry consumes, if it does.
#[inline(always)]
fn count_entry(counts: &mut [u32; MAX_VENUES], entry: &Entry)
    requires { (venue : ℕ) → item_count counts.old venue < 4294967295 }
    ensures { counts.new ≡ items_counted entry.now counts.old }
{
    if let Entry::Consumed { venue, .. } = entry {
        counts[venue.index()] += 1;
    }
}

impl ItemCounts {
    /// Returns the counts of no entry.
    pub(crate) fn none() -> ItemCounts
        ensures { result ≡ [] }
    {
        ItemCounts {
            counts: [0; MAX_VENUES],
            past: Past::new(),
        }
    }

    /// Counts one more entry.
    #[inline(always)]
    pub(crate) fn count(&mut self, entry: &Entry)
        requires { length self.old < 4294967295 }
        ensures { self.new ≡ self.old ++ entry.now ∷ [] }
    {
        count_entry(&mut self.counts, entry);
        self.past = self.past.with(entry);
    }

    /// Returns how many items of the venue there are.
    pub(crate) fn of(&self, venue: VenueId) -> u32
        ensures { result ≡ length (items_in self.now venue) }
    {
        self.counts[venue.index()]
    }
}
