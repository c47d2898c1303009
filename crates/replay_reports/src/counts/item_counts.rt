//! The counts of a venue's items.
ghost use Rattle.std.specs.Prelude.{◌≡◌, ℕ, ◌∷◌, List};
ghost use Rattle.event_sinks.specs.SinkEvents.{SinkEvent, told_item};
ghost use Rattle.replay_reports.specs.counts.Counts.{item_counts};

use feed_types::{Item, Numbered};

/// The items of a venue that were taken.
#[derive(Clone, Copy, Debug, Default, PartialEq, Eq)]
pub struct ItemCounts {
    pub quotes: u64,
    pub halts: u64,
    pub resumptions: u64,
    pub others: u64,
    pub ends: u64,
    /// The number of the last item, 0 where there is none.
    pub last: u64,
}

impl ItemCounts {
    /// Counts an item.
    #[inline(always)]
    pub(crate) fn add(&mut self, numbered: &Numbered)
        ensures { (venue : ℕ) (before : List SinkEvent) → self.old ≡ item_counts before
            → self.new ≡ item_counts (told_item venue numbered.now ∷ before) }
    {
        self.last = numbered.number;
        match &numbered.item {
            Item::Quote(_) => self.quotes = self.quotes.saturating_add(1),
            Item::Halt { halted: true, .. } => self.halts = self.halts.saturating_add(1),
            Item::Halt { halted: false, .. } => {
                self.resumptions = self.resumptions.saturating_add(1);
            }
            Item::Other => self.others = self.others.saturating_add(1),
            Item::End => self.ends = self.ends.saturating_add(1),
            Item::Skipped => {}
        }
    }
}
