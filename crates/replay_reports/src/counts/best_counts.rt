//! The counts of the changes of national bests.
ghost use Rattle.std.specs.Prelude.{◌≡◌, ◌+◌, ℕ, ◌∷◌, [], List, if◌then◌else◌};
ghost use Rattle.event_sinks.specs.SinkEvents.{SinkEvent, told_best};
ghost use Rattle.journal_book.specs.Changes.{notice_of};
ghost use Rattle.report_rows.specs.EventFigures.{is_best_of};
ghost use Rattle.replay_reports.specs.counts.Counts.{best_counts, each_place, state_counts};
ghost use Rattle.replay_reports.specs.times.Figures.{capped};

use feed_types::{Best, NationalState};
use nbbo_book::Change;

/// How often a national best changed to each state.
#[derive(Clone, Copy, Debug, Default, PartialEq, Eq)]
pub struct StateCounts {
    pub empty: u64,
    pub one_sided: u64,
    pub normal: u64,
    pub locked: u64,
    pub crossed: u64,
}

impl StateCounts {
    /// Counts a change.
    #[inline(always)]
    fn add(&mut self, number: u64, change: &Change)
        ensures { (before : List SinkEvent) → self.old ≡ state_counts before
            → self.new ≡ state_counts (told_best (notice_of number change.now) ∷ before) }
    {
        match change.national.state() {
            NationalState::Empty => self.empty = self.empty.saturating_add(1),
            NationalState::OneSided => self.one_sided = self.one_sided.saturating_add(1),
            NationalState::Normal => self.normal = self.normal.saturating_add(1),
            NationalState::Locked => self.locked = self.locked.saturating_add(1),
            NationalState::Crossed => self.crossed = self.crossed.saturating_add(1),
        }
    }
}

/// Counts, at the venue of a side's best, that it leads the side.
#[inline(always)]
fn count_best(counts: &mut [u64; 16], best: Option<Best>)
    ensures { (f : ℕ → ℕ) → counts.old ≡ each_place 16 0 (λ venue. capped (f venue))
        → counts.new ≡ each_place 16 0
        (λ venue. capped (f venue + (if is_best_of venue best then 1 else 0))) }
{
    match best {
        Some(best) => {
            let place = best.venue.index();
            counts[place] = counts[place].saturating_add(1);
        }
        None => {}
    }
}

/// The changes of national bests, counted.
#[derive(Clone, Copy, Debug, PartialEq, Eq)]
pub struct BestCounts {
    /// By the state after.
    pub states: StateCounts,
    /// At each venue's place those after which the best bid is its own.
    pub bids: [u64; 16],
    /// The same of the best offer.
    pub offers: [u64; 16],
}

impl BestCounts {
    /// Counts of nothing.
    #[tactic(auto, unfolding(crate::specs::counts::Counts::each_place))]
    pub(crate) fn none() -> BestCounts
        ensures { result ≡ best_counts [] }
    {
        BestCounts {
            states: StateCounts::default(),
            bids: [0; 16],
            offers: [0; 16],
        }
    }

    /// Counts a change.
    #[inline(always)]
    pub(crate) fn add(&mut self, number: u64, change: &Change)
        ensures { (before : List SinkEvent) → self.old ≡ best_counts before
            → self.new ≡ best_counts (told_best (notice_of number change.now) ∷ before) }
    {
        self.states.add(number, change);
        count_best(&mut self.bids, change.national.bid);
        count_best(&mut self.offers, change.national.offer);
    }
}
