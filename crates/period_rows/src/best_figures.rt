//! How long national bests stood, by what they are.
ghost use Rattle.std.specs.Prelude.{◌≡◌, ◌+◌, ◌*◌, ℕ, length, min, slice_index_or};
ghost use Rattle.feed_types.specs.FullCounts.{count_after};
ghost use Rattle.period_rows.specs.BestHolding.{AddsStanding, AreNone};
ghost use Rattle.period_rows.specs.BestRows.{most_spread};
ghost use Rattle.report_rows.specs.EventFigures.{is_best_of};
ghost use Rattle.period_rows.specs.Bests.{one_if, spread_of};

use crate::line_figures::raised;
use feed_types::{Best, National, NationalState};

/// The most that a sum of spreads is said to be: none comes to it.
pub(crate) const MOST_SPREAD: u128 = 1_000_000_000_000_000_000_000_000_000_000_000;

/// For how many nanoseconds the national bests of a symbol stood, by what they are.
#[derive(Clone, Copy, Debug, PartialEq, Eq)]
pub struct BestFigures {
    /// Those whose bid is below the offer.
    pub normal: u64,
    pub locked: u64,
    pub crossed: u64,
    /// By how much the offer is above the bid, in ten-thousandths of a dollar, times how long.
    pub spread: u128,
    /// Those whose bid is of this venue.
    pub bids: [u64; 16],
    /// Those whose offer is of this venue.
    pub offers: [u64; 16],
}

/// Adds how long a side stood to its venue's figure.
fn lead(times: &mut [u64], side: Option<Best>, took: u64)
    requires { length times.old ≡ 16 }
    ensures { (venue : ℕ) → slice_index_or times.new venue 0
        ≡ count_after (slice_index_or times.old venue 0) (one_if (is_best_of venue side) * took) }
{
    match side {
        Some(best) => {
            let place = best.venue.index();
            times[place] = raised(times[place], took);
        }
        None => {}
    }
}

/// By how much the offer is above the bid.
fn spread_of(best: &National) -> u32
    ensures { result ≡ spread_of best.now }
{
    match (best.bid, best.offer) {
        (Some(bid), Some(offer)) => offer.price.saturating_sub(bid.price),
        _ => 0,
    }
}

/// A sum of spreads after one more that stood so long.
fn spread_after(sum: u128, spread: u32, took: u64) -> u128
    ensures { result ≡ min (sum + spread * took) most_spread }
{
    let more = u128::from(spread) * u128::from(took);
    sum.saturating_add(more).min(MOST_SPREAD)
}

impl BestFigures {
    /// Of no time.
    pub(crate) fn new() -> BestFigures
        ensures { AreNone result }
    {
        BestFigures {
            normal: 0,
            locked: 0,
            crossed: 0,
            spread: 0,
            bids: [0; 16],
            offers: [0; 16],
        }
    }

    /// Adds that a national best stood so long.
    pub(crate) fn add(&mut self, best: &National, took: u64)
        ensures { AddsStanding best.now took self.old self.new }
    {
        match best.state() {
            NationalState::Normal => self.normal = raised(self.normal, took),
            NationalState::Locked => self.locked = raised(self.locked, took),
            NationalState::Crossed => self.crossed = raised(self.crossed, took),
            NationalState::Empty | NationalState::OneSided => {}
        }
        self.spread = spread_after(self.spread, spread_of(best), took);
        lead(&mut self.bids, best.bid, took);
        lead(&mut self.offers, best.offer, took);
    }
}
