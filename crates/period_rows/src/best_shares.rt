//! The figures of a row of national bests.
ghost use Rattle.std.specs.Prelude.{◌≡◌, ◌<◌, slice_index_or};
ghost use Rattle.period_rows.specs.BestRows.{are_zero, mean_by, share_of};
ghost use Rattle.period_rows.specs.BestTimes.{figures_shares};

use crate::best_figures::{BestFigures, MOST_SPREAD};
use run_settings::PeriodLength;

/// A billion: the shares of which rows speak.
const WHOLE: u128 = 1_000_000_000;

/// A venue's part in a symbol's national bests in a period. Shares are of the period's time, in
/// billionths.
#[derive(Clone, Copy, Debug, PartialEq, Eq)]
pub struct BestShares {
    /// In which the best bid is the venue's.
    pub bid: u64,
    /// In which the best offer is the venue's.
    pub offer: u64,
    /// In which the symbol's bid is below its offer.
    pub normal: u64,
    pub locked: u64,
    pub crossed: u64,
    /// The mean spread meanwhile, in billionths of a dollar, where the bid was below the offer.
    pub spread: Option<u64>,
}

/// Returns the share of a period's time, in billionths.
fn share_of(length: PeriodLength, time: u64) -> u64
    ensures { result ≡ share_of length time }
{
    let share = u128::from(time) * WHOLE / u128::from(length.nanoseconds());
    share.min(WHOLE) as u64
}

/// Returns the mean of spreads over a time, in billionths of a dollar.
fn mean_by(spread: u128, time: u64) -> Option<u64>
    ensures { result ≡ mean_by spread time }
{
    if time == 0 {
        return None;
    }
    let mean = spread.min(MOST_SPREAD) * 100_000 / u128::from(time);
    Some(mean.min(u128::from(u64::MAX)) as u64)
}

/// Returns the figure of a venue, 0 where there is none.
fn figure_at(figures: &[u64], venue: usize) -> u64
    ensures { result ≡ slice_index_or figures.now venue 0 }
{
    if venue < figures.len() {
        return figures[venue];
    }
    0
}

impl BestShares {
    /// The figures of a venue in a period of this length.
    pub(crate) fn of(length: PeriodLength, venue: usize, figures: &BestFigures) -> BestShares
        ensures { result ≡ figures_shares length venue figures.now }
    {
        BestShares {
            bid: share_of(length, figure_at(&figures.bids, venue)),
            offer: share_of(length, figure_at(&figures.offers, venue)),
            normal: share_of(length, figures.normal),
            locked: share_of(length, figures.locked),
            crossed: share_of(length, figures.crossed),
            spread: mean_by(figures.spread, figures.normal),
        }
    }

    /// Returns whether no best stood.
    pub(crate) fn are_zero(&self) -> bool
        ensures { result ≡ are_zero self.now }
    {
        let states = self.normal.max(self.locked.max(self.crossed));
        self.bid.max(self.offer).max(states) == 0
    }
}
