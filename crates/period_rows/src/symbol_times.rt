//! How long the national bests of a symbol stood in the period at hand.
ghost use Rattle.std.specs.Prelude.{◌≡◌};
ghost use Rattle.period_rows.specs.BestHolding.{IsBestSettled, IsChanged, IsNewSymbol, IsRestarted};
ghost use Rattle.period_rows.specs.Bests.{no_best};

use crate::best_figures::BestFigures;
use feed_types::{National, SymbolName};

/// How long the national bests of a symbol stood in the period at hand. The one that stands counts
/// once it no longer does.
#[derive(Clone, Copy, Debug, PartialEq, Eq)]
pub struct SymbolTimes {
    pub symbol: SymbolName,
    /// The national best that stands.
    pub best: National,
    /// Since when it stands in the period at hand.
    pub since: u64,
    pub figures: BestFigures,
}

impl SymbolTimes {
    /// Of a symbol of which nothing came, with a national best that has no side, from a time on.
    pub(crate) fn new(symbol: SymbolName, best: &National, since: u64) -> SymbolTimes
        ensures { best.now ≡ no_best → IsNewSymbol since symbol result }
    {
        SymbolTimes {
            symbol,
            best: *best,
            since,
            figures: BestFigures::new(),
        }
    }

    /// Counts the national best that stands up to a time.
    pub(crate) fn settle(&mut self, to: u64)
        ensures { IsBestSettled to self.old self.new }
    {
        let took = to.saturating_sub(self.since);
        let best = self.best;
        self.figures.add(&best, took);
        self.since = to;
    }

    /// Begins the next period at a time.
    pub(crate) fn restart(&mut self, from: u64)
        ensures { IsRestarted from self.old self.new }
    {
        self.figures = BestFigures::new();
        self.since = from;
    }

    /// Takes the national best that stands from a time on.
    pub(crate) fn change(&mut self, at: u64, best: &National)
        ensures { IsChanged at best.now self.old self.new }
    {
        self.settle(at);
        self.best = *best;
    }
}
