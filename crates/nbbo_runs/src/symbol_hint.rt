//! That a run without symbols prints none of the rows that it was asked for.
ghost use Rattle.std.specs.Prelude.{◌≡◌};
ghost use Rattle.nbbo_runs.specs.SymbolHints.{bests_hint, symbol_hint};

use feed_types::SymbolName;
use run_settings::{RunOutput, RunSettings};

/// The lines for best lines of no symbol, and for rows of how long bests of none stood.
const NO_SYMBOL: &str = "nbbo: --best-only without a symbol prints no best: name one at least\n";

const NO_SYMBOL_IN_PERIODS: &str =
    "nbbo: --bests without a symbol prints no best: name one at least\n";

/// Returns the line for an output of these symbols; empty where it has something to print.
fn bests_hint(output: RunOutput, symbols: &[SymbolName]) -> &'static str
    ensures { result.now ≡ bests_hint output symbols.now }
{
    match output {
        RunOutput::Bests(_) if symbols.is_empty() => NO_SYMBOL,
        RunOutput::BestTimes(_) if symbols.is_empty() => NO_SYMBOL_IN_PERIODS,
        _ => "",
    }
}

/// Returns the line for settings that ask for bests of no symbol; empty for others.
pub fn symbol_hint(settings: &RunSettings) -> &'static str
    ensures { result.now ≡ symbol_hint settings.now }
{
    bests_hint(settings.output, settings.feed.symbols.as_slice())
}
