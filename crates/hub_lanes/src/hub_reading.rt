//! What is read of the consolidator's journal while the feed runs.

ghost use Rattle.std.specs.Prelude.{◌≡◌, ◌↔◌, IsSome, IfSome, IsTrue};
ghost use Rattle.nbbo_book.specs.Books.{is_configured};
ghost use Rattle.nbbo_book.specs.Nationals.{national_of};

use crate::journal_and_lanes::ConsolidatorState;
use feed_steps::FeedName;
use feed_types::{Genuine, National, SymbolName};

/// Returns the national best of the symbol after all entries of the journal; None exactly where the
/// symbol isn't configured.
pub fn national_in<G: Genuine, N: FeedName>(
    core: &ConsolidatorState<G, N>,
    symbol: &SymbolName,
) -> Option<National>
    ensures configured { IsSome result ↔ IsTrue (is_configured N.lanes.setting.symbols symbol.now) }
    ensures value { IfSome result
        (λ national. national ≡ national_of core.now.journal.entries symbol.now) }
{
    core.show_lock_invariant();
    core.journal().national(symbol)
}
