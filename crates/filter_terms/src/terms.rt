//! The terms of a subscriber: which notices it wants.

ghost use Rattle.std.specs.Prelude.{◌≡◌, ◌==◌};
ghost use Rattle.std.specs.List.{list_any};
ghost use Rattle.std.specs.Str.{bytes_eq};
ghost use Rattle.filter_terms.specs.Terms.{has_size};

use feed_types::{Best, NationalState, Notice, SymbolName};
use std::alloc::AllocError;

/// The terms of a subscriber: which notices it wants.
#[derive(Drop)]
pub enum Terms {
    /// Every notice.
    All,
    /// Notices of this symbol.
    Symbol(SymbolName),
    /// Notices of one of these symbols; of no symbols, none.
    AnyOf(Vec<SymbolName>),
    /// Notices whose bid and offer are both there, each of at least this size, in shares.
    MinSize(u64),
    /// Notices after which the national best is in this state.
    StateIs(NationalState),
    /// Notices that meet the first terms and the second.
    Both(Box<Terms>, Box<Terms>),
}

/// Whether the side is there, of at least this size.
fn side_has_size(side: Option<Best>, size: u64) -> bool
    ensures { result ≡ has_size size side }
{
    match side {
        None => false,
        Some(best) => size <= best.size,
    }
}

fn is_among(symbols: &[SymbolName], wanted: &SymbolName) -> bool
    ensures { result ≡ list_any (λ symbol. bytes_eq symbol wanted.now) symbols.now }
{
    symbols.iter().any(|symbol| *symbol == *wanted)
}

impl Terms {
    ghost use Rattle.std.specs.Prelude.{◌≡◌};
    ghost use Rattle.filter_terms.specs.Terms.{meets};

    /// Whether the notice meets the terms.
    pub fn meets(&self, notice: &Notice) -> bool
        ensures { result ≡ meets self.now notice.now }
    {
        match self {
            Terms::All => true,
            Terms::Symbol(symbol) => *symbol == notice.symbol,
            Terms::AnyOf(symbols) => is_among(symbols, &notice.symbol),
            Terms::MinSize(size) => {
                side_has_size(notice.national.bid, *size)
                    && side_has_size(notice.national.offer, *size)
            }
            Terms::StateIs(state) => *state == notice.national.state(),
            Terms::Both(first, second) => first.meets(notice) && second.meets(notice),
        }
    }
}

/// Copies the terms with their lists and parts. It takes memory, so it can refuse.
impl Clone for Terms {
    ghost use Rattle.filter_terms.specs.Copies.{IsCopy};

    ghost is_clone = { IsCopy };

    fn clone(&self) -> Result<Terms, AllocError> {
        match self {
            Terms::All => Ok(Terms::All),
            Terms::Symbol(symbol) => Ok(Terms::Symbol(*symbol)),
            Terms::AnyOf(symbols) => Ok(Terms::AnyOf(symbols.clone()?)),
            Terms::MinSize(size) => Ok(Terms::MinSize(*size)),
            Terms::StateIs(state) => Ok(Terms::StateIs(*state)),
            Terms::Both(first, second) => {
                let first = Box::new(*Box::allocator(first), (**first).clone()?)?;
                let second = Box::new(*Box::allocator(second), (**second).clone()?)?;
                Ok(Terms::Both(first, second))
            }
        }
    }
}
