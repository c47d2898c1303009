//! The places of the symbols.

ghost use Rattle.std.specs.Prelude.{◌≡◌, ◌<◌, ◌≤◌, length, map, slice_index, IfOk, IfSome, MatchBool};
ghost use Rattle.feed_types.specs.Symbols.{key_of};
ghost use Rattle.itch_book.specs.Orders.{place_among};

use crate::fault::BookFault;
use feed_types::SymbolName;
use indexmap::IndexSet;
use std::alloc::Global;
use std::marker::Model;

/// The symbols of a book, by their keys and in order, with a hint for each stock locate: the place
/// of the symbol that the locate had last. Contracts see the keys alone.
#[derive(Drop)]
pub(crate) struct SymbolPlaces {
    keys: IndexSet<u64>,
    hints: Vec<u16>,
}

impl Model for SymbolPlaces {
    ghost use Rattle.std.specs.Prelude.{◌≡◌, List, ℕ, ◌≤◌, length};

    ghost Value = { List ℕ };

    ghost view = { λ s. s.keys.keys };

    ghost invariant = { λ s. (length s.keys.keys ≤ 65536) × (length s.hints.items ≡ 65536) };
}

/// The most symbols of a book.
pub const MOST_SYMBOLS: usize = 65_536;

/// The stock locates that there are.
const LOCATES: usize = 65_536;

/// Returns whether a symbol's key is at a place.
#[inline(always)]
fn is_key_at(keys: &[u64], place: u16, key: u64) -> bool
    ensures { MatchBool result
        ((place < length keys.now) × (slice_index keys.now place ≡ key))
        (place < length keys.now → slice_index keys.now place ≡ key → ⊥) }
{
    let place = place as usize;
    place < keys.len() && keys[place] == key
}

impl SymbolPlaces {
    /// Makes the places of these symbols.
    pub(crate) fn new(alloc: Global, symbols: &[SymbolName]) -> Result<SymbolPlaces, BookFault>
        ensures { IfOk result (λ places. places ≡ map key_of symbols.now) }
    {
        if symbols.len() > MOST_SYMBOLS {
            return Err(BookFault::TooManySymbols);
        }
        let mut keys = IndexSet::with_capacity(alloc, symbols.len())?;
        for symbol in symbols {
            match keys.insert(symbol.key()) {
                Ok(true) => {}
                Ok(false) => return Err(BookFault::DuplicateSymbol),
                Err(_) => return Err(BookFault::NoMemory),
            }
        }
        let hints = vec![in alloc; 0; LOCATES]?;
        Ok(SymbolPlaces { keys, hints })
    }

    /// Returns the place of a symbol, if it is one of the book's. The hint of the locate is tried
    /// first, and is that place afterwards.
    #[inline(always)]
    pub(crate) fn place_of(&mut self, symbol: SymbolName, locate: u16) -> Option<u32>
        ensures value { result ≡ place_among self.old symbol }
        ensures within { IfSome result (λ place. place < length self.old) }
        ensures few { length self.old ≤ 65536 }
        ensures keys { self.new ≡ self.old }
    {
        let key = symbol.key();
        let hint = self.hints[locate as usize];
        if is_key_at(self.keys.as_slice(), hint, key) {
            return Some(hint as u32);
        }
        let place = self.keys.get_index_of(&key)?;
        self.hints[locate as usize] = place as u16;
        Some(place as u32)
    }
}
