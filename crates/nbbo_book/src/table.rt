//! The table of the symbols, in configured order.

ghost use Rattle.std.specs.Prelude.{◌≡◌, ◌↔◌, ◌<◌, nat_eq, true, false, length, position, IfNone, IfOk, IfSome, OnOk, IsErrOf};
ghost use Rattle.std.specs.List.{IsDistinct};
ghost use Rattle.std.specs.Str.{bytes_eq};
ghost use Rattle.nbbo_book.specs.Tables.{IsTable, symbols_in_rows};

use crate::fault::BookFault;
use crate::row::Row;
use crate::symbol_cache::SymbolCache;
use feed_types::{MAX_SYMBOLS, SymbolName};
use indexmap::IndexSet;
use std::alloc::{AllocError, Global};

/// The symbols' keys, in order. One number hashes faster than eight bytes do.
pub type SymbolKeys = IndexSet<u64>;

/// The symbols' keys, in order, and a cache of where each symbol stands.
#[derive(Drop)]
pub struct SymbolTable {
    pub symbols: SymbolKeys,
    pub cache: SymbolCache,
}

/// Makes the set of these symbols' keys, in order: `None` where a symbol is there twice.
fn symbol_keys(alloc: Global, symbols: &[SymbolName]) -> Result<Option<SymbolKeys>, AllocError>
    ensures table { IfOk result (λ made. IfSome made (λ set. IsTable symbols.now set.keys)) }
    ensures apart { IfOk result (λ made. IfSome made (λ _. IsDistinct bytes_eq symbols.now)) }
    ensures twice { IfOk result (λ made. IfNone made (¬ IsDistinct bytes_eq symbols.now)) }
{
    let mut set = IndexSet::with_capacity(alloc, symbols.len())?;
    for symbol in symbols {
        match set.insert(symbol.key()) {
            Ok(true) => {}
            Ok(false) => return Ok(None),
            Err(error) => return Err(error.into()),
        }
    }
    // It is as a slice that a set is known to have each key once.
    let _keys = set.as_slice();
    Ok(Some(set))
}

/// Returns whether no symbol is there twice.
pub fn are_distinct(alloc: Global, symbols: &[SymbolName]) -> Result<bool, AllocError>
    ensures apart { IfOk result (λ distinct. distinct ≡ true → IsDistinct bytes_eq symbols.now) }
    ensures twice { IfOk result (λ distinct. distinct ≡ false → ¬ IsDistinct bytes_eq symbols.now) }
{
    Ok(symbol_keys(alloc, symbols)?.is_some())
}

/// Makes the table of these symbols.
pub fn symbol_table(alloc: Global, symbols: &[SymbolName]) -> Result<SymbolTable, BookFault>
    ensures table { IfOk result (λ table. IsTable symbols.now table.symbols.keys) }
    ensures distinct { OnOk result (IsDistinct bytes_eq symbols.now) }
    ensures duplicate { IsErrOf result BookFault.DuplicateSymbol
        → ¬ IsDistinct bytes_eq symbols.now }
    ensures many { IsErrOf result BookFault.TooManySymbols ↔ (4096 < length symbols.now) }
    ensures count { ¬ IsErrOf result BookFault.BadVenueCount }
{
    if symbols.len() > MAX_SYMBOLS {
        return Err(BookFault::TooManySymbols);
    }
    let keys = match symbol_keys(alloc, symbols) {
        Ok(Some(keys)) => keys,
        Ok(None) => return Err(BookFault::DuplicateSymbol),
        Err(_) => return Err(BookFault::NoMemory),
    };
    match SymbolCache::of(alloc, symbols) {
        Ok(cache) => Ok(SymbolTable {
            symbols: keys,
            cache,
        }),
        Err(_) => Err(BookFault::NoMemory),
    }
}

/// Returns where the key stands in the set. It is a call of its own, since most often the cache has
/// the place.
#[inline(never)]
fn search_keys(symbols: &SymbolKeys, key: u64) -> Option<usize>
    ensures { result ≡ position (nat_eq key) symbols.now.keys }
{
    symbols.get_index_of(&key)
}

/// Returns where the symbol stands. Most often the cache has it.
#[inline(always)]
pub fn find(table: &SymbolTable, rows: &[Row], symbol: SymbolName) -> Option<usize>
    requires { IsTable (symbols_in_rows rows.now) table.now.symbols.keys }
    ensures { result ≡ position (bytes_eq symbol) (symbols_in_rows rows.now) }
{
    let cached = table.cache.place_of(symbol.key());
    if cached < rows.len() && rows[cached].is_of(symbol) {
        return Some(cached);
    }
    search_keys(&table.symbols, symbol.key())
}
