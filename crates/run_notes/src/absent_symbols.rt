//! The symbols of which no item came, or no change of the national best.
ghost use Rattle.std.specs.Prelude.{◌≡◌, ℕ, [], ◌&&◌, not, nat_eq, IfOk};
ghost use Rattle.std.specs.List.{list_any};
ghost use Rattle.feed_types.specs.Symbols.{key_of};
ghost use Rattle.run_notes.specs.AbsentSymbols.{AreKeysOf, enters, has_key, is_change_of, is_item_of};

use feed_types::{Entry, Item, Notice, SymbolName};
use indexmap::IndexSet;
use std::alloc::{AllocError, Global};
use std::marker::Model;

/// The symbols, of some, of which nothing has come: no item, or no change of the national best.
/// Contracts see their keys.
#[derive(Drop)]
pub struct AbsentSymbols {
    keys: IndexSet<u64>,
}

impl Model for AbsentSymbols {
    ghost use Rattle.std.specs.Prelude.{ℕ, List};

    ghost Value = { List ℕ };

    ghost view = { λ s. s.keys.keys };
}

impl AbsentSymbols {
    /// Returns no symbols. They take no memory.
    pub fn none(alloc: Global) -> AbsentSymbols
        ensures { result ≡ [] }
    {
        AbsentSymbols {
            keys: IndexSet::new(alloc),
        }
    }

    /// Returns these symbols. Fails where memory is refused.
    pub fn of(alloc: Global, symbols: &[SymbolName]) -> Result<AbsentSymbols, AllocError>
        ensures { IfOk result (λ absent. AreKeysOf symbols.now absent) }
    {
        let mut keys = IndexSet::with_capacity(alloc, symbols.len())?;
        for symbol in symbols {
            match keys.insert(symbol.key()) {
                Ok(_) => {}
                Err(error) => return Err(error.into()),
            }
        }
        Ok(AbsentSymbols { keys })
    }

    /// Returns whether the symbol is one of these.
    pub fn has(&self, symbol: SymbolName) -> bool
        ensures { result ≡ has_key self.now (key_of symbol) }
    {
        self.keys.contains(&symbol.key())
    }

    /// Takes out a symbol of which something came.
    fn remove(&mut self, symbol: SymbolName)
        ensures { (key : ℕ) → has_key self.new key
            ≡ (has_key self.old key && not (nat_eq (key_of symbol) key)) }
    {
        let _was = self.keys.swap_remove(&symbol.key());
    }

    /// Takes out the symbol of an item that came.
    #[inline(never)]
    fn note_item(&mut self, item: &Item)
        ensures { (key : ℕ) → has_key self.new key
            ≡ (has_key self.old key && not (is_item_of key item.now)) }
    {
        match item {
            Item::Quote(quote) => self.remove(quote.symbol),
            Item::Halt { symbol, .. } => self.remove(*symbol),
            Item::Other | Item::End | Item::Skipped => {}
        }
    }

    /// Takes out the symbol of an item that came, if any symbol is left.
    #[inline(always)]
    pub fn note_any(&mut self, item: &Item)
        ensures { (key : ℕ) → has_key self.new key
            ≡ (has_key self.old key && not (is_item_of key item.now)) }
    {
        if self.keys.is_empty() {
            return;
        }
        self.note_item(item);
    }

    /// Takes out the symbol of a change of the national best, if any symbol is left.
    pub fn note_change(&mut self, notice: &Notice)
        ensures { (key : ℕ) → has_key self.new key
            ≡ (has_key self.old key && not (is_change_of key notice.now)) }
    {
        if self.keys.is_empty() {
            return;
        }
        self.remove(notice.symbol);
    }

    /// Takes out the symbol of an entry, if that has an item.
    fn note_entry(&mut self, entry: &Entry)
        ensures { (key : ℕ) → has_key self.new key
            ≡ (has_key self.old key && not (enters key entry.now)) }
    {
        match entry {
            Entry::Consumed { numbered, .. } => self.note_any(&numbered.item),
            Entry::SelfHelp { .. } => {}
        }
    }

    /// Takes out the symbols of the entries' items.
    pub fn note_entries(&mut self, entries: &[Entry])
        ensures { (key : ℕ) → has_key self.new key
            ≡ (has_key self.old key && not (list_any (enters key) entries.now)) }
    {
        for entry in entries {
            self.note_entry(entry);
        }
    }
}
