//! The symbols of which no item came, or no change of the national best, by their names.
ghost use Rattle.std.specs.Prelude.{◌≡◌, [], ◌∷◌, IfOk};
ghost use Rattle.text_out.specs.Members.{writing_of};
ghost use Rattle.text_out.specs.StandardError.{SaysEach};
ghost use Rattle.run_notes.specs.AbsentSymbols.{absent_among, absent_texts, symbols_with, unchanged_among, unchanged_texts};

use crate::absent_report::{write_absent, write_unchanged};
use crate::absent_symbols::AbsentSymbols;
use feed_types::{Entry, Notice, SymbolName};
use std::alloc::{AllocError, Global};
use std::marker::Model;
use text_out::TextOut;

/// The symbols, of some, of which nothing came: no item, or no change of the national best.
/// Contracts see these, in the order of all.
#[derive(Drop)]
pub struct AbsentList {
    symbols: Vec<SymbolName>,
    absent: AbsentSymbols,
}

impl Model for AbsentList {
    ghost use Rattle.std.specs.Prelude.{ℕ, List};
    ghost use Rattle.run_notes.specs.AbsentSymbols.{symbols_with};

    ghost Value = { List (List ℕ) };

    ghost view = { λ a. symbols_with a.absent a.symbols.items };
}

impl AbsentList {
    /// Returns no symbols. They take no memory.
    pub fn none(alloc: Global) -> AbsentList
        ensures { result ≡ [] }
    {
        AbsentList {
            symbols: Vec::new(alloc),
            absent: AbsentSymbols::none(alloc),
        }
    }

    /// Returns these symbols, of which nothing came yet. Fails where memory is refused.
    pub fn of(alloc: Global, symbols: &[SymbolName]) -> Result<AbsentList, AllocError>
        ensures { IfOk result (λ list. list ≡ symbols.now) }
    {
        let absent = AbsentSymbols::of(alloc, symbols)?;
        let mut held = Vec::with_capacity(alloc, symbols.len())?;
        held.extend_from_slice(symbols)?;
        Ok(AbsentList {
            symbols: held,
            absent,
        })
    }

    /// Takes out the symbols of the entries' items.
    fn note_entries(&mut self, entries: &[Entry])
        ensures { self.new ≡ absent_among entries.now self.old }
    {
        self.absent.note_entries(entries);
    }

    /// Returns the symbols of which no item is among a journal's entries. Fails where memory is
    /// refused.
    pub fn among(
        alloc: Global,
        entries: &[Entry],
        symbols: &[SymbolName],
    ) -> Result<AbsentList, AllocError>
        ensures { IfOk result (λ absent. absent ≡ absent_among entries.now symbols.now) }
    {
        let mut list = AbsentList::of(alloc, symbols)?;
        list.note_entries(entries);
        Ok(list)
    }

    /// Takes out the symbol of a change of the national best.
    pub fn note_change(&mut self, notice: &Notice)
        ensures { self.new ≡ unchanged_among (notice.now ∷ []) self.old }
    {
        self.absent.note_change(notice);
    }

    /// Takes out the symbols of changes of the national best.
    pub fn note_changes(&mut self, notices: &[Notice])
        ensures { self.new ≡ unchanged_among notices.now self.old }
    {
        for notice in notices {
            self.note_change(notice);
        }
    }

    /// Writes that these symbols never came: the names of the first of them, and how many more.
    pub fn write<E: TextOut>(&self, errors: &mut E)
        ensures { SaysEach (writing_of E.TextOut) (absent_texts self.now) errors.old errors.new }
    {
        write_absent(self.symbols.as_slice(), &self.absent, errors);
    }

    /// Writes that these symbols never had a best: the names of the first of them, and how many
    /// more.
    pub fn write_unchanged<E: TextOut>(&self, errors: &mut E)
        ensures { SaysEach (writing_of E.TextOut) (unchanged_texts self.now) errors.old errors.new }
    {
        write_unchanged(self.symbols.as_slice(), &self.absent, errors);
    }
}
