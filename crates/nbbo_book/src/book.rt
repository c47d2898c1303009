//! The book: the protected sides of all configured symbols.

ghost use Rattle.std.specs.Prelude.{◌≡◌, ◌↔◌, ◌<◌, ◌≤◌, ◌+◌, ◌++◌, ◌∷◌, [], List, length, map, IfOk, IfSome, IsSome, IsTrue, Some, false};
ghost use Rattle.std.specs.Vec.{vec_len, vec_capacity};
ghost use Rattle.feed_types.specs.declared.journal.Entry.{Entry};
ghost use Rattle.nbbo_book.specs.Books.{FitsBook, venue_of, is_configured};
ghost use Rattle.nbbo_book.specs.Eligible.{is_self_helped as self_helped};
ghost use Rattle.nbbo_book.specs.Nationals.{national_of, IsRanking};
ghost use Rattle.nbbo_book.specs.Changes.{changes_by};
ghost use Rattle.nbbo_book.specs.Refusals.{ConfiguresBook};
ghost use Rattle.nbbo_book.specs.Rows.{empty_row, ShowsSymbol};

use crate::change::Change;
use crate::fault::BookFault;
use crate::row::Row;
use crate::steps::{Step, apply_step};
use crate::table::{SymbolTable, find, symbol_table};
use crate::venues::VenueStates;
use feed_types::{Best, Entry, MAX_VENUES, National, Side, SymbolName, VenueId};
use std::alloc::{AllocError, Global};
use std::marker::Model;

/// The rows of this many symbols are in the cache anyway.
const FEW_SYMBOLS: usize = 512;

/// The protected sides of the configured symbols, and the best of them.
#[derive(Drop)]
pub struct Book {
    table: SymbolTable,
    rows: Vec<Row>,
    venues: VenueStates,
    last: u64,
    applied: u64,
    /// What was prefetched, mixed: it is kept so that it is read at all.
    prefetched: u64,
}

impl Model for Book {
    ghost use Rattle.nbbo_book.specs.Books.{BookState};
    ghost use Rattle.nbbo_book.specs.Tables.{IsBook, book_state_of};

    ghost Value = { BookState };

    ghost view = { λ b. book_state_of b.rows.items b.venues.count b.last
        b.applied b.venues.helped };

    ghost invariant = { λ b. IsBook b.table.symbols.keys
        (book_state_of b.rows.items b.venues.count b.last b.applied b.venues.helped) };
}

fn empty_rows(alloc: Global, symbols: &[SymbolName]) -> Result<Vec<Row>, AllocError>
    ensures { IfOk result (λ rows. rows.items ≡ map empty_row symbols.now) }
{
    let mut rows = Vec::with_capacity(alloc, symbols.len())?;
    for symbol in symbols {
        rows.push(Row::new(*symbol))?;
    }
    Ok(rows)
}

impl Book {
    /// Makes a book of no entries over `venue_count` venues, 1 to 16, and these symbols, at most
    /// 4,096 and each once; their order is that of the changes. No symbol at all is allowed. All
    /// memory is asked for here.
    ///
    /// Refuses as BadVenueCount, TooManySymbols, NoMemory where there is none for the table,
    /// DuplicateSymbol, or NoMemory where there is none for what is kept of the symbols: the first
    /// that fits.
    pub fn new(alloc: Global, symbols: &[SymbolName], venue_count: usize) -> Result<Book, BookFault>
        ensures fits { IfOk result (λ book. FitsBook book []) }
        ensures symbols { IfOk result (λ book. book.symbols ≡ symbols.now) }
        ensures venues { IfOk result (λ book. book.venues ≡ venue_count) }
        ensures last { IfOk result (λ book. book.last ≡ 0) }
        ensures answer { ConfiguresBook symbols.now venue_count result }
    {
        if venue_count == 0 || venue_count > MAX_VENUES {
            return Err(BookFault::BadVenueCount);
        }
        let table = symbol_table(alloc, symbols)?;
        let Ok(rows) = empty_rows(alloc, symbols) else {
            return Err(BookFault::NoMemory);
        };
        Ok(Book {
            table,
            rows,
            venues: VenueStates {
                count: venue_count,
                helped: [false; MAX_VENUES],
            },
            last: 0,
            applied: 0,
            prefetched: 0,
        })
    }

    /// Applies the entry, and appends to `out` a change for each symbol whose national best differs
    /// after it, in configured order and at `position`.
    ///
    /// It takes no memory: `out` has room for as many changes as there are symbols. The entry's
    /// venue is below the count, and positions rise.
    #[inline(never)]
    pub fn apply(&mut self, position: u64, entry: &Entry, out: &mut Vec<Change>)
        requires room { vec_len out.old + length self.old.symbols ≤ vec_capacity out.old }
        requires venue { venue_of entry.now < self.old.venues }
        requires rising { self.old.last < position }
        ensures fits { (entries : List Entry) → FitsBook self.old entries
            → FitsBook self.new (entries ++ entry.now ∷ []) }
        ensures changes { (entries : List Entry) → FitsBook self.old entries
            → out.new.items
            ≡ out.old.items ++ changes_by self.old.symbols entries position entry.now }
        ensures count { vec_len out.new ≤ vec_len out.old + length self.old.symbols }
        ensures capacity { vec_capacity out.new ≡ vec_capacity out.old }
        ensures symbols { self.new.symbols ≡ self.old.symbols }
        ensures venues { self.new.venues ≡ self.old.venues }
        ensures last { self.new.last ≡ position }
    {
        self.venues.take_self_help(entry);
        let age = self.applied + 1;
        let step = Step {
            entry,
            venues: &self.venues,
            age,
            position,
        };
        apply_step(&self.table, self.rows.as_mut_slice(), &step, out);
        self.applied = age;
        self.last = position;
    }

    /// Reads what the venue's quotation of a symbol will read, where a later message has this
    /// field, so that it is in the cache then. It changes no answer. Returns whether that pays: a
    /// book of few symbols is in the cache anyway, and reads nothing.
    #[inline(always)]
    pub fn prefetch(&mut self, venue: VenueId, field: [u8; 8]) -> bool
        ensures { self.new ≡ self.old }
    {
        if self.rows.len() <= FEW_SYMBOLS {
            return false;
        }
        let place = self.table.cache.place_of(u64::from_be_bytes(field));
        if place < self.rows.len() {
            self.prefetched = self.prefetched ^ self.rows[place].peek(venue);
        }
        true
    }

    /// Returns what is kept of the symbol, `None` exactly where it isn't configured.
    #[inline(always)]
    fn row_of(&self, symbol: &SymbolName) -> Option<&Row>
        ensures configured { IsSome result ↔ IsTrue (is_configured self.now.symbols symbol.now) }
        ensures shows { (entries : List Entry) → FitsBook self.now entries
            → IfSome result (λ row. ShowsSymbol entries symbol.now row.now) }
    {
        let place = find(&self.table, self.rows.as_slice(), *symbol)?;
        Some(&self.rows[place])
    }

    /// Returns the national best of the symbol, `None` exactly where it isn't configured.
    pub fn national(&self, symbol: &SymbolName) -> Option<National>
        ensures configured { IsSome result ↔ IsTrue (is_configured self.now.symbols symbol.now) }
        ensures value { (entries : List Entry) → FitsBook self.now entries
            → IfSome result (λ national. national ≡ national_of entries symbol.now) }
    {
        Some(self.row_of(symbol)?.national())
    }

    /// Lends the eligible sides of the symbol, best first: each is before those that it beats.
    /// `None` exactly where the symbol isn't configured.
    pub fn ranked(&self, symbol: &SymbolName, side: Side) -> Option<&[Best]>
        ensures configured { IsSome result ↔ IsTrue (is_configured self.now.symbols symbol.now) }
        ensures ranking { (entries : List Entry) → FitsBook self.now entries
            → IfSome result (λ ranks. IsRanking entries symbol.now side ranks.now) }
    {
        Some(self.row_of(symbol)?.ranks(side))
    }

    /// Returns whether self-help is declared on the venue.
    pub fn is_self_helped(&self, venue: VenueId) -> bool
        ensures { (entries : List Entry) → FitsBook self.now entries
            → result ≡ self_helped entries venue }
    {
        self.venues.helped[venue.index()]
    }

    /// Returns the number of venues: `apply` takes entries of venues below it.
    pub fn venue_count(&self) -> usize
        ensures { result ≡ self.now.venues }
    {
        self.venues.count
    }

    /// Returns the position of the last entry, 0 before any: that of the next one is greater.
    pub fn last_position(&self) -> u64
        ensures { result ≡ self.now.last }
    {
        self.last
    }

    /// Returns the number of configured symbols: one entry makes at most that many changes.
    pub fn symbol_count(&self) -> usize
        ensures { result ≡ length self.now.symbols }
    {
        self.rows.len()
    }
}
