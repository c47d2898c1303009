//! A book whose entries are numbered.

ghost use Rattle.std.specs.Prelude.{◌≡◌, ◌+◌, ◌^◌, ◌<◌, ◌≤◌, ◌↔◌, [], length, IsTrue, IfOk};
ghost use Rattle.std.specs.Vec.{vec_len, vec_capacity};
ghost use Rattle.feed_types.specs.declared.journal.Entry.{Entry};
ghost use Rattle.nbbo_book.specs.Books.{FitsBook, venue_of};
ghost use Rattle.nbbo_book.specs.Eligible.{is_so};
ghost use Rattle.nbbo_book.specs.Refusals.{ConfiguresBook};
ghost use Rattle.journal_book.specs.Changes.{changes_of, notices_from};
ghost use Rattle.journal_book.specs.Declares.{DeclaresBy};

use crate::fault::JournalFault;
use feed_types::{Entry, Past, SymbolName, VenueId};
use nbbo_book::{Book, BookFault, Change};
use std::alloc::Global;
use std::marker::Model;

/// The changes that one entry made, in the order of the symbols, and the number of the first one:
/// the others count on from it.
#[derive(Clone, Copy, Debug)]
pub struct EntryChanges<'a> {
    pub first: u64,
    pub changes: &'a [Change],
}

/// A journal that keeps no entry and no notice: it numbers entries up to a limit, knows what the
/// next one changes, and shows what the last one changed.
///
/// Take it where what is journaled is written elsewhere, as a replay prints it. It takes all its
/// memory when it is made, however many entries come.
#[derive(Drop)]
pub struct NumberedBook {
    book: Book,
    limit: u32,
    earlier: u64,
    latest: Vec<Change>,
    past: Past<Entry>,
}

impl Model for NumberedBook {
    ghost use Rattle.std.specs.Vec.{vec_capacity};
    ghost use Rattle.journal_book.specs.NumberedBooks.{NumberedState};
    ghost use Rattle.journal_book.specs.Keeping.{NumbersEntries};

    ghost Value = { NumberedState };

    ghost view = { λ b. record {
      symbols = b.book.symbols;
      venues = b.book.venues;
      journal = b.limit;
      entries = b.past.items;
    } };

    ghost invariant = { λ b. NumbersEntries b.book b.limit b.past.items b.earlier b.latest.items
        (vec_capacity b.latest) };
}

/// Counts these changes as earlier ones, and empties their list.
#[inline(always)]
fn pass_changes(earlier: &mut u64, latest: &mut Vec<Change>)
    requires { earlier.old + vec_len latest.old ≤ 18446744073709551615 }
    ensures earlier { earlier.new ≡ earlier.old + vec_len latest.old }
    ensures items { latest.new.items ≡ [] }
    ensures len { vec_len latest.new ≡ 0 }
    ensures capacity { vec_capacity latest.new ≡ vec_capacity latest.old }
{
    if !latest.is_empty() {
        *earlier += latest.len() as u64;
        latest.clear();
    }
}

impl NumberedBook {
    ghost use Rattle.journal_book.specs.NumberedBooks.{NumberedState, new_numbered, before_last, latest_of, GoesOnBy, DeclaresNext};

    /// A book of no entries over `venue_count` venues, 1 to 16, and these symbols, at most 4,096
    /// and each once. It takes at most `limit` entries.
    ///
    /// The refusals are those of [`nbbo_book::Book::new`], in its order.
    pub fn new(
        alloc: Global,
        symbols: &[SymbolName],
        venue_count: usize,
        limit: u32,
    ) -> Result<NumberedBook, BookFault>
        ensures new { IfOk result (λ made. made ≡ new_numbered symbols.now venue_count limit) }
        ensures answer { ConfiguresBook symbols.now venue_count result }
    {
        let book = Book::new(alloc, symbols, venue_count)?;
        let Ok(latest) = Vec::with_capacity(alloc, symbols.len()) else {
            return Err(BookFault::NoMemory);
        };
        Ok(NumberedBook {
            book,
            limit,
            earlier: 0,
            latest,
            past: Past::new(),
        })
    }

    /// Lends the book, to which all entries were applied.
    #[inline(always)]
    pub(crate) fn book(&self) -> &Book
        ensures fits { FitsBook result.now self.now.entries }
        ensures symbols { result.now.symbols ≡ self.now.symbols }
        ensures venues { result.now.venues ≡ self.now.venues }
        ensures few { length self.now.symbols ≤ 4096 }
    {
        &self.book
    }

    /// Returns how many entries are taken at most.
    #[inline(always)]
    pub(crate) fn limit(&self) -> u32
        ensures { result ≡ self.now.journal }
    {
        self.limit
    }

    /// Returns how many entries were taken.
    #[inline(always)]
    pub(crate) fn entry_count(&self) -> u64
        ensures { result ≡ length self.now.entries }
    {
        self.book.last_position()
    }

    /// Whether one more entry may be journaled.
    #[inline(always)]
    pub fn has_room(&self) -> bool
        ensures { IsTrue result ↔ (length self.now.entries < self.now.journal) }
    {
        self.book.last_position() < u64::from(self.limit)
    }

    /// Journals the entry, which is lent, and returns its position, which counts from 1. There is
    /// room, and the entry's venue is below the count.
    #[inline(always)]
    pub fn add(&mut self, entry: &Entry) -> u64
        requires room { length self.old.entries < self.old.journal }
        requires venue { venue_of entry.now < self.old.venues }
        ensures goes_on { GoesOnBy self.old entry.now self.new }
        ensures position { result ≡ length self.new.entries }
    {
        let position = self.book.last_position() + 1;
        pass_changes(&mut self.earlier, &mut self.latest);
        self.book.apply(position, entry, &mut self.latest);
        self.past = self.past.with(entry);
        position
    }

    /// Reads what the venue's quotation of a symbol will read of the book, where a message to come
    /// has this field, as [`nbbo_book::Book::prefetch`] does. It changes no answer. Returns whether
    /// that pays.
    #[inline(always)]
    pub fn prefetch(&mut self, venue: VenueId, field: [u8; 8]) -> bool
        ensures { self.new ≡ self.old }
    {
        self.book.prefetch(venue, field)
    }

    /// Returns whether self-help on the venue is as declared, on or off.
    fn is_so(&self, venue: VenueId, on: bool) -> bool
        ensures { result ≡ is_so self.now.entries venue on }
    {
        if self.book.is_self_helped(venue) {
            on
        } else {
            !on
        }
    }

    /// Returns whether self-help may be declared on the venue, or withdrawn. It is refused as
    /// UnknownVenue, AlreadySo where the venue's self-help is in that state, or JournalFull: the
    /// first that fits.
    pub(crate) fn may_declare(&self, venue: VenueId, on: bool) -> Result<(), JournalFault>
        ensures { DeclaresBy self.now.venues self.now.journal self.now.entries (Unit {0}) (λ _. ⊥)
            (λ _. Unit {0}) venue on result }
    {
        if venue.index() >= self.book.venue_count() {
            return Err(JournalFault::UnknownVenue);
        }
        if self.is_so(venue, on) {
            return Err(JournalFault::AlreadySo);
        }
        if !self.has_room() {
            return Err(JournalFault::JournalFull);
        }
        Ok(())
    }

    /// Declares self-help on the venue, or withdraws it, and returns the entry's position. It is
    /// refused as UnknownVenue, AlreadySo where the venue's self-help is in that state (off at
    /// first), or JournalFull: the first that fits.
    pub fn declare(&mut self, venue: VenueId, on: bool) -> Result<u64, JournalFault>
        ensures { DeclaresNext self.old venue on result self.new }
    {
        self.may_declare(venue, on)?;
        Ok(self.add(&Entry::SelfHelp { venue, on }))
    }

    /// Returns how many changes all entries made.
    pub(crate) fn change_count(&self) -> usize
        ensures value { result ≡ length (changes_of self.now.symbols self.now.entries) }
        ensures small { result < 2 ^ 44 }
    {
        self.earlier as usize + self.latest.len()
    }

    /// The changes that the last entry made; none before there is one.
    #[inline(always)]
    pub fn latest(&self) -> EntryChanges<'_>
        ensures first { result.first
            ≡ length (changes_of self.now.symbols (before_last self.now.entries)) + 1 }
        ensures notices { notices_from result.first result.changes.now
            ≡ latest_of self.now.symbols self.now.entries }
        ensures few { length result.changes.now ≤ length self.now.symbols }
        ensures numbers { result.first + length result.changes.now ≤ 18446744073709551615 }
        ensures small { length (changes_of self.now.symbols self.now.entries) < 2 ^ 44 }
    {
        EntryChanges {
            first: self.earlier + 1,
            changes: self.latest.as_slice(),
        }
    }
}
