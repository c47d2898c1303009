//! The journal with its subscribers' filters.

ghost use Rattle.std.specs.Prelude.{◌≡◌, ◌<◌, ◌≤◌, ◌↔◌, length, IsTrue, IsSome, IfSome, IfOk, Some, None};
ghost use Rattle.std.proofs.Props.{props};
ghost use Rattle.journal_book.specs.Journals.{new_journal, changes, subscriptions_of, DeclaresWhere, Journals, terms_at};

use crate::fault::JournalFault;
use crate::journal::Journal;
use feed_types::{Entry, National, Notice, Numbered, SubscriberId, SymbolName, VenueId};
use filter_terms::{Filter, Terms};
use nbbo_book::BookFault;
use std::alloc::Global;

/// A [`Journal`] that keeps all, with its subscribers' filters: it journals, and offers each
/// subscriber what its filter lets through.
#[derive(Drop)]
pub struct Consolidator {
    journal: Journal,
    filters: Vec<Filter>,
    ghost all: { journal.kept ≡ None } by { Prim.hlevel props },
}

impl Consolidator {
    ghost use Rattle.nbbo_book.specs.Books.{is_configured};
    ghost use Rattle.nbbo_book.specs.Nationals.{national_of};
    ghost use Rattle.nbbo_book.specs.Eligible.{is_self_helped};
    ghost use Rattle.nbbo_book.specs.Refusals.{ConfiguresBook};
    ghost use Rattle.journal_book.specs.Consolidators.{journal_in, next_at, ReservesRoom, StaysButCursors, CountsOffer, SubscribesFilter};

    /// A consolidator of no entries and no subscribers: see [`Journal::new`].
    pub fn new(
        alloc: Global,
        symbols: &[SymbolName],
        venue_count: usize,
        journal: u32,
    ) -> Result<Consolidator, BookFault>
        ensures new { IfOk result
            (λ made. journal_in made ≡ new_journal symbols.now venue_count journal) }
        ensures answer { ConfiguresBook symbols.now venue_count result }
    {
        match Journal::new(alloc, symbols, venue_count, journal) {
            Ok(journal) => Ok(Consolidator {
                journal,
                filters: Vec::new(alloc),
            }),
            Err(fault) => Err(fault),
        }
    }

    /// Makes room for one entry and all changes that it can make: JournalFull where the journal
    /// has as many entries as it takes. NoMemory comes only where room was missing.
    pub fn reserve_one(&mut self) -> Result<(), JournalFault>
        ensures { ReservesRoom (journal_in self.old) result (journal_in self.new) }
    {
        self.journal.reserve_one()
    }

    /// Whether there is room for one more entry and all changes that it can make.
    pub fn has_room(&self) -> bool
        ensures { result ≡ (journal_in self.now).ready }
    {
        self.journal.has_room()
    }

    /// Journals the venue's item and its changes, and returns its position, which counts from 1. It
    /// takes no memory: there is room, and the venue is below the count.
    pub fn record(&mut self, venue: VenueId, numbered: Numbered) -> u64
        requires ready { IsTrue (journal_in self.old).ready }
        requires venue { venue < (journal_in self.old).venues }
        ensures journals { Journals (journal_in self.old) (Entry.Consumed venue numbered)
            (journal_in self.new) }
        ensures position { result ≡ length (journal_in self.new).entries }
        ensures offered { subscriptions_of (journal_in self.new)
            ≡ subscriptions_of (journal_in self.old) }
    {
        self.journal.record(venue, numbered)
    }

    /// Declares self-help on the venue, or withdraws it, and returns the entry's position. It is
    /// refused as UnknownVenue, AlreadySo where the venue's self-help is in that state (off at
    /// first), JournalFull or NoMemory: the first that fits.
    pub fn declare(&mut self, venue: VenueId, on: bool) -> Result<u64, JournalFault>
        ensures declares { DeclaresWhere ReservesRoom (journal_in self.old) venue on result
            (journal_in self.new) }
        ensures offered { subscriptions_of (journal_in self.new)
            ≡ subscriptions_of (journal_in self.old) }
    {
        self.journal.declare(venue, on)
    }

    /// Whether self-help is declared on the venue.
    pub fn is_self_helped(&self, venue: VenueId) -> bool
        ensures { result ≡ is_self_helped (journal_in self.now).entries venue }
    {
        self.journal.is_self_helped(venue)
    }

    /// Adds a subscriber, to which nothing was offered, and returns its id, the next one from 0 on.
    /// Its notices begin with the first change of the journal, whenever it subscribes. It is
    /// refused, with the filter, as TooManySubscribers where there are 32, else as NoMemory.
    pub fn subscribe(&mut self, filter: Filter) -> Result<SubscriberId, (JournalFault, Filter)>
        ensures { SubscribesFilter (journal_in self.old) filter result (journal_in self.new) }
    {
        if !self.journal.has_subscriber_room() {
            return Err((JournalFault::TooManySubscribers, filter));
        }
        if self.filters.reserve(1).is_err() {
            return Err((JournalFault::NoMemory, filter));
        }
        let Ok(terms) = filter.terms().clone() else {
            return Err((JournalFault::NoMemory, filter));
        };
        match self.journal.subscribe(terms) {
            Ok(id) => {
                self.filters.push_reserved(filter);
                Ok(id)
            }
            Err((fault, _)) => Err((fault, filter)),
        }
    }

    /// Whether there is a subscriber of this id.
    pub fn has(&self, id: SubscriberId) -> bool
        ensures { IsTrue result ↔ (id < length (journal_in self.now).cursors) }
    {
        self.journal.has(id)
    }

    /// The subscriber's terms.
    pub fn terms(&self, id: SubscriberId) -> &Terms
        requires { id < length (journal_in self.now).cursors }
        ensures { terms_at (journal_in self.now) id ≡ Some result.now }
    {
        self.journal.terms(id)
    }

    /// The first notice past those offered that meets the subscriber's filter, if there is one.
    pub fn next_offer(&mut self, id: SubscriberId) -> Option<Notice>
        requires { id < length (journal_in self.old).cursors }
        ensures next { result ≡ next_at (journal_in self.old) id }
        ensures offered { subscriptions_of (journal_in self.new)
            ≡ subscriptions_of (journal_in self.old) }
        ensures stays { StaysButCursors (journal_in self.old) (journal_in self.new) }

        // It is the next one still, until it is counted, and the subscribers are as many.
        ensures still { result ≡ next_at (journal_in self.new) id }
        ensures known { length (journal_in self.new).cursors
            ≡ length (journal_in self.old).cursors }
    {
        let filter = self.filters.get(id.index());
        self.journal.next_offer(id, filter)
    }

    /// Counts the next notice that the subscriber wants as offered. There is one.
    pub fn advance_cursor(&mut self, id: SubscriberId)
        requires known { id < length (journal_in self.old).cursors }
        requires next { IsSome (next_at (journal_in self.old) id) }
        ensures offered { CountsOffer (subscriptions_of (journal_in self.old)) id
            (subscriptions_of (journal_in self.new)) }
        ensures stays { StaysButCursors (journal_in self.old) (journal_in self.new) }
        ensures known { length (journal_in self.new).cursors
            ≡ length (journal_in self.old).cursors }
    {
        // Its terms alone tell where it stands: the filter was asked when it was offered.
        let _counted = self.journal.next_offer(id, None);
        self.journal.advance_cursor(id);
    }

    /// The number of venues: items and declarations are of venues below it.
    pub fn venue_count(&self) -> usize
        ensures { result ≡ (journal_in self.now).venues }
    {
        self.journal.venue_count()
    }

    /// The entries, each at its position less one.
    pub fn entries(&self) -> &[Entry]
        ensures value { result.now ≡ (journal_in self.now).entries }
        ensures within { length result.now ≤ (journal_in self.now).journal }
    {
        self.journal.entries()
    }

    /// The changes of the entries, numbered from 1.
    pub fn changes(&self) -> &[Notice]
        ensures { result.now ≡ changes (journal_in self.now) }
    {
        self.journal.changes()
    }

    /// The national best of the symbol after all entries, `None` exactly where it isn't configured.
    pub fn national(&self, symbol: &SymbolName) -> Option<National>
        ensures configured { IsSome result
            ↔ IsTrue (is_configured (journal_in self.now).symbols symbol.now) }
        ensures value { IfSome result
            (λ national. national ≡ national_of (journal_in self.now).entries symbol.now) }
    {
        self.journal.national(symbol)
    }
}
