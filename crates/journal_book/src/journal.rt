//! The journal of entries with the changes that they make, and a cursor for each subscriber.

ghost use Rattle.std.specs.Prelude.{◌≡◌, ℕ, ◌+◌, ◌<◌, ◌≤◌, ◌^◌, ◌↔◌, ◌∷◌, [], ◌++◌, length, slice_get, IsTrue, IsSome, IfSome, IfNone, IfOk, OnErr, Some};
ghost use Rattle.std.specs.Vec.{vec_len, vec_capacity};
ghost use Rattle.journal_book.specs.Keeping.{CursorMoves, IsRest};
ghost use Rattle.journal_book.specs.Journals.{kept_of};

use crate::cursor::{Cursor, Unfinished};
use crate::fault::JournalFault;
use crate::item_counts::ItemCounts;
use crate::notices::push_notices;
use crate::numbered_book::NumberedBook;
use crate::room::make_room;
use crate::search::{next_wanted, notice_at};
use crate::slowest::slowest;
use feed_types::{
    Entry, Item, MAX_SUBSCRIBERS, National, Notice, Numbered, Quote, SubscriberId, SymbolName,
    VenueId, drop_front,
};
use filter_terms::{Filter, Terms};
use nbbo_book::BookFault;
use std::alloc::Global;
use std::marker::Model;

/// The entries, in the order in which they were taken, the changes of the national best that they
/// made, numbered from 1, and a cursor for each subscriber. It holds no closure.
///
/// One that [`keeps few`](Journal::keeping) keeps no entry, and of the changes no more than some
/// subscriber still wants: the numbers go on, and its memory is that which it takes when it is
/// made. Where a subscriber is too far behind it takes no further entry until that one goes on.
///
/// Take a [`Journal`] where the filters are kept beside it, as under a lock whose contract names
/// more than this crate does; take a [`Consolidator`](crate::Consolidator) where one value is to
/// keep both, and a [`NumberedBook`] where nothing of it is read later.
#[derive(Drop)]
pub struct Journal {
    numbered: NumberedBook,
    counted: ItemCounts,
    most: Option<u32>,
    entries: Vec<Entry>,
    first: usize,
    notices: Vec<Notice>,
    cursors: Vec<Cursor>,
}

impl Model for Journal {
    ghost use Rattle.std.specs.Prelude.{◌+◌, ◌&&◌, length};
    ghost use Rattle.std.specs.Vec.{vec_len, vec_capacity};
    ghost use Rattle.std.specs.Coded.{codes};
    ghost use Rattle.filter_terms.specs.contracts.terms.Terms as terms_type;
    ghost use Rattle.journal_book.specs.Journals.{JournalState};
    ghost use Rattle.journal_book.specs.Keeping.{Keeps, has_room};

    ghost Value = { JournalState };

    ghost coded = { Prim.hlevel (codes, terms_type.the_row.coded) };

    ghost view = { λ j. record {
      symbols = j.numbered.symbols;
      venues = j.numbered.venues;
      journal = j.numbered.journal;
      kept = j.most;
      entries = j.numbered.entries;
      cursors = j.cursors.items;
      ready = has_room j.numbered.journal (length j.numbered.symbols) (length j.numbered.entries)
          (vec_len j.entries) (vec_capacity j.entries) (vec_len j.notices)
          (vec_capacity j.notices);
    } };

    ghost invariant = { λ j. Keeps j.numbered j.counted j.most j.entries.items
        (vec_capacity j.entries)
        j.first j.notices.items (vec_capacity j.notices) j.cursors.items };
}

/// The changes that are kept, and the place of the first one that wasn't looked at for a
/// subscriber.
#[derive(Clone, Copy)]
struct Rest<'a> {
    changes: &'a [Notice],
    from: usize,
}

/// Appends the entry, for which there is room.
#[inline(always)]
fn push_entry(entries: &mut Vec<Entry>, entry: Entry)
    requires { vec_len entries.old < vec_capacity entries.old }
    ensures items { entries.new.items ≡ entries.old.items ++ entry ∷ [] }
    ensures capacity { vec_capacity entries.new ≡ vec_capacity entries.old }
{
    let _named: Option<(Numbered, Item, Quote)> = None;
    entries.push_reserved(entry);
}

/// Lets go of the entries, where not all is kept.
#[inline(always)]
fn let_entries_go(entries: &mut Vec<Entry>, most: Option<u32>)
    ensures items { entries.new.items ≡ kept_of most entries.old.items }
    ensures capacity { vec_capacity entries.new ≡ vec_capacity entries.old }
{
    if most.is_some() {
        entries.clear();
    }
}

/// Moves the subscriber's cursor this many places on.
fn move_cursor(cursors: &mut Vec<Cursor>, index: usize, step: usize)
    requires known { index < vec_len cursors.old }
    requires fits { IfSome (slice_get cursors.old.items index)
        (λ cursor. cursor.seen + step < 2 ^ 64) }
    ensures { CursorMoves cursors.old.items index step cursors.new.items }
{
    let cursor = &mut cursors[index];
    cursor.seen += step;
}

impl Journal {
    ghost use Rattle.std.specs.Prelude.{false, Ok, Err, None};
    ghost use Rattle.nbbo_book.specs.Books.{venue_of, is_configured};
    ghost use Rattle.nbbo_book.specs.Nationals.{national_of};
    ghost use Rattle.nbbo_book.specs.Refusals.{ConfiguresBook};
    ghost use Rattle.nbbo_book.specs.Eligible.{is_self_helped};
    ghost use Rattle.journal_book.specs.Journals.{JournalState, new_journal, changes, subscriptions_of, Journals, Reserves, Declares, AddsSubscription, IsLate, terms_at};
    ghost use Rattle.journal_book.specs.ItemsIn.{items_in};
    ghost use Rattle.journal_book.specs.Cursors.{IsUnseen, KeepsUnseen, HasUnseen, MovesOn, GoesToNext, PassesUnwanted, StandsAtWanted, AdvancesCursor};

    /// A journal of no entries and no subscribers, over `venue_count` venues, 1 to 16, and these
    /// symbols, at most 4,096 and each once. It takes at most `journal` entries, and keeps all.
    ///
    /// The refusals are those of [`nbbo_book::Book::new`], in its order.
    pub fn new(
        alloc: Global,
        symbols: &[SymbolName],
        venue_count: usize,
        journal: u32,
    ) -> Result<Journal, BookFault>
        ensures new { IfOk result (λ made. made ≡ new_journal symbols.now venue_count journal) }
        ensures answer { ConfiguresBook symbols.now venue_count result }
    {
        let numbered = NumberedBook::new(alloc, symbols, venue_count, journal)?;
        Ok(Journal {
            numbered,
            counted: ItemCounts::none(),
            most: None,
            entries: Vec::new(alloc),
            first: 0,
            notices: Vec::new(alloc),
            cursors: Vec::new(alloc),
        })
    }

    /// The same, but it keeps no entry, and of the changes those that some subscriber still wants.
    /// A subscriber may be behind by `kept` changes. There is room for twice as many, so that they
    /// are seldom moved. All memory but that of subscribers is asked for here.
    pub fn keeping(
        alloc: Global,
        symbols: &[SymbolName],
        venue_count: usize,
        journal: u32,
        kept: u32,
    ) -> Result<Journal, BookFault>
        ensures new { IfOk result (λ made. made
            ≡ record (new_journal symbols.now venue_count journal) {
              kept = Some kept;
              ready = made.ready;
            }) }
        ensures answer { ConfiguresBook symbols.now venue_count result }
    {
        let numbered = NumberedBook::new(alloc, symbols, venue_count, journal)?;
        let room = kept as usize * 2 + symbols.len();
        let (Ok(entries), Ok(notices)) = (
            Vec::with_capacity(alloc, 1),
            Vec::with_capacity(alloc, room),
        ) else {
            return Err(BookFault::NoMemory);
        };
        Ok(Journal {
            numbered,
            counted: ItemCounts::none(),
            most: Some(kept),
            entries,
            first: 0,
            notices,
            cursors: Vec::new(alloc),
        })
    }

    /// Makes room for one entry and all changes that it can make: JournalFull where the journal
    /// has as many entries as it takes. The other refusals come only where room was missing:
    /// NoMemory only where all is kept, and SubscriberBehind only where not all is kept and a
    /// subscriber is behind by more changes than it may be.
    pub fn reserve_one(&mut self) -> Result<(), JournalFault>
        ensures { Reserves self.old result self.new }
    {
        if !self.numbered.has_room() {
            return Err(JournalFault::JournalFull);
        }
        if self.has_room() {
            return Ok(());
        }
        match self.most {
            None => self.grow(),
            Some(kept) => self.let_go(kept as usize),
        }
    }

    /// Makes room where all is kept, and where there is none for one more entry.
    #[inline(never)]
    fn grow(&mut self) -> Result<(), JournalFault>
        requires more { length self.old.entries < self.old.journal }
        requires full { self.old.ready ≡ false }
        requires all { self.old.kept ≡ None }
        ensures { Reserves self.old result self.new }
    {
        let enough = self.numbered.limit() as usize;
        if make_room(&mut self.entries, 1, enough).is_err() {
            return Err(JournalFault::NoMemory);
        }
        let most = self.numbered.book().symbol_count();
        if make_room(&mut self.notices, most, enough).is_err() {
            return Err(JournalFault::NoMemory);
        }
        Ok(())
    }

    /// Lets go of the changes that all subscribers have passed, where not all are kept, and where
    /// there is no room for one more entry.
    #[inline(never)]
    fn let_go(&mut self, kept: usize) -> Result<(), JournalFault>
        requires more { length self.old.entries < self.old.journal }
        requires full { self.old.ready ≡ false }
        requires few { self.old.kept ≡ Some kept }
        ensures { Reserves self.old result self.new }
    {
        let end = self.numbered.change_count();
        let first = slowest(self.cursors.as_slice(), end);
        if end - first > kept {
            return Err(JournalFault::SubscriberBehind);
        }
        drop_front(&mut self.notices, first - self.first);
        self.first = first;
        Ok(())
    }

    /// Whether there is room for one more entry and all changes that it can make.
    pub fn has_room(&self) -> bool
        ensures { result ≡ self.now.ready }
    {
        let most = self.numbered.book().symbol_count();
        self.numbered.entry_count() < u64::from(self.numbered.limit())
            && self.entries.len() < self.entries.capacity()
            && self.notices.len() + most <= self.notices.capacity()
    }

    /// Journals the entry and its changes, and returns its position. The entry is written where it
    /// stays, if all is kept, and read there.
    #[inline(always)]
    fn add(&mut self, entry: Entry) -> u64
        requires ready { IsTrue self.old.ready }
        requires venue { venue_of entry < self.old.venues }
        ensures journals { Journals self.old entry self.new }
        ensures position { result ≡ length self.new.entries }
        ensures offered { subscriptions_of self.new ≡ subscriptions_of self.old }
    {
        let place = self.entries.len();
        push_entry(&mut self.entries, entry);
        self.counted.count(&entry);
        let position = self.numbered.add(&self.entries[place]);
        push_notices(&mut self.notices, self.numbered.latest());
        let_entries_go(&mut self.entries, self.most);
        position
    }

    /// Journals the venue's item and its changes, and returns its position, which counts from 1. It
    /// takes no memory: there is room, and the venue is below the count.
    #[inline(always)]
    pub fn record(&mut self, venue: VenueId, numbered: Numbered) -> u64
        requires ready { IsTrue self.old.ready }
        requires venue { venue < self.old.venues }
        ensures journals { Journals self.old (Entry.Consumed venue numbered) self.new }
        ensures position { result ≡ length self.new.entries }
        ensures offered { subscriptions_of self.new ≡ subscriptions_of self.old }
    {
        self.add(Entry::Consumed { venue, numbered })
    }

    /// Declares self-help on the venue, or withdraws it, and returns the entry's position. It is
    /// refused as UnknownVenue, AlreadySo where the venue's self-help is in that state (off at
    /// first), JournalFull or NoMemory: the first that fits.
    pub fn declare(&mut self, venue: VenueId, on: bool) -> Result<u64, JournalFault>
        ensures declares { Declares self.old venue on result self.new }
        ensures offered { subscriptions_of self.new ≡ subscriptions_of self.old }
    {
        self.numbered.may_declare(venue, on)?;
        self.reserve_one()?;
        Ok(self.add(Entry::SelfHelp { venue, on }))
    }

    /// Whether self-help is declared on the venue.
    pub fn is_self_helped(&self, venue: VenueId) -> bool
        ensures { result ≡ is_self_helped self.now.entries venue }
    {
        self.numbered.book().is_self_helped(venue)
    }

    /// The number of venues: items and declarations are of venues below it.
    pub fn venue_count(&self) -> usize
        ensures { result ≡ self.now.venues }
    {
        self.numbered.book().venue_count()
    }

    /// The entries, each at its position less one; none where not all is kept.
    pub fn entries(&self) -> &[Entry]
        ensures value { result.now ≡ kept_of self.now.kept self.now.entries }
        ensures within { length result.now ≤ self.now.journal }
    {
        self.entries.as_slice()
    }

    /// Returns how many items of the venue were journaled.
    pub fn consumed_count(&self, venue: VenueId) -> u32
        ensures { result ≡ length (items_in self.now.entries venue) }
    {
        self.counted.of(venue)
    }

    /// The changes of the entries, numbered from 1; where not all are kept, the last ones, with all
    /// that weren't looked at for some subscriber.
    pub fn changes(&self) -> &[Notice]
        ensures value { IfNone self.now.kept (result.now ≡ changes self.now) }
        ensures kept { KeepsUnseen self.now result.now }
    {
        self.notices.as_slice()
    }

    /// How many changes all entries made, whether or not they are kept.
    pub fn change_count(&self) -> usize
        ensures { result ≡ length (changes self.now) }
    {
        self.numbered.change_count()
    }

    /// The national best of the symbol after all entries, `None` exactly where it isn't configured.
    pub fn national(&self, symbol: &SymbolName) -> Option<National>
        ensures configured { IsSome result ↔ IsTrue (is_configured self.now.symbols symbol.now) }
        ensures value { IfSome result
            (λ national. national ≡ national_of self.now.entries symbol.now) }
    {
        self.numbered.book().national(symbol)
    }

    /// Adds a subscriber of these terms, to which nothing was offered, and returns its id, the next
    /// one from 0 on. It is refused, with the terms, as TooManySubscribers where there are 32, as
    /// TooLate where not all changes are kept and there is one, else as NoMemory.
    pub fn subscribe(&mut self, terms: Terms) -> Result<SubscriberId, (JournalFault, Terms)>
        ensures { AddsSubscription self.old terms result self.new }
    {
        let count = self.cursors.len();
        let Some(id) = SubscriberId::new(count as u8) else {
            return Err((JournalFault::TooManySubscribers, terms));
        };
        if self.is_late() {
            return Err((JournalFault::TooLate, terms));
        }
        if self.cursors.reserve(1).is_err() {
            return Err((JournalFault::NoMemory, terms));
        }
        self.cursors.push_reserved(Cursor { terms, seen: 0 });
        Ok(id)
    }

    /// Whether one more subscriber is taken: there are 32 at most.
    pub fn has_subscriber_room(&self) -> bool
        ensures { IsTrue result ↔ (length self.now.cursors < 32) }
    {
        self.cursors.len() < MAX_SUBSCRIBERS
    }

    /// How many subscribers there are.
    pub fn subscriber_count(&self) -> usize
        ensures value { result ≡ length self.now.cursors }
        ensures few { result ≤ 32 }
    {
        self.cursors.len()
    }

    /// Whether there is a subscriber of this id.
    pub fn has(&self, id: SubscriberId) -> bool
        ensures { IsTrue result ↔ (id < length self.now.cursors) }
    {
        id.index() < self.cursors.len()
    }

    /// The subscriber's terms.
    pub fn terms(&self, id: SubscriberId) -> &Terms
        requires { id < length self.now.cursors }
        ensures { terms_at self.now id ≡ Some result.now }
    {
        &self.cursors[id.index()].terms
    }

    /// Whether not all changes are kept, and there is one: then no further subscriber is taken.
    pub fn is_late(&self) -> bool
        ensures { IsTrue result ↔ IsLate self.now }
    {
        self.most.is_some() && self.numbered.change_count() > 0
    }

    /// The changes that weren't looked at for the subscriber. They are all kept.
    pub fn unseen(&self, id: SubscriberId) -> &[Notice]
        requires { id < length self.now.cursors }
        ensures { IsUnseen self.now id result.now }
    {
        let from = self.cursors[id.index()].seen - self.first;
        &self.notices.as_slice()[from..]
    }

    /// Returns the changes that are kept, and where those begin that weren't looked at for the
    /// subscriber.
    #[inline(always)]
    fn rest(&self, id: SubscriberId) -> Rest<'_>
        requires { id < length self.now.cursors }
        ensures { IsRest self.now id result.changes.now result.from }
    {
        Rest {
            changes: self.notices.as_slice(),
            from: self.cursors[id.index()].seen - self.first,
        }
    }

    /// Moves the subscriber's cursor this many places on.
    #[inline(always)]
    fn move_on(&mut self, id: SubscriberId, step: usize)
        requires { HasUnseen self.old id step }
        ensures { MovesOn self.old id step self.new }
    {
        move_cursor(&mut self.cursors, id.index(), step);
    }

    /// Moves the subscriber's cursor on to the next change that it wants, or to the end, and
    /// returns that change, which isn't counted as offered yet. `filter` is the subscriber's, of
    /// whose terms the journal has a copy; `None` where there is none to ask.
    #[inline(always)]
    pub fn next_offer(&mut self, id: SubscriberId, filter: Option<&Filter>) -> Option<Notice>
        requires { id < length self.old.cursors }
        ensures goes { GoesToNext self.old id result self.new }
        ensures stands { IfSome result (λ _. StandsAtWanted self.new id) }
    {
        let rest = self.rest(id);
        let place = next_wanted(filter, self.terms(id), rest.changes, rest.from);
        let found = notice_at(rest.changes, place);
        let step = place - rest.from;
        self.move_on(id, step);
        found
    }

    /// Does the same, but looks at no more than `most` changes: where none of these is wanted and
    /// there are more of them, the cursor goes past these alone, and the answer is `Unfinished`.
    #[inline(always)]
    pub fn seek_offer(
        &mut self,
        id: SubscriberId,
        filter: Option<&Filter>,
        most: usize,
    ) -> Result<Option<Notice>, Unfinished>
        requires { id < length self.old.cursors }
        ensures goes { IfOk result (λ found. GoesToNext self.old id found self.new) }
        ensures stands { IfOk result (λ found. IfSome found (λ _. StandsAtWanted self.new id)) }
        ensures unfinished { OnErr result (PassesUnwanted self.old id most self.new) }
    {
        let rest = self.rest(id);
        let unseen = rest.changes.len() - rest.from;
        let end = rest.from + unseen.min(most);
        let looked_at = &rest.changes[..end];
        let place = next_wanted(filter, self.terms(id), looked_at, rest.from);
        let found = notice_at(looked_at, place);
        let step = place - rest.from;
        self.move_on(id, step);
        if found.is_none() && unseen > most {
            return Err(Unfinished);
        }
        Ok(found)
    }

    /// How many changes were looked at for the subscriber.
    #[inline(always)]
    pub fn seen(&self, id: SubscriberId) -> usize
        requires { id < length self.now.cursors }
        ensures value { IfSome (slice_get self.now.cursors id) (λ cursor. result ≡ cursor.seen) }
        ensures small { result < 2 ^ 44 }
    {
        self.cursors[id.index()].seen
    }

    /// Moves the subscriber's cursor past the change where it stands, which is one that it wants:
    /// it was offered.
    #[inline(always)]
    pub fn advance_cursor(&mut self, id: SubscriberId)
        requires { StandsAtWanted self.old id }
        ensures { AdvancesCursor self.old id self.new }
    {
        self.move_on(id, 1);
    }
}
