//! The journal with the lanes that meet at it.

ghost use Rattle.std.specs.Prelude.{◌≡◌, ◌+◌, ◌≤◌, ◌<◌, ◌↔◌, length, slice_get, IfOk, IfSome, OnErr, IsTrue};
ghost use Rattle.journal_book.specs.Journals.{IsLate, changes};
ghost use Rattle.hub_lanes.specs.Hubs.{HubLockInvariant};
ghost use Rattle.hub_lanes.specs.Sections.{Consumes, DeclaresAt, KeepsButIntake, HubOffersOne, LooksOn, KeepsButOffersTo, HubSubscribes};

use crate::spare::SpareLane;
use feed_steps::{FeedName, Unsent};
use feed_types::{Genuine, Notice, Numbered, SubscriberId, VenueId};
use fifo_lane::{Receiver, RisingNotices, Sender, VenueItems};
use filter_terms::{Filter, Terms};
use journal_book::{Journal, JournalFault, Unfinished};
use live_wakeups::{FeedTimes, NotedTimes};
use std::collections::VecDeque;
use std::marker::{Model, PhantomData};
use std::sync::Wait;

/// The journal, the receiving ends of the venues' lanes and the sending ends of the subscribers'.
pub type HubParts<G> = (
    Journal,
    Vec<Receiver<Numbered, VenueItems<G>>>,
    Vec<Sender<Notice, RisingNotices>>,
);

/// The journal, the receiving ends of the venues' lanes, and the sending ends of the subscribers'.
///
/// Whenever the lock is free, each venue's items in the entries are what its receiver popped, and
/// what was sent to each subscriber is what it wants of the changes that were looked at for it
/// (`HubLockInvariant` in `specs/Hubs.antt`). It holds no closure.
#[derive(Drop)]
pub struct ConsolidatorState<G: Genuine, N: FeedName> {
    kept: Journal,
    from_venues: Vec<Receiver<Numbered, VenueItems<G>>>,
    to_subscribers: Vec<Sender<Notice, RisingNotices>>,
    spare_lanes: VecDeque<SpareLane>,
    noted: NotedTimes,
    feed: PhantomData<N>,
}

impl<G: Genuine, N: FeedName> Model for ConsolidatorState<G, N> {
    ghost use Rattle.std.specs.Coded.{codes};
    ghost use Rattle.filter_terms.specs.contracts.terms.Terms as terms_type;
    ghost use Rattle.hub_lanes.specs.Hubs.{HubState, HubLockInvariant};

    ghost Value = { HubState };

    ghost coded = { Prim.hlevel (codes, terms_type.the_row.coded) };

    ghost view = { λ h. record {
      journal = h.kept;
      receivers = h.from_venues.items;
      senders = h.to_subscribers.items;
      spare = h.spare_lanes.items;
    } };

    ghost invariant = { λ h. HubLockInvariant G.Genuine N.lanes (record {
      journal = h.kept;
      receivers = h.from_venues.items;
      senders = h.to_subscribers.items;
      spare = h.spare_lanes.items;
    }) };
}

impl<G: Genuine, N: FeedName> ConsolidatorState<G, N> {
    /// A journal with the lanes of its venues, those of its subscribers, and those that are left
    /// for further ones.
    pub fn new(
        journal: Journal,
        receivers: Vec<Receiver<Numbered, VenueItems<G>>>,
        senders: Vec<Sender<Notice, RisingNotices>>,
        spare: VecDeque<SpareLane>,
    ) -> ConsolidatorState<G, N>
        requires { HubLockInvariant G.Genuine N.lanes (record {
          journal = journal;
          receivers = receivers.items;
          senders = senders.items;
          spare = spare.items;
        }) }
        ensures { result ≡ record {
          journal = journal;
          receivers = receivers.items;
          senders = senders.items;
          spare = spare.items;
        } }
    {
        ConsolidatorState {
            kept: journal,
            from_venues: receivers,
            to_subscribers: senders,
            spare_lanes: spare,
            noted: NotedTimes::nothing(),
            feed: PhantomData,
        }
    }

    /// Returns the parts that the lock guarded, once it is gone.
    pub fn into_parts(self) -> HubParts<G>
        ensures parts { (result.0 ≡ self.journal) × (result.1.items ≡ self.receivers)
            × (result.2.items ≡ self.senders) }
        ensures hub { HubLockInvariant G.Genuine N.lanes self }
    {
        let ConsolidatorState {
            kept,
            from_venues,
            to_subscribers,
            spare_lanes: _,
            noted: _,
            feed: _,
        } = self;
        (kept, from_venues, to_subscribers)
    }

    /// Does nothing: it says what is so whenever the consolidator's lock is free.
    #[inline(always)]
    pub fn show_lock_invariant(&self)
        ensures { HubLockInvariant G.Genuine N.lanes self.now }
    {
        // for the prover: the invariant is known where a field is used
        let _ = &self.kept;
    }

    /// The journal.
    pub fn journal(&self) -> &Journal
        ensures { result.now ≡ self.now.journal }
    {
        &self.kept
    }

    /// The sending ends of the subscribers' lanes.
    pub fn senders(&self) -> &[Sender<Notice, RisingNotices>]
        ensures value { result.now ≡ self.now.senders }
        ensures count { length result.now ≡ length self.now.journal.cursors }
    {
        self.to_subscribers.as_slice()
    }

    /// The number of venues.
    pub fn venue_count(&self) -> usize
        ensures value { result ≡ self.now.journal.venues }
        ensures lanes { result ≡ length N.lanes.venues }
        ensures few { result ≤ 16 }
        ensures receivers { result ≡ length self.now.receivers }
    {
        self.from_venues.len()
    }

    /// The number of subscribers.
    pub fn subscriber_count(&self) -> usize
        ensures count { result ≡ length self.now.journal.cursors }
        ensures few { result ≤ 32 }
    {
        self.kept.subscriber_count()
    }

    /// Whether one more subscriber is taken.
    pub fn has_subscriber_room(&self) -> bool
        ensures { IsTrue result ↔ (length self.now.journal.cursors < 32) }
    {
        self.kept.has_subscriber_room()
    }

    /// Whether it is too late for a further subscriber.
    pub fn is_late(&self) -> bool
        ensures { IsTrue result ↔ IsLate self.now.journal }
    {
        self.kept.is_late()
    }

    /// Whether there is a subscriber of this id.
    pub fn has(&self, id: SubscriberId) -> bool
        ensures known { IsTrue result ↔ (id < length self.now.journal.cursors) }
        ensures senders { length self.now.senders ≡ length self.now.journal.cursors }
    {
        self.kept.has(id)
    }

    /// Journals the next item of the venue's lane. All room is made before it is popped. It waits
    /// for a sender that stands in the middle of its push, or with no handle for nobody.
    // Inlined, so that only one of the two ways of a pop is left where it is known which.
    #[inline(always)]
    pub fn consume<W: Wait>(
        &mut self,
        rt: Option<&W>,
        venue: VenueId,
    ) -> Result<Option<u64>, JournalFault>
        requires { venue < self.old.journal.venues }
        ensures consume { Consumes venue result self.old self.new }
        ensures kept { KeepsButIntake self.old self.new }
        ensures refused { OnErr result (self.new ≡ self.old) }
    {
        match self.kept.reserve_one() {
            Ok(()) => {}
            Err(fault) => return Err(fault),
        }
        let receiver = &mut self.from_venues[venue.index()];
        let Some(numbered) = receiver.pop_by(rt) else {
            return Ok(None);
        };
        Ok(Some(self.kept.record(venue, numbered)))
    }

    /// Notes the time of the venue's item that was journaled last, where times are kept.
    #[inline(always)]
    pub(crate) fn note_item(&mut self, times: &FeedTimes, venue: VenueId)
        ensures { self.new ≡ self.old }
    {
        if times.are_kept() {
            let changes = self.kept.change_count();
            times.note_item(&mut self.noted, venue, changes);
        }
    }

    /// Declares self-help on the venue, or withdraws it, and returns the entry's position. The
    /// changes that it makes have no time: no item caused them.
    pub fn declare(&mut self, venue: VenueId, on: bool) -> Result<u64, JournalFault>
        ensures declares { DeclaresAt venue on result self.old self.new }
        ensures venues { self.old.journal.venues ≡ length N.lanes.venues }
    {
        let declared = self.kept.declare(venue, on);
        self.noted.pass_changes(self.kept.change_count());
        declared
    }

    /// Adds a subscriber of these terms, and returns its id and the receiving end of its lane.
    pub fn subscribe(
        &mut self,
        terms: Terms,
    ) -> Result<(SubscriberId, Receiver<Notice, RisingNotices>), (JournalFault, Terms)>
        ensures { HubSubscribes N.lanes terms result self.old self.new }
    {
        if !self.kept.has_subscriber_room() {
            return Err((JournalFault::TooManySubscribers, terms));
        }
        if self.kept.is_late() {
            return Err((JournalFault::TooLate, terms));
        }
        if self.to_subscribers.reserve(1).is_err() {
            return Err((JournalFault::NoMemory, terms));
        }
        let id = match self.kept.subscribe(terms) {
            Ok(id) => id,
            Err(refused) => return Err(refused),
        };
        let Some(spare) = self.spare_lanes.pop_front() else {
            unreachable!()
        };
        let SpareLane { sender, receiver } = spare;
        self.to_subscribers.push_reserved(sender);
        Ok((id, receiver))
    }

    /// How many changes the journal's entries made.
    pub fn change_count(&self) -> usize
        ensures { result ≡ length (changes self.now.journal) }
    {
        self.kept.change_count()
    }

    /// The number of the last change to look at for the subscriber where no more than `most` are of
    /// those that weren't looked at for it.
    #[inline(always)]
    pub(crate) fn look_limit(&self, id: SubscriberId, most: usize) -> usize
        requires known { id < length self.now.journal.cursors }
        requires few { most ≤ 1024 }
        ensures { IfSome (slice_get self.now.journal.cursors id)
            (λ cursor. result ≡ cursor.seen + most) }
    {
        self.kept.seen(id) + most
    }

    /// Pushes the next notice that the subscriber wants, whose filter is `filter`. It looks at no
    /// change past number `to` for it: `Unfinished` where none of those is wanted, and there are
    /// more.
    #[inline(always)]
    pub fn offer<W: Wait>(
        &mut self,
        rt: &W,
        id: SubscriberId,
        filter: Option<&Filter>,
        to: usize,
    ) -> Result<Result<u64, Unsent>, Unfinished>
        requires { id < length self.old.journal.cursors }
        ensures offer { IfOk result (λ answer. HubOffersOne id answer self.old self.new) }
        ensures looks { OnErr result (LooksOn id to self.old self.new) }
        ensures kept { KeepsButOffersTo id self.old self.new }
    {
        let most = to.saturating_sub(self.kept.seen(id));
        let found = match self.kept.seek_offer(id, filter, most) {
            Ok(found) => found,
            Err(unfinished) => return Err(unfinished),
        };
        let Some(notice) = found else {
            return Ok(Err(Unsent::Nothing));
        };
        let number = notice.number;
        let sender = &mut self.to_subscribers[id.index()];
        match sender.push(rt, notice) {
            Ok(()) => {
                self.kept.advance_cursor(id);
                Ok(Ok(number))
            }
            Err(_) => Ok(Err(Unsent::LaneFull)),
        }
    }
}
