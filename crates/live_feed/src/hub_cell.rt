//! What the consolidator's lock guards.

ghost use Rattle.std.specs.Prelude.{◌≡◌, ◌≤◌, IfOk, IfErr, OnErr};
ghost use Rattle.filter_terms.specs.declared.terms.Terms.{Terms};
ghost use Rattle.filter_terms.specs.Copies.{IsCopy};
ghost use Rattle.filter_terms.specs.Filters.{terms_of};
ghost use Rattle.journal_book.specs.Journals.{RefusesSubscribe};
ghost use Rattle.hub_lanes.specs.Sections.{AddsSubscriber};
ghost use Rattle.hub_lanes.specs.Turns.{TakesTurn};

use feed_steps::FeedName;
use feed_types::{Genuine, Notice, SubscriberId};
use fifo_lane::{Receiver, RisingNotices};
use filter_terms::Filter;
use hub_lanes::{Consolidated, ConsolidatorState, offer_each, take_turn};
use journal_book::JournalFault;
use live_wakeups::Wakeups;
use std::sync::Wait;

/// The journal and the lanes that meet at it, with the subscribers' filters beside them.
#[derive(Drop)]
pub struct HubCell<G: Genuine, N: FeedName> {
    /// The journal and the lanes.
    pub core: ConsolidatorState<G, N>,
    pub(crate) filters: Vec<Filter>,
    /// The number of the venue with which the consolidator's next turn begins, or past the last one
    /// where it begins with the first.
    pub(crate) next: usize,
}

impl<G: Genuine, N: FeedName> HubCell<G, N> {
    /// Adds a subscriber, to whom nothing was offered, and gives its id and the receiving end of
    /// its lane. It is refused, with the filter, as TooManySubscribers where there are 32, as
    /// TooLate where not all changes are kept and there is one, else as NoMemory.
    pub(crate) fn subscribe(
        &mut self,
        filter: Filter,
    ) -> Result<(SubscriberId, Receiver<Notice, RisingNotices>), (JournalFault, Filter)>
        ensures added { IfOk result (λ made. (copy : Terms) × IsCopy (terms_of filter) copy
            × AddsSubscriber N.lanes copy made.0 made.1 self.old.core self.new.core) }
        ensures back { IfErr result (λ refused. refused.1 ≡ filter) }
        ensures order { IfErr result
            (λ refused. RefusesSubscribe self.old.core.journal refused.0) }
        ensures refused { OnErr result (self.new.core ≡ self.old.core) }
    {
        if !self.core.has_subscriber_room() {
            return Err((JournalFault::TooManySubscribers, filter));
        }
        if self.core.is_late() {
            return Err((JournalFault::TooLate, filter));
        }
        if self.filters.reserve(1).is_err() {
            return Err((JournalFault::NoMemory, filter));
        }
        let Ok(terms) = filter.terms().clone() else {
            return Err((JournalFault::NoMemory, filter));
        };
        match self.core.subscribe(terms) {
            Ok(made) => {
                self.filters.push_reserved(filter);
                Ok(made)
            }
            Err((fault, _)) => Err((fault, filter)),
        }
    }

    /// Journals what is in the venues' lanes, and then offers each subscriber what it wants.
    pub(crate) fn take_turn<W: Wait>(&mut self, rt: &W, wakeups: &Wakeups) -> Consolidated
        ensures most { result.consumed ≤ 64 }
        ensures turn { TakesTurn G.Genuine N.lanes result.consumed result.offered
            result.unfinished result.refused self.old.core self.new.core }
    {
        let HubCell {
            core,
            filters,
            next,
        } = self;
        take_turn(rt, core, filters.as_slice(), next, wakeups)
    }

    /// Offers each subscriber what it wants, and journals nothing.
    pub(crate) fn offer_alone<W: Wait>(&mut self, rt: &W, wakeups: &Wakeups) -> Consolidated {
        let HubCell { core, filters, .. } = self;
        let offers = offer_each(rt, core, filters.as_slice(), wakeups);
        let mut done = Consolidated::nothing();
        done.offered = offers.pushed;
        done.unfinished = offers.unfinished;
        done
    }
}
