//! The events between the machine's journal and one subscriber.

ghost use Rattle.std.specs.Prelude.{◌≡◌, ◌<◌, Some, length, slice_get, IfOk};
ghost use Rattle.journal_book.specs.Journals.{Subscription, subscriptions_of};
ghost use Rattle.journal_book.specs.Consolidators.{StaysButCursors};
ghost use Rattle.feed_core.specs.Worlds.{Subscriber};
ghost use Rattle.feed_steps.specs.Steps.{dequeue_next, AppliesTo};
ghost use Rattle.feed_core.specs.Steps.{next_out};
ghost use Rattle.feed_core.specs.Fitting.{FitsSubscriber, LeftOffered};

use crate::lane::Lane;
use feed_steps::Done;
use feed_types::{Best, National, Notice, SubscriberId, SymbolName, VenueId};
use filter_terms::Filter;
use journal_book::Journal;
use std::alloc::AllocError;

/// Offer: the next change that the subscriber wants goes into its lane, which holds `capacity`
/// notices.
pub(crate) fn offer(
    journal: &mut Journal,
    id: SubscriberId,
    filter: &Filter,
    lane: &mut Lane<Notice>,
    capacity: u32,
) -> Result<Done, AllocError>
    requires { id < length journal.old.cursors }
    ensures offers { IfOk result (λ d. (subscription : Subscription) (x : Subscriber)
        → slice_get (subscriptions_of journal.old) id ≡ Some subscription
        → FitsSubscriber subscription lane.old x
        → LeftOffered journal.old id capacity x d journal.new lane.new) }
    ensures stays { StaysButCursors journal.old journal.new }
    ensures known { length journal.new.cursors ≡ length journal.old.cursors }
{
    let Some(notice) = journal.next_offer(id, Some(filter)) else {
        return Ok(Done::NothingWanted);
    };
    if lane.is_full(capacity) {
        return Ok(Done::LaneFull);
    }
    // The prover is told here of the types that are nested in a notice.
    let _named: Option<(National, Best, SymbolName, VenueId)> = None;
    let number = notice.number;
    lane.put(notice)?;
    journal.advance_cursor(id);
    Ok(Done::Offered(number))
}

/// Dequeue: the next notice goes out of the lane.
pub(crate) fn dequeue(lane: &mut Lane<Notice>) -> Done
    ensures comes { AppliesTo (dequeue_next (next_out lane.old) lane.old.received)
        lane.old.received result lane.new.received }
    ensures others { lane.new ≡ record lane.old { received = lane.new.received } }
{
    match lane.next() {
        Some(notice) => Done::Dequeued(notice.number),
        None => Done::LaneEmpty,
    }
}
