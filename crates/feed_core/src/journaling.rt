//! The events that change the machine's journal.

ghost use Rattle.std.specs.Prelude.{◌≡◌, ◌<◌, IfOk, OnOk};
ghost use Rattle.feed_steps.specs.Steps.{consume_next, AppliesTo};
ghost use Rattle.feed_core.specs.Steps.{declare_help, next_out};
ghost use Rattle.feed_core.specs.Fitting.{intake_of, KeepsJournal};

use crate::venue::VenueState;
use feed_steps::Done;
use feed_types::VenueId;
use journal_book::{Journal, JournalFault};
use std::alloc::AllocError;

/// Consume: the next item of the venue's lane goes into the journal.
pub(crate) fn consume(
    journal: &mut Journal,
    venue: VenueId,
    state: &mut VenueState,
) -> Result<Done, AllocError>
    requires { venue < journal.old.venues }
    ensures comes { IfOk result (λ d. AppliesTo
        (consume_next journal.old.journal venue (next_out state.old.lane)
        (intake_of state.old.lane journal.old))
        (intake_of state.old.lane journal.old) d (intake_of state.new.lane journal.new)) }
    ensures state { OnOk result (state.new
        ≡ record state.old {
          lane = record state.old.lane { received = state.new.lane.received };
        }) }
    ensures kept { KeepsJournal journal.old journal.new }
{
    match journal.reserve_one() {
        Ok(()) => {}
        Err(JournalFault::JournalFull) => return Ok(Done::Refused(17)),
        Err(_) => return Err(AllocError),
    }
    let Some(next) = state.next() else {
        return Ok(Done::LaneEmpty);
    };
    let position = journal.record(venue, next);
    Ok(Done::Consumed(position))
}

/// Declare: self-help on the venue is on from here (`on`), or off.
pub(crate) fn declare(journal: &mut Journal, venue: VenueId, on: bool) -> Result<Done, AllocError>
    requires { venue < journal.old.venues }
    ensures comes { IfOk result (λ d. AppliesTo
        (declare_help journal.old.journal venue on journal.old.entries)
        journal.old.entries d journal.new.entries) }
    ensures kept { KeepsJournal journal.old journal.new }
{
    match journal.declare(venue, on) {
        Ok(position) => Ok(Done::Declared(position)),
        Err(JournalFault::AlreadySo) => Ok(Done::Refused(19)),
        Err(JournalFault::JournalFull) => Ok(Done::Refused(17)),
        Err(_) => Err(AllocError),
    }
}
