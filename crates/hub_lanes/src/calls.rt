//! The sections that calls of a feed have under the consolidator's lock.

ghost use Rattle.std.specs.Prelude.{◌≡◌, ◌<◌, ◌≤◌, ◌↔◌, length, IfOk, IfSome, IfNone, IsErrOf};
ghost use Rattle.hub_lanes.specs.Sections.{Consumes};
ghost use Rattle.hub_lanes.specs.Batches.{ConsumesBatch};
ghost use Rattle.hub_lanes.specs.Offers.{LacksSubscriber, Offers, OffersAll, OffersUpTo};

use crate::journal_and_lanes::ConsolidatorState;
use feed_steps::{FeedName, Unsent};
use feed_types::{Genuine, SubscriberId, VenueId};
use filter_terms::Filter;
use journal_book::{JournalFault, Unfinished};
use live_wakeups::{FeedTimes, Wakeups};
use std::sync::Wait;

/// The most changes that are looked at for a subscriber in one section, so that nobody waits long
/// for the lock where one comes late.
const CHANGES_A_SECTION: usize = 1_024;

/// Journals the next item of the venue's lane, and returns its position; None where the lane is
/// empty. A refused call changes nothing. It waits for a sender that stands in the middle of its
/// push.
pub fn consume_next<G: Genuine, N: FeedName, W: Wait>(
    rt: &W,
    core: &mut ConsolidatorState<G, N>,
    venue: VenueId,
    times: &FeedTimes,
) -> Result<Option<u64>, JournalFault>
    ensures unknown { IsErrOf result JournalFault.UnknownVenue ↔ (length N.lanes.venues ≤ venue) }
    ensures consumes { venue < length N.lanes.venues
        → Consumes venue result core.old core.new }
{
    if venue.index() >= core.venue_count() {
        return Err(JournalFault::UnknownVenue);
    }
    let consumed = core.consume(Some(rt), venue);
    if let Ok(Some(_)) = consumed {
        core.note_item(times, venue);
    }
    consumed
}

/// Journals the items that are in the venue's lane, at most `most`, and returns how many there
/// were. UnknownVenue, else a refusal where it comes before any of them, whether or not there is
/// one; then nothing has changed. It waits for a sender that stands in the middle of its push, or
/// with no handle for nobody.
#[inline(always)]
pub fn consume_some<G: Genuine, N: FeedName, W: Wait>(
    rt: Option<&W>,
    core: &mut ConsolidatorState<G, N>,
    venue: VenueId,
    most: u32,
    times: &FeedTimes,
) -> Result<u32, JournalFault>
    ensures unknown { IsErrOf result JournalFault.UnknownVenue ↔ (length N.lanes.venues ≤ venue) }
    ensures most { IfOk result (λ count. count ≤ most) }
    ensures batch { ConsumesBatch N.lanes venue
        most result core.old core.new }
{
    if venue.index() >= core.venue_count() {
        return Err(JournalFault::UnknownVenue);
    }
    for count in 0..most {
        match core.consume(rt, venue) {
            Ok(Some(_)) => core.note_item(times, venue),
            Ok(None) => return Ok(count),
            Err(fault) => return if count == 0 { Err(fault) } else { Ok(count) },
        }
    }
    Ok(most)
}

/// The notices that were pushed to one subscriber, or to all.
#[derive(Clone, Copy, Debug, PartialEq, Eq)]
pub struct Offered {
    /// How many these are.
    pub pushed: u64,
    /// Whether changes are left that weren't looked at for a subscriber.
    pub unfinished: bool,
}

/// Wakes the subscriber's thread where notices were pushed.
#[inline(always)]
fn wake(wakeups: &Wakeups, id: SubscriberId, pushed: u64) {
    if pushed > 0 {
        wakeups.notices(id).notify_all();
    }
}

/// Offers the subscriber what it wants, until there is nothing more or its lane is full, and wakes
/// its thread where notices were pushed. It looks at no change past number `to` for it. A full lane
/// is looked at once more, after it was noted that room is wanted.
#[inline(always)]
fn offer_up_to<G: Genuine, N: FeedName, W: Wait>(
    rt: &W,
    core: &mut ConsolidatorState<G, N>,
    filters: &[Filter],
    wakeups: &Wakeups,
    id: SubscriberId,
    to: usize,
) -> Offered
    requires { id < length core.old.journal.cursors }
    ensures { OffersUpTo id to result.pushed result.unfinished core.old core.new }
{
    core.show_lock_invariant();
    let mut pushed: u64 = 0;
    for _ in rt.forever() {
        let answer = match core.offer(rt, id, filters.get(id.index()), to) {
            Ok(answer) => answer,
            Err(Unfinished) => {
                wake(wakeups, id, pushed);
                return Offered {
                    pushed,
                    unfinished: true,
                };
            }
        };
        match answer {
            Ok(_) => pushed = pushed.saturating_add(1),
            Err(Unsent::LaneFull) if !wakeups.is_room_wanted(id) => wakeups.want_room(id),
            Err(unsent) => {
                if unsent == Unsent::Nothing {
                    wakeups.clear_room_wanted(id);
                }
                wake(wakeups, id, pushed);
                return Offered {
                    pushed,
                    unfinished: false,
                };
            }
        }
    }
    unreachable!()
}

/// Offers the subscriber what it wants of all changes, until there is nothing more or its lane is
/// full, and wakes its thread where notices were pushed. Returns how many were; None where there is
/// no such subscriber.
#[tactic(auto, using(crate::proofs::Offers::all_looked_at))]
pub fn offer_some<G: Genuine, N: FeedName, W: Wait>(
    rt: &W,
    core: &mut ConsolidatorState<G, N>,
    filters: &[Filter],
    wakeups: &Wakeups,
    id: SubscriberId,
) -> Option<u64>
    ensures offers { IfSome result (λ pushed. Offers id pushed core.old core.new) }
    ensures none { IfNone result (LacksSubscriber id core.old core.new) }
{
    if !core.has(id) {
        return None;
    }
    let to = core.change_count();
    Some(offer_up_to(rt, core, filters, wakeups, id, to).pushed)
}

/// Offers each subscriber what it wants, and looks at no more than 1,024 changes for each.
pub fn offer_each<G: Genuine, N: FeedName, W: Wait>(
    rt: &W,
    core: &mut ConsolidatorState<G, N>,
    filters: &[Filter],
    wakeups: &Wakeups,
) -> Offered
    ensures { OffersAll result.pushed result.unfinished core.old core.new }
{
    let mut offered: u64 = 0;
    let mut unfinished = false;
    for place in 0..core.subscriber_count() {
        let id = SubscriberId::at(place);
        let to = core.look_limit(id, CHANGES_A_SECTION);
        let done = offer_up_to(rt, core, filters, wakeups, id, to);
        offered = offered.saturating_add(done.pushed);
        unfinished |= done.unfinished;
    }
    Offered {
        pushed: offered,
        unfinished,
    }
}
