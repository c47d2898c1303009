//! A turn of the consolidator: its work under its lock taken once.

ghost use Rattle.std.specs.Prelude.{◌≡◌, ◌⊎◌, ◌≤◌, ◌<◌, ◌+◌, None, length};
ghost use Rattle.hub_lanes.specs.Turns.{ConsumesRound, TakesTurn};

use crate::calls::{consume_some, offer_each};
use crate::journal_and_lanes::ConsolidatorState;
use feed_steps::FeedName;
use feed_types::{Genuine, MAX_VENUES, VenueId};
use filter_terms::Filter;
use journal_book::JournalFault;
use live_wakeups::{FeedTimes, Wakeups};
use std::sync::Wait;

/// The most items that are journaled in one section, so that nobody waits long for the lock, nor
/// the notices of one item for many other items.
const ITEMS_A_SECTION: u32 = 64;

/// The work of one turn.
#[derive(Clone, Copy, Debug, PartialEq, Eq)]
pub struct Consolidated {
    /// The number of items that were journaled, of all venues.
    pub consumed: u32,
    /// By the venue's number, whether an item of it was journaled.
    pub venues: [bool; MAX_VENUES],
    /// The number of notices that were offered, to all subscribers.
    pub offered: u64,
    /// Whether changes are left that weren't looked at for a subscriber. The next turn goes on
    /// there.
    pub unfinished: bool,
    /// The refusal of journaling, if there was one: JournalFull, NoMemory or SubscriberBehind.
    pub refused: Option<JournalFault>,
}

impl Consolidated {
    /// Returns the work of a turn that has done nothing yet.
    pub fn nothing() -> Consolidated
        ensures none { result.consumed ≡ 0 }
        ensures sound { result.refused ≡ None }
    {
        Consolidated {
            consumed: 0,
            venues: [false; MAX_VENUES],
            offered: 0,
            unfinished: false,
            refused: None,
        }
    }
}

/// Returns the venue that comes `step` places after the venue at `first`, after the last one the
/// first.
fn venue_after(first: usize, step: usize, venues: usize) -> VenueId
    requires known { (first < venues) × (step < venues) }
    requires few { venues ≤ 16 }
    ensures place { (result ≡ first + step) ⊎ (result + venues ≡ first + step) }
    ensures below { result < venues }
{
    let place = first + step;
    if place < venues {
        VenueId::at(place)
    } else {
        VenueId::at(place - venues)
    }
}

/// Returns the number of the venue with which a turn begins: `next`, or 0 where that is past the
/// last venue.
fn first_place<G: Genuine, N: FeedName>(core: &ConsolidatorState<G, N>, next: usize) -> usize
    ensures { (result ≡ 0) ⊎ (result < length N.lanes.venues) }
{
    if next < core.venue_count() { next } else { 0 }
}

/// Returns no handle to wait by, in place of this one: who is passed it waits for nobody.
pub fn without_waiting<W>(_rt: &W) -> Option<&W>
    ensures { result ≡ None }
{
    None
}

/// Journals what is in the venues' lanes, at most 64 items, up to the first refusal. It begins with
/// the venue at `next`, and stores there the one after the last that it asked, so that no venue
/// waits for ever. It waits for no sender.
fn consume_round<G: Genuine, N: FeedName, W: Wait>(
    rt: &W,
    core: &mut ConsolidatorState<G, N>,
    next: &mut usize,
    times: &FeedTimes,
) -> Consolidated
    ensures most { result.consumed ≤ 64 }
    ensures round { ConsumesRound G.Genuine N.lanes result.consumed result.refused
        core.old core.new }
{
    let mut done = Consolidated::nothing();
    let venues = core.venue_count();
    let first = first_place(core, *next);
    for step in 0..venues {
        let left = ITEMS_A_SECTION - done.consumed;
        if left == 0 {
            break;
        }
        let venue = venue_after(first, step, venues);
        *next = venue.index() + 1;
        match consume_some(without_waiting(rt), core, venue, left, times) {
            Ok(count) => {
                done.consumed += count;
                done.venues[venue.index()] = count > 0;
            }
            Err(fault) => {
                done.refused = Some(fault);
                break;
            }
        }
    }
    done
}

/// Journals what is in the venues' lanes, at most 64 items, and then offers each subscriber what it
/// wants. The subscribers' filters are lent. The turn begins with the venue at `next`, or the first
/// where that is past the last one, and stores there the one with which the next turn begins.
#[tactic(auto, using(crate::proofs::Turns::turn_taken))]
pub fn take_turn<G: Genuine, N: FeedName, W: Wait>(
    rt: &W,
    core: &mut ConsolidatorState<G, N>,
    filters: &[Filter],
    next: &mut usize,
    wakeups: &Wakeups,
) -> Consolidated
    ensures most { result.consumed ≤ 64 }
    ensures turn { TakesTurn G.Genuine N.lanes result.consumed result.offered result.unfinished
        result.refused core.old core.new }
{
    let mut done = consume_round(rt, core, next, wakeups.times());
    let offers = offer_each(rt, core, filters, wakeups);
    done.offered = offers.pushed;
    done.unfinished = offers.unfinished;
    done
}
