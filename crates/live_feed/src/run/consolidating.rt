//! The work of the consolidator's thread.

use crate::feed::open_feed::OpenFeed;
use crate::feed::sharing::Shareable;
use crate::run::idle::{back_off, lets_others_run, should_sleep};
use crate::run::kept_lock::KeptLock;
use crate::run::names::name_consolidator;
use crate::run::report::Stop;
use crate::run::signals::Signals;
use feed_steps::FeedName;
use feed_types::{Genuine, MAX_SUBSCRIBERS, MAX_VENUES, SubscriberId, VenueId};
use hub_lanes::Consolidated;
use journal_book::JournalFault;
use live_wakeups::Wakeups;
use std::sync::Wait;
use std::thread::{JoinHandle, Scope, Threads};

/// The most items of a venue that the consolidator pushes in one section: a line that brings
/// something waits no longer.
const ITEMS_A_SECTION: u64 = 64;

/// Pushes what is ready of the venues, and returns whether anything was pushed: of each venue where
/// `all` is true, else of those where something was left before and the lane has run empty.
fn flush_each<G: Genuine, N: FeedName, W: Wait>(
    rt: &W,
    hub: &mut KeptLock<'_, G, N>,
    done: &Consolidated,
    all: bool,
) -> bool {
    let venues = &hub.feed.venues;
    let mut moved = false;
    for place in 0..venues.len().min(MAX_VENUES) {
        let venue = VenueId::at(place);
        if all || (!done.venues[venue.index()] && venues.has_backlog(venue)) {
            hub.let_go();
            let pushed = venues.flush_some(rt, venue, ITEMS_A_SECTION);
            moved = moved || pushed > 0;
        }
    }
    moved
}

/// What a look for work came to.
#[derive(Clone, Copy)]
enum Look {
    /// Something was done, or the next look may find something.
    Worked,
    /// There was nothing to do.
    Idle,
    /// Nothing can be journaled until a subscriber goes on, whose notices a thread takes.
    Behind,
    /// The same, but no thread takes the notices of one that is behind.
    Unpolled,
}

/// Returns why the run stops after this refusal of journaling; None where a subscriber that goes on
/// ends the refusal.
fn reason_of(fault: JournalFault) -> Option<Stop> {
    match fault {
        JournalFault::SubscriberBehind => None,
        JournalFault::NoMemory => Some(Stop::NoMemory),
        _ => Some(Stop::JournalFull),
    }
}

/// Returns whether notices are taken out of one of the lanes in which a notice waits for room; None
/// where there is no such lane.
fn is_full_lane_polled(wakeups: &Wakeups) -> Option<bool> {
    let mut is_polled = None;
    for place in 0..MAX_SUBSCRIBERS {
        let id = SubscriberId::at(place);
        if wakeups.is_room_wanted(id) {
            if wakeups.is_polled(id) {
                return Some(true);
            }
            is_polled = Some(false);
        }
    }
    is_polled
}

/// Takes a turn: journals and offers, or, where the run stops early, offers alone. Returns what
/// that came to.
fn run_turn<G: Genuine, N: FeedName, W: Wait>(
    rt: &W,
    hub: &mut KeptLock<'_, G, N>,
    signals: &Signals,
) -> Consolidated {
    if signals.is_stopped() {
        hub.offer_alone(rt)
    } else {
        hub.take_turn(rt)
    }
}

/// Returns what a look came to in which nothing was done, since a subscriber is behind. Whoever is
/// behind still has a full lane. Where no lane is full, the changes weren't wanted, and the next
/// look finds room in the journal.
fn look_behind(wakeups: &Wakeups) -> Look {
    match is_full_lane_polled(wakeups) {
        Some(true) => Look::Behind,
        Some(false) => Look::Unpolled,
        None => Look::Worked,
    }
}

/// Stops the run early where two looks in a row came to `Unpolled`: the first of them may have been
/// made before the last notice was taken.
fn stop_behind(before: Look, look: Look, signals: &Signals, stopped: &mut Option<Stop>) {
    if matches!((before, look), (Look::Unpolled, Look::Unpolled)) {
        signals.stop();
        *stopped = Some(Stop::SubscriberBehind);
    }
}

/// Takes a turn and then pushes, of each venue where `all` is true, and returns what that came to.
/// Where journaling is refused, and no subscriber that goes on ends that, the run stops early, and
/// `stopped` is why.
fn work_once<G: Genuine, N: FeedName, W: Wait>(
    rt: &W,
    hub: &mut KeptLock<'_, G, N>,
    signals: &Signals,
    all: bool,
    stopped: &mut Option<Stop>,
) -> Look {
    let done = run_turn(rt, hub, signals);
    let reason = done.refused.and_then(reason_of);
    if reason.is_some() {
        signals.stop();
        *stopped = reason;
    }
    let flushed = flush_each(rt, hub, &done, all);
    let is_more = done.unfinished || reason.is_some() || flushed;
    if done.consumed > 0 || done.offered > 0 || is_more {
        Look::Worked
    } else if done.refused.is_some() {
        look_behind(hub.feed.venues.wakeups())
    } else {
        Look::Idle
    }
}

/// Returns whether a notice waits for room in a lane out of which a thread takes notices.
fn is_room_wanted(wakeups: &Wakeups) -> bool {
    for place in 0..MAX_SUBSCRIBERS {
        let id = SubscriberId::at(place);
        if wakeups.is_polled(id) && wakeups.is_room_wanted(id) {
            return true;
        }
    }
    false
}

/// Journals what the lines bring and offers what the subscribers want, until the lines have ended
/// and nothing is left to do, and returns why the run stopped early, if journaling was the reason.
/// Once the lines have ended, what is ready is pushed in any case. It waits for a subscriber that
/// is behind, as long as a thread takes its notices: one of the run's or the attendant.
///
/// It keeps the consolidator's lock from look to look, as long as nobody else wants it. It sleeps
/// after it has looked in vain for a while. The wait is announced before the last of these looks,
/// so whatever comes after that look ends the sleep.
fn run_consolidator<G: Genuine, N: FeedName, W: Wait>(
    rt: &W,
    feed: &OpenFeed<G, N>,
    signals: &Signals,
) -> Option<Stop> {
    if !signals.has_spawn_failed() {
        name_consolidator();
    }
    let wakeups = feed.venues.wakeups();
    let mut hub = KeptLock::of(feed);
    let mut stopped = None;
    let mut first = true;
    let mut before = Look::Worked;
    let mut looks: u32 = 0;
    for _ in rt.forever() {
        let key = if should_sleep(looks) {
            Some(wakeups.work().prepare_wait())
        } else {
            None
        };
        let last = signals.have_lines_ended();
        let look = work_once(rt, &mut hub, signals, first || last, &mut stopped);
        first = false;
        stop_behind(before, look, signals, &mut stopped);
        before = look;
        match look {
            Look::Worked | Look::Unpolled => looks = 0,
            Look::Idle if last && !is_room_wanted(wakeups) => break,
            Look::Idle | Look::Behind => {
                if lets_others_run(looks) {
                    hub.let_go();
                }
                looks = back_off(rt, looks, key);
            }
        }
    }
    hub.let_go();
    signals.end_offers();
    wakeups.wake_subscribers();
    stopped
}

/// The consolidator's thread; or why the run stopped early, where none could be had for it.
pub(crate) type Consolidator = Result<JoinHandle<Option<Stop>>, Option<Stop>>;

/// Starts the consolidator's thread. Where none can be had the run stops early, and what is left to
/// do is done here, at once, since no line reads anything then.
pub(crate) fn start_consolidator<'s, E, G, N, R>(
    rt: &'s R,
    scope: &Scope<'s, E>,
    feed: &'s OpenFeed<G, N>,
    signals: &'s Signals,
) -> Consolidator
where
    G: Genuine + Send + Sync + 's,
    N: FeedName + Send + Sync + 's,
    R: Threads + Wait + Sync,
{
    feed.show_shareable();
    match scope.spawn(move || run_consolidator(rt, feed, signals)) {
        Ok(handle) => Ok(handle),
        Err(refused) => {
            signals.note_spawn_failure();
            Err((refused.value)())
        }
    }
}

/// Waits for the consolidator's thread, and returns why the run stopped early, if it did: the want
/// of a thread comes before any other reason.
pub(crate) fn join_consolidator<R: Threads>(
    rt: &R,
    consolidator: Consolidator,
    signals: &Signals,
) -> Option<Stop> {
    let stopped = match consolidator {
        Ok(handle) => handle.join(rt),
        Err(stopped) => stopped,
    };
    if signals.has_spawn_failed() {
        Some(Stop::NoThread)
    } else {
        stopped
    }
}
