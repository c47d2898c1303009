//! Who watches a run, beside its attendant.

use crate::run::attendant::{Attendant, Attended, OwnLog, RunView};
use crate::run::names::name_watcher;
use crate::run::signals::Signals;
use feed_steps::FeedName;
use feed_types::{Genuine, SubscriberId};
use std::marker::PhantomData;
use std::snapshot::Snapshot;
use std::sync::Wait;
use std::thread::{Promise, Scope, Threads};
use venue_lines::VenueLocks;

/// Who watches a run, in a thread of its own. It has no subscriber, and waits for nobody: not for
/// the attendant either, whatever that waits for.
pub trait Watcher<G: Genuine, N: FeedName>: Drop {
    /// Watching a run makes the one state of the other: it is the same watcher, later on.
    ghost watches: { Self → Self → Type 0 };

    /// Whether it has anything to do beside a run. A run has a thread for it only then; else it
    /// watches once the attendant has returned.
    fn is_busy(&self) -> bool {
        true
    }

    /// Watches a run, and returns the watcher. The run's report waits for that, so it returns once
    /// the run is over ([`RunView::is_over`]), if not before.
    fn watch<R: Threads + Wait + Sync>(self, rt: &R, run: &RunView<'_, G, N>) -> Self
        ensures { watches self result };
}

/// Nobody: a run with it is watched by none.
#[derive(Clone, Copy, Debug, Drop)]
pub struct Unwatched;

impl<G: Genuine, N: FeedName> Watcher<G, N> for Unwatched {
    ghost use Rattle.std.specs.Prelude.{◌≡◌};

    ghost watches = { λ before after. after ≡ before };

    fn is_busy(&self) -> bool {
        false
    }

    fn watch<R: Threads + Wait + Sync>(self, _rt: &R, _run: &RunView<'_, G, N>) -> Unwatched {
        self
    }
}

/// The watcher that a thread has. The thread returns the same watcher, later on.
#[derive(Drop)]
struct WatcherOf<G, N, W> {
    watcher: Snapshot<W>,
    genuine: PhantomData<G>,
    feed: PhantomData<N>,
}

impl<G: Genuine, N: FeedName, W: Watcher<G, N>> Promise<W> for WatcherOf<G, N, W> {
    ghost kept_by = { λ p r. W.watches p.watcher.value r };
}

/// Has the watcher watch the run here.
fn watch_here<'s, G, N, W, R>(
    rt: &R,
    venues: &'s VenueLocks<G, N>,
    signals: &'s Signals,
    own: Option<SubscriberId>,
    watcher: W,
) -> W
where
    G: Genuine,
    N: FeedName,
    W: Watcher<G, N>,
    R: Threads + Wait + Sync,
    ensures { W.watches watcher result }
{
    let view = RunView {
        venues,
        signals,
        own,
    };
    watcher.watch(rt, &view)
}

/// Has the attendant attend the run, and says then that it polls no more.
fn attend_here<'s, G, N, A, R>(
    rt: &R,
    venues: &'s VenueLocks<G, N>,
    signals: &'s Signals,
    attended: Attended<N, A>,
) -> Attended<N, A>
where
    G: Genuine,
    N: FeedName,
    A: Attendant<G, N, OwnLog<N>>,
    R: Threads + Wait + Sync,
    ensures { A.attends attended.attendant attended.log result.attendant result.log }
{
    let view = RunView {
        venues,
        signals,
        own: attended.id(),
    };
    let attended = attended.attend(rt, &view);
    attended.set_polling(false);
    attended
}

/// Has the watcher watch the run, in a thread of its own, and the attendant attend it here, and
/// waits for both. Where no thread can be had, the run stops early, and the watcher watches its end
/// here: once the attendant has returned, since the run may wait for its polls until then.
pub(crate) fn attend_and_watch<'s, E, G, N, A, W, R>(
    rt: &'s R,
    scope: &Scope<'s, E>,
    venues: &'s VenueLocks<G, N>,
    signals: &'s Signals,
    attendance: Attended<N, A>,
    watcher: W,
) -> (Attended<N, A>, W)
where
    G: Genuine + Send + Sync + 's,
    N: FeedName + Send + Sync + 's,
    A: Attendant<G, N, OwnLog<N>>,
    W: Watcher<G, N> + Send + 's,
    R: Threads + Wait + Sync,
    ensures attended { A.attends attendance.attendant attendance.log
        result.0.attendant result.0.log }
    ensures watched { W.watches watcher result.1 }
{
    let own = attendance.id();
    if !watcher.is_busy() {
        let attendance = attend_here(rt, venues, signals, attendance);
        return (attendance, watch_here(rt, venues, signals, own, watcher));
    }
    let promise: WatcherOf<G, N, W> = WatcherOf {
        watcher: Snapshot::of(&watcher),
        genuine: PhantomData,
        feed: PhantomData,
    };
    let job = move || -> W
        ensures { W.watches watcher result }
    {
        if !signals.has_spawn_failed() {
            name_watcher();
        }
        watch_here(rt, venues, signals, own, watcher)
    };
    match scope.spawn_with(promise, job) {
        Ok(handle) => {
            let attendance = attend_here(rt, venues, signals, attendance);
            (attendance, handle.join(rt))
        }
        Err(refused) => {
            signals.note_spawn_failure();
            let attendance = attend_here(rt, venues, signals, attendance);
            (attendance, (refused.value)())
        }
    }
}
