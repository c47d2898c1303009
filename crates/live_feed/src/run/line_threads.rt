//! The threads of a run's lines.

ghost use Rattle.std.specs.Prelude.{◌≡◌, ◌≤◌, [], MatchResult, vec_len, vec_capacity};
ghost use Rattle.live_feed.specs.run.Runs.{Pairwise, HasTaken, LineHasEnded};

use crate::lists::made_of_each;
use crate::run::line::{Line, LineEnd};
use crate::run::line_work::{LinePromise, work_line};
use crate::run::names::name_line;
use crate::run::signals::Signals;
use crate::run::threads::ThreadOf;
use feed_steps::FeedName;
use feed_types::Genuine;
use std::snapshot::Snapshot;
use std::sync::Wait;
use std::thread::{Scope, Threads};
use venue_lines::{LineSource, VenueLocks};

/// A line's thread, or the line where none could be started: it has read nothing.
pub(crate) type LineThread<G, N, S> = ThreadOf<LineEnd<G, N, S>, LinePromise<G, N, S>>;

/// Starts a thread for a line. Where none can be started, the run stops early.
fn start_line<'s, E, G, N, S, R>(
    rt: &'s R,
    scope: &Scope<'s, E>,
    venues: &'s VenueLocks<G, N>,
    signals: &'s Signals,
    line: Line<G, N, S>,
) -> LineThread<G, N, S>
where
    G: Genuine + Send + Sync + 's,
    N: FeedName + Send + Sync + 's,
    S: LineSource<G> + Send + 's,
    R: Threads + Wait + Sync,
    ensures { MatchResult result
        (λ handle. (handle.promise.seat.value ≡ line.seat)
        × (handle.promise.source.value ≡ line.source))
        (LineHasEnded (HasTaken G.Genuine N.lanes) S.brings S.failures line.seat line.source) }
{
    let promise = LinePromise {
        seat: Snapshot::of(&line.seat),
        source: Snapshot::of(&line.source),
    };
    let job = move || -> LineEnd<G, N, S>
        ensures { LineHasEnded (HasTaken G.Genuine N.lanes) S.brings S.failures line.seat
            line.source result }
    {
        if !signals.has_spawn_failed() {
            name_line(line.seat.venue(), line.seat.line());
        }
        work_line(rt, venues, signals, line)
    };
    match scope.spawn_with(promise, job) {
        Ok(handle) => Ok(handle),
        Err(refused) => {
            signals.note_spawn_failure();
            Err((refused.value)())
        }
    }
}

/// Starts a thread for each line, in order. Where one can't be started, the run stops early.
pub(crate) fn start_lines<'s, E, G, N, S, R>(
    rt: &'s R,
    scope: &Scope<'s, E>,
    venues: &'s VenueLocks<G, N>,
    signals: &'s Signals,
    lines: Vec<Line<G, N, S>>,
    threads: Vec<LineThread<G, N, S>>,
) -> Vec<LineThread<G, N, S>>
where
    G: Genuine + Send + Sync + 's,
    N: FeedName + Send + Sync + 's,
    S: LineSource<G> + Send + 's,
    R: Threads + Wait + Sync,
    requires empty { threads.items ≡ [] }
    requires room { vec_len lines ≤ vec_capacity threads }
    ensures count { vec_len result ≡ vec_len lines }
    ensures threads { Pairwise (λ line thread. MatchResult thread
        (λ handle. (handle.promise.seat.value ≡ line.seat)
        × (handle.promise.source.value ≡ line.source))
        (LineHasEnded (HasTaken G.Genuine N.lanes) S.brings S.failures line.seat line.source))
        lines.items result.items }
{
    made_of_each(
        lines,
        threads,
        &|_, line| start_line(rt, scope, venues, signals, line),
    )
}
