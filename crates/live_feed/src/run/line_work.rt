//! The work of a line's thread.

ghost use Rattle.std.specs.Prelude.{◌≡◌, [], IfOk, IfErr};
ghost use Rattle.live_feed.specs.run.Runs.{HasTaken, LineHasEnded};
ghost use Rattle.venue_lines.specs.Sources.{failures_after};

use crate::run::line::{Line, LineEnd};
use crate::run::signals::Signals;
use feed_steps::FeedName;
use feed_types::{Genuine, VenueId};
use std::snapshot::Snapshot;
use std::sync::Wait;
use std::thread::Promise;
use venue_lines::{LineSeat, LineSource, Looked, SourceFault, VenueLocks};

/// The line that a thread has. What the thread returns is that line, ended.
#[derive(Drop)]
pub(crate) struct LinePromise<G, N, S> {
    pub(crate) seat: Snapshot<LineSeat<G, N>>,
    pub(crate) source: Snapshot<S>,
}

impl<G: Genuine, N: FeedName, S: LineSource<G>> Promise<LineEnd<G, N, S>> for LinePromise<G, N, S> {
    ghost use Rattle.live_feed.specs.run.Runs.{HasTaken, LineHasEnded};

    ghost kept_by = { λ p r. LineHasEnded (HasTaken G.Genuine N.lanes) S.brings
        S.failures p.seat.value p.source.value r };
}

/// Has the source send the request for the venue's gap that is due, if any: for one that has been
/// there for `wait_ms` milliseconds. Where there is no gap, nothing is due, and the clock isn't
/// read.
fn request_due<G: Genuine, N: FeedName, S: LineSource<G>, W: Wait>(
    rt: &W,
    venues: &VenueLocks<G, N>,
    venue: VenueId,
    gap: bool,
    wait_ms: u64,
    source: &mut S,
) -> Result<(), SourceFault>
    ensures venue { S.venue_of source.new ≡ S.venue_of source.old }
    ensures brings { S.brings source.old [] source.new }
    ensures sound { IfOk result (λ _. S.failures source.new ≡ S.failures source.old) }
    ensures failed { IfErr result (λ fault. S.failures source.new
        ≡ failures_after (S.failures source.old) fault) }
{
    if !gap {
        return Ok(());
    }
    let now_ms = source.now_ms();
    match venues.request_due(rt, venue, now_ms, wait_ms) {
        Ok(Some(request)) => source.request(&request),
        Ok(None) | Err(_) => Ok(()),
    }
}

/// Waits until the source has its next answer, and returns true; or false where the run is to stop
/// before that. An answer that is there is for the line, also where the run was stopped meanwhile:
/// the source has received it, and nobody else will take it. Where there is a `gap` and gaps wait
/// until they are asked for, what is due meanwhile is asked for.
fn is_next_there<G: Genuine, N: FeedName, S: LineSource<G>, W: Wait>(
    rt: &W,
    venues: &VenueLocks<G, N>,
    signals: &Signals,
    venue: VenueId,
    gap: bool,
    source: &mut S,
) -> Result<bool, SourceFault>
    ensures venue { S.venue_of source.new ≡ S.venue_of source.old }
    ensures brings { S.brings source.old [] source.new }
    ensures sound { IfOk result (λ _. S.failures source.new ≡ S.failures source.old) }
    ensures failed { IfErr result (λ fault. S.failures source.new
        ≡ failures_after (S.failures source.old) fault) }
{
    let wait_ms = signals.rules().request_after_ms;
    let asks = gap && wait_ms > 0;
    for _ in rt.forever() {
        if signals.is_stopped() || venues.wakeups().are_runs_ended() {
            break;
        }
        if source.await_next() {
            return Ok(true);
        }
        if let Err(failed) = request_due(rt, venues, venue, asks, wait_ms, source) {
            return Err(failed);
        }
    }
    Ok(false)
}

/// Reads the line's datagrams, and takes each and asks for what is lacking then, until the source
/// ends or fails or the run is to stop.
pub(crate) fn work_line<G: Genuine, N: FeedName, S: LineSource<G>, W: Wait>(
    rt: &W,
    venues: &VenueLocks<G, N>,
    signals: &Signals,
    line: Line<G, N, S>,
) -> LineEnd<G, N, S>
    ensures { LineHasEnded (HasTaken G.Genuine N.lanes) S.brings S.failures
        line.seat line.source result }
{
    let Line {
        mut seat,
        mut source,
    } = line;
    let venue = seat.venue();
    let mut datagrams: u64 = 0;
    let mut fault = None;
    let mut looked = Looked::default();
    let rules = signals.rules();
    for _ in rt.forever() {
        match is_next_there(rt, venues, signals, venue, looked.gap, &mut source) {
            Ok(true) => {}
            Ok(false) => break,
            Err(failed) => {
                fault = Some(failed);
                break;
            }
        }
        match source.next() {
            Ok(Some(datagram)) => {
                datagrams = datagrams.saturating_add(1);
                let _answer = venues.take_datagram(
                    rt,
                    &mut seat,
                    &datagram,
                    rules.join,
                    &mut looked,
                );
                source.recycle(datagram, &looked);
            }
            Ok(None) => break,
            Err(failed) => {
                fault = Some(failed);
                break;
            }
        }
        let wait_ms = rules.request_after_ms;
        if let Err(failed) = request_due(rt, venues, venue, looked.gap, wait_ms, &mut source) {
            fault = Some(failed);
            break;
        }
    }
    signals.end_line();
    venues.wakeups().wake_consolidators();
    LineEnd {
        seat,
        source,
        datagrams,
        fault,
    }
}
