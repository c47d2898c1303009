//! The loop over the records of a capture.
ghost use Rattle.text_out.specs.Members.{reading_of};
ghost use Rattle.std.specs.Prelude.{◌≡◌, length};
ghost use Rattle.feed_text.specs.Replays.{CanReplay};
ghost use Rattle.feed_text.specs.Running.{IsReplayStart, RunsToEnd, ShowsBefore, StopsShown};

use crate::put_in::follow_rule;
use crate::replay::ReplayConfig;
use crate::replay_sink::{PublishStop, ReplaySink};
use crate::standing_gaps::StandingGaps;
use crate::venues::ReplayVenues;
use capture_records::{CAPTURE_ROOM, ReadBuffer, ReadStep, RecordFormat, Step, is_complete};
use event_sinks::{EventSink, ReplayStop, SinkStop};
use text_out::CaptureIn;

/// Shows what the sink took before a stop. Returns the stop, or that the sink failed.
fn show_before<F: Copy, K: EventSink>(stop: ReplayStop<F>, sink: &mut K) -> ReplayStop<F>
    ensures { ShowsBefore K.takes K.fails K.is_shown stop sink.old sink.new result }
{
    match sink.show() {
        Ok(()) => stop,
        Err(SinkStop::Failed) => ReplayStop::SinkFailed,
    }
}

/// Shows what the sink took before a full journal. Returns why the replay stops.
fn stopped<F: Copy, K: EventSink>(stop: PublishStop, sink: &mut K) -> ReplayStop<F>
    ensures { StopsShown K.takes K.fails K.is_shown stop sink.old sink.new result }
{
    match stop {
        PublishStop::JournalFull => show_before(ReplayStop::JournalFull, sink),
        PublishStop::SinkFailed => ReplayStop::SinkFailed,
    }
}

/// Reads a capture to its end, and gives the sink what its records emit.
// One loop for each format and sink, whose calls are all inlined.
#[inline(always)]
pub fn run<R: CaptureIn, F: RecordFormat, K: EventSink>(
    config: &ReplayConfig<'_>,
    format: &mut F,
    reader: &mut R,
    unread: &mut ReadBuffer<CAPTURE_ROOM>,
    venues: &mut ReplayVenues,
    output: &mut ReplaySink<K>,
) -> Result<(), ReplayStop<F::Fault>>
    requires can { CanReplay config.now }
    requires starts { IsReplayStart config.now unread.old venues.old output.old.journal }
    requires of_venues { F.venues format.old ≡ length config.now.sessions.now }
    ensures { RunsToEnd
        (reading_of R.CaptureIn)
        (record { reads = F.reads; wants = F.wants; is_bad = F.is_bad; is_whole = F.is_whole })
        (record { takes = K.takes; fails = K.fails }) K.is_shown
        config.now reader.old reader.new format.old format.new output.old.sink output.new.sink
        venues.new.items result }
{
    let mut turns = config.turns;
    let mut kept = StandingGaps::new();
    'pieces: loop {
        match format.next(unread.bytes()) {
            Step::Came { record, time, len } => {
                output.time = time;
                if let Err(stop) = follow_rule(config, venues, &mut kept, &record, output) {
                    return Err(stopped(stop, &mut output.sink));
                }
                if let Err(stop) = venues.take(record, output) {
                    return Err(stopped(stop, &mut output.sink));
                }
                unread.advance(len);
            }
            Step::Passed(len) => unread.advance(len),
            Step::Bad(fault) => {
                return Err(show_before(ReplayStop::Bad(fault), &mut output.sink));
            }
            Step::Wants => {
                output.sink.show()?;
                if turns == 0 {
                    return Err(ReplayStop::TooManyTurns);
                }
                turns -= 1;
                match unread.read_from(reader) {
                    ReadStep::Went => {}
                    ReadStep::Failed => return Err(ReplayStop::ReadFailed),
                    ReadStep::Ended if is_complete(format, unread) => return Ok(()),
                    ReadStep::Ended => return Err(ReplayStop::Short),
                }
            }
        }
    }
}
