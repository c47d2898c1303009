//! A replay whose sink is told the events in a span of time.
ghost use Rattle.text_out.specs.Members.{reading_of};
ghost use Rattle.std.specs.Prelude.{◌≡◌};
ghost use Rattle.feed_text.specs.EventReplays.{AnswersRun, venues_in};
ghost use Rattle.feed_text.specs.Replays.{CanReplay};
ghost use Rattle.replay_run.specs.Printed.{facts_of_run};
ghost use Rattle.nbbo_runs.specs.Printing.{LeavesMissing, taking_in};

use crate::config::RunConfig;
use crate::watched_sink::{Missing, replay_watched};
use capture_records::RecordFormat;
use event_sinks::Replayed;
use report_rows::{SpanAware, SpanFilter};
use std::alloc::Global;
use text_out::CaptureIn;

/// Reads a capture of a format to its end, and gives a sink the events in the span, those before it
/// as such ([`replay_watched`]).
// Where no span is asked for no event's time is looked at: a [`SpanFilter`] would cost some 8
// instructions an event, and keep each of them in memory.
#[inline(always)]
pub(crate) fn replay_in_span<R: CaptureIn, F: RecordFormat, K: SpanAware + Drop>(
    alloc: Global,
    config: &RunConfig<'_>,
    format: &mut F,
    input: &mut R,
    sink: K,
    missing: &mut Missing,
) -> Replayed<K, F::Fault>
    requires can { CanReplay config.now.replay }
    requires of_venues { F.venues format.old ≡ venues_in config.now.replay }
    ensures run { AnswersRun
        (reading_of R.CaptureIn)
        (record { reads = F.reads; wants = F.wants; is_bad = F.is_bad; is_whole = F.is_whole })
        (taking_in config.now.span (record { takes = K.takes; fails = K.fails })) K.is_shown
        config.now.replay (facts_of_run config.now.replay) input.old input.new
        format.old format.new sink result.sink result.outcome }
    ensures missing { LeavesMissing
        (reading_of R.CaptureIn)
        (record { reads = F.reads; wants = F.wants; is_bad = F.is_bad; is_whole = F.is_whole })
        config.now.replay input.old input.new format.old format.new missing.old missing.new
        result.outcome }
{
    if !config.span.is_bounded() {
        return replay_watched(alloc, &config.replay, format, input, sink, missing);
    }
    let sink = SpanFilter::new(sink, config.span);
    let replayed = replay_watched(alloc, &config.replay, format, input, sink, missing);
    Replayed {
        sink: replayed.sink.sink,
        outcome: replayed.outcome,
    }
}
