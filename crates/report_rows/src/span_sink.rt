//! A sink of the events in a span of time.
ghost use Rattle.std.specs.Prelude.{◌≡◌, ◌∷◌, [], false};
ghost use Rattle.event_sinks.specs.SinkEvents.{timed_event, told_by};
ghost use Rattle.report_rows.specs.SpanEvents.{IsNewSpan, begins_span, ends_all, is_told_in};

use crate::spanned_sink::SpanAware;
use event_sinks::{EventSink, ReplayedEvent, SinkStop};
use run_settings::TimeSpan;

/// A sink that takes the events of a span of time, those before it as such, and that the capture is
/// over.
///
/// The span begins with the first event at its first time or after it, and from then on an event
/// that comes late is in it, too.
#[derive(Drop)]
pub struct SpanFilter<K> {
    pub sink: K,
    pub span: TimeSpan,
    pub begun: bool,
}

/// Returns whether the capture is over with an event.
#[inline(always)]
pub fn ends_all(event: &ReplayedEvent<'_>) -> bool
    ensures { result ≡ ends_all (told_by event.now) }
{
    match event {
        ReplayedEvent::Last { .. } => true,
        ReplayedEvent::Packet { .. }
        | ReplayedEvent::Refusal { .. }
        | ReplayedEvent::Item { .. }
        | ReplayedEvent::Best { .. }
        | ReplayedEvent::Gap { .. }
        | ReplayedEvent::Renewal { .. }
        | ReplayedEvent::Skip { .. }
        | ReplayedEvent::Declaration { .. } => false,
    }
}

/// Returns whether the span begins with an event at this time, if it hasn't.
#[inline(always)]
fn begins_span(span: &TimeSpan, time: Option<u64>, event: &ReplayedEvent<'_>) -> bool
    ensures { result ≡ begins_span span.now (timed_event time (told_by event.now)) }
{
    match (span.from, time) {
        (None, _) => true,
        (Some(from), Some(time)) => from <= time || ends_all(event),
        (Some(_), None) => ends_all(event),
    }
}

/// Returns whether an event at this time, after the span began, lies in it, or the capture is over
/// with it.
#[inline(always)]
fn is_told_in(span: &TimeSpan, time: Option<u64>, event: &ReplayedEvent<'_>) -> bool
    ensures { result ≡ is_told_in span.now (timed_event time (told_by event.now)) }
{
    match (span.to, time) {
        (None, _) => true,
        (Some(to), Some(time)) => time < to || ends_all(event),
        (Some(_), None) => ends_all(event),
    }
}

impl<K: Drop> SpanFilter<K> {
    /// Gives the sink the events of the span from here on.
    pub fn new(sink: K, span: TimeSpan) -> SpanFilter<K>
        ensures { IsNewSpan sink span result }
    {
        SpanFilter {
            sink,
            span,
            begun: false,
        }
    }
}

impl<K: SpanAware + Drop> EventSink for SpanFilter<K> {
    ghost use Rattle.report_rows.specs.SpanEvents.{FailsSpan, TakesSpan};
    ghost use Rattle.report_rows.specs.SpanLaws.{fails_after_span, fails_longer_span, takes_more_span, takes_no_span};

    ghost takes = { TakesSpan K.takes };

    ghost fails = { FailsSpan K.fails };

    ghost is_shown = { λ s. K.is_shown s.sink };

    ghost takes_none = { takes_no_span K.takes K.fails K.takes_none };

    ghost takes_more = { takes_more_span K.takes K.fails K.takes_more };

    ghost fails_after = { fails_after_span K.takes K.fails K.fails_after };

    ghost fails_longer = { fails_longer_span K.takes K.fails K.fails_longer };

    #[inline(always)]
    fn take(&mut self, time: Option<u64>, event: &ReplayedEvent<'_>) -> Result<(), SinkStop> {
        if !self.begun && !begins_span(&self.span, time, event) {
            self.sink.take_before(time, event);
            return Ok(());
        }
        self.begun = true;
        if is_told_in(&self.span, time, event) {
            return self.sink.take(time, event);
        }
        Ok(())
    }

    fn show(&mut self) -> Result<(), SinkStop> {
        self.sink.show()
    }
}
