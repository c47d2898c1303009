//! Sinks that take what came before the events of a span.
ghost use Rattle.std.specs.Prelude.{◌∷◌, []};
ghost use Rattle.event_sinks.specs.SinkEvents.{timed_event, told_before, told_by};

use event_sinks::{EventSink, ReplayedEvent};

/// A sink of events that can take an event before all that it reports. It shows nothing of it.
pub trait SpanAware: EventSink {
    /// Takes an event of a record that came at this time, before all that is reported.
    fn take_before(&mut self, time: Option<u64>, event: &ReplayedEvent<'_>)
        ensures { Self.takes self.old
            (timed_event time (told_before (told_by event.now)) ∷ []) self.new };
}
