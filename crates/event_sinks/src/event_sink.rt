//! The trait of sinks, which take the events of a replay.
ghost use Rattle.std.specs.Prelude.{◌++◌, [], ◌∷◌, List, OnOk, OnErr};
ghost use Rattle.event_sinks.specs.SinkEvents.{TimedEvent, timed_event, told_by};

use crate::event::ReplayedEvent;

/// Why a sink takes no more.
#[derive(Clone, Copy, Debug, PartialEq, Eq)]
pub enum SinkStop {
    /// The sink failed, as a writer does that it writes to.
    Failed,
}

/// A sink of a replay's events. What it makes of them is said by relations between its states, with
/// laws; a sink takes its memory when it is made.
pub trait EventSink {
    /// It took these events.
    ghost takes: { Self → List TimedEvent → Self → Type 0 };

    /// It failed within these events.
    ghost fails: { Self → List TimedEvent → Self → Type 0 };

    /// All that it took is shown.
    ghost is_shown: { Self → Type 0 };

    /// Takes an event of a record that came at this time, in nanoseconds since 1970 where that is
    /// known. After a failure it takes no other.
    fn take(&mut self, time: Option<u64>, event: &ReplayedEvent<'_>) -> Result<(), SinkStop>
        ensures took { OnOk result
            (takes self.old (timed_event time (told_by event.now) ∷ []) self.new) }
        ensures failed { OnErr result
            (fails self.old (timed_event time (told_by event.now) ∷ []) self.new) };

    /// Shows all that it took, as before a reader is called that may wait.
    fn show(&mut self) -> Result<(), SinkStop>
        ensures took { OnOk result (takes self.old [] self.new) }
        ensures shown { OnOk result (is_shown self.new) }
        ensures failed { OnErr result (fails self.old [] self.new) };

    /// No events.
    ghost takes_none: { (s : Self) → takes s [] s };

    /// Events after events.
    ghost takes_more: { (s t u : Self) (xs ys : List TimedEvent)
        → takes s xs t → takes t ys u → takes s (xs ++ ys) u };

    /// A failure after events.
    ghost fails_after: { (s t u : Self) (xs ys : List TimedEvent)
        → takes s xs t → fails t ys u → fails s (xs ++ ys) u };

    /// A failure within events is one within more.
    ghost fails_longer: { (s t : Self) (xs ys : List TimedEvent)
        → fails s xs t → fails s (xs ++ ys) t };
}
