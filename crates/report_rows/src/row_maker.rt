//! The trait of what makes the rows of events.
ghost use Rattle.std.specs.Prelude.{◌++◌, [], ◌∷◌, ℕ, List, OnErr, OnOk};
ghost use Rattle.event_sinks.specs.SinkEvents.{TimedEvent, timed_event, told_before, told_by};
ghost use Rattle.report_rows.specs.RowSinks.{FailsMaking, Makes};

use event_sinks::{ReplayedEvent, SinkStop, TextPage};
use text_out::TextOut;

/// What makes the rows of events. What it makes is said by a relation between its states, with
/// laws.
pub trait RowMaker {
    /// These events would have this text.
    ghost tells: { Self → List TimedEvent → List ℕ → Type 0 };

    /// It took these events, and made this text of them.
    ghost makes: { Self → List TimedEvent → List ℕ → Self → Type 0 };

    /// Takes an event of a record that came at this time, and appends its rows to the page, which
    /// is written where it is full.
    fn make<W: TextOut>(
        &mut self,
        page: &mut TextPage<W>,
        time: Option<u64>,
        event: &ReplayedEvent<'_>,
    ) -> Result<(), SinkStop>
        ensures made { OnOk result (Makes makes W.adds W.failures self.old page.old
            (timed_event time (told_by event.now) ∷ []) self.new page.new) }
        ensures failed { OnErr result (FailsMaking tells W.adds W.failures self.old page.old
            (timed_event time (told_by event.now) ∷ []) page.new) };

    /// Takes an event before all that has rows.
    fn pass(&mut self, time: Option<u64>, event: &ReplayedEvent<'_>)
        ensures { makes self.old (timed_event time (told_before (told_by event.now)) ∷ []) []
            self.new };

    /// No events have no text.
    ghost makes_none: { (s : Self) → makes s [] [] s };

    /// Events after events have the one text after the other.
    ghost makes_more: { (s t u : Self) (xs ys : List TimedEvent) (a b : List ℕ)
        → makes s xs a t → makes t ys b u → makes s (xs ++ ys) (a ++ b) u };

    /// No events would have no text.
    ghost tells_none: { (s : Self) → tells s [] [] };

    /// What events would have after events, they have after the text of those.
    ghost tells_after: { (s t : Self) (xs ys : List TimedEvent) (a b : List ℕ)
        → makes s xs a t → tells t ys b → tells s (xs ++ ys) (a ++ b) };
}
