//! The figures of all lines in a period.
ghost use Rattle.std.specs.Prelude.{◌≡◌, ◌<◌, IfSome, length};
ghost use Rattle.event_sinks.specs.SinkEvents.{told_by};
ghost use Rattle.period_rows.specs.CountStates.{counted_at, counted_in, counted_period, datagram_line};

use crate::line_figures::{LineFigures, NO_FIGURES};
use crate::line_sequence::{LineSequence, line_place};
use event_sinks::ReplayedEvent;
use report_rows::KeptPeriod;

/// The figures of the lines of a capture: A and B of venue 0, then those of venue 1, and so on.
pub type CountFigures = [LineFigures; 32];

/// Of lines that brought nothing.
pub(crate) const NO_LINES: CountFigures = [NO_FIGURES; 32];

/// Returns the place of the line that a datagram came on, if it has one.
fn datagram_line(event: &ReplayedEvent<'_>) -> Option<usize>
    ensures line { result ≡ datagram_line (told_by event.now) }
    ensures within { IfSome result (λ place. place < 32) }
{
    match event {
        ReplayedEvent::Packet { venue, line, .. } => line_place(*venue, *line),
        ReplayedEvent::Refusal { venue, line, .. } => line_place(*venue, *line),
        ReplayedEvent::Item { .. }
        | ReplayedEvent::Best { .. }
        | ReplayedEvent::Gap { .. }
        | ReplayedEvent::Renewal { .. }
        | ReplayedEvent::Skip { .. }
        | ReplayedEvent::Declaration { .. }
        | ReplayedEvent::Last { .. } => None,
    }
}

/// Counts a datagram of the line at a place.
fn count_at(
    figures: &mut [LineFigures],
    sequences: &[LineSequence],
    place: usize,
    event: &ReplayedEvent<'_>,
)
    requires figures { length figures.old ≡ 32 }
    requires sequences { length sequences.now ≡ 32 }
    requires within { place < 32 }
    ensures { figures.new ≡ counted_at figures.old sequences.now (told_by event.now) place }
{
    let passed = sequences[place].passed_over(event);
    figures[place].add(passed, event);
}

/// Counts a datagram, by the numbers that its line has brought.
fn count_in(figures: &mut [LineFigures], sequences: &[LineSequence], event: &ReplayedEvent<'_>)
    requires figures { length figures.old ≡ 32 }
    requires sequences { length sequences.now ≡ 32 }
    ensures { figures.new ≡ counted_in figures.old sequences.now (told_by event.now)
        (datagram_line (told_by event.now)) }
{
    match datagram_line(event) {
        Some(place) => count_at(figures, sequences, place, event),
        None => {}
    }
}

/// Counts a datagram in the period at a place.
pub(crate) fn count_in_period(
    periods: &mut [KeptPeriod<CountFigures>],
    place: usize,
    sequences: &[LineSequence],
    event: &ReplayedEvent<'_>,
)
    requires within { place < length periods.old }
    requires sequences { length sequences.now ≡ 32 }
    ensures { periods.new ≡ counted_period periods.old place sequences.now (told_by event.now) }
{
    count_in(&mut periods[place].figures, sequences, event);
}
