//! The rows of what is known of lines beside what they have brought.
ghost use Rattle.std.specs.Prelude.{◌≡◌, ◌++◌, OnOk, codes, flat_map};
ghost use Rattle.run_metrics.specs.Metrics.{end_counts, line_end_rows, line_row, line_time_row, rows_if, state_family, state_name, state_row, state_rows};

use crate::figures::{LineEndReason, LineState, VenueFigures};
use crate::parts::{put_end_row, put_head, put_line_row, put_line_time_row};
use crate::state_metric::StateMetric;
use run_settings::VenueNames;
use std::alloc::AllocError;

/// Appends the row of a line's count, where that is known.
fn put_known_count(
    text: &mut Vec<u8>,
    name: &str,
    venue: &[u8],
    line: &str,
    count: Option<u64>,
) -> Result<(), AllocError>
    ensures { OnOk result (text.new.items
        ≡ text.old.items ++ rows_if count (line_row name.now venue.now line.now)) }
{
    match count {
        Some(count) => put_line_row(text, name, venue, line, count),
        None => Ok(()),
    }
}

/// Appends the row of a time of a line in nanoseconds, where that is known.
fn put_known_time(
    text: &mut Vec<u8>,
    name: &str,
    venue: &[u8],
    line: &str,
    time: Option<u64>,
) -> Result<(), AllocError>
    ensures { OnOk result (text.new.items
        ≡ text.old.items ++ rows_if time (line_time_row name.now venue.now line.now)) }
{
    match time {
        Some(time) => put_line_time_row(text, name, venue, line, time),
        None => Ok(()),
    }
}

/// Whether a line has ended by each of the causes: 1 at what has ended it, and 0 at the others.
fn end_counts(end: Option<LineEndReason>) -> [u64; 4]
    ensures { result ≡ end_counts end }
{
    match end {
        None => [0, 0, 0, 0],
        Some(LineEndReason::OwnSession) => [1, 0, 0, 0],
        Some(LineEndReason::OtherSession) => [0, 1, 0, 0],
        Some(LineEndReason::ReadOut) => [0, 0, 1, 0],
        Some(LineEndReason::Failed) => [0, 0, 0, 1],
    }
}

/// Appends a line's rows of whether it has ended.
#[tactic(auto, unfolding(crate::specs::Metrics::line_end_rows))]
fn put_line_end(
    text: &mut Vec<u8>,
    venue: &[u8],
    line: &str,
    end: Option<LineEndReason>,
) -> Result<(), AllocError>
    ensures { OnOk result (text.new.items
        ≡ text.old.items ++ line_end_rows venue.now line.now end) }
{
    let counts = end_counts(end);
    put_end_row(text, venue, line, "own_session", counts[0])?;
    put_end_row(text, venue, line, "other_session", counts[1])?;
    put_end_row(text, venue, line, "datagrams", counts[2])?;
    put_end_row(text, venue, line, "fault", counts[3])
}

/// Appends a line's rows of a metric.
fn put_state_row(
    text: &mut Vec<u8>,
    metric: StateMetric,
    venue: &[u8],
    line: &str,
    state: &LineState,
) -> Result<(), AllocError>
    ensures { OnOk result (text.new.items
        ≡ text.old.items ++ state_row metric venue.now line.now state.now) }
{
    let name = metric.name();
    match metric {
        StateMetric::OtherSenders => put_line_row(text, name, venue, line, state.foreign),
        StateMetric::Withheld => put_line_row(text, name, venue, line, state.withheld),
        StateMetric::Unsent => put_line_row(text, name, venue, line, state.unsent),
        StateMetric::HeldBack => put_line_row(text, name, venue, line, state.held_back),
        StateMetric::Dropped => put_known_count(text, name, venue, line, state.dropped),
        StateMetric::Heard => put_known_time(text, name, venue, line, state.heard),
        StateMetric::Ended => put_line_end(text, venue, line, state.end),
    }
}

/// Appends line R's rows of a metric, where there is that line.
fn put_recovery_state(
    text: &mut Vec<u8>,
    metric: StateMetric,
    venue: &[u8],
    recovery: &Option<LineState>,
) -> Result<(), AllocError>
    ensures { OnOk result (text.new.items
        ≡ text.old.items ++ rows_if recovery.now (state_row metric venue.now (codes "R"))) }
{
    match recovery {
        Some(state) => put_state_row(text, metric, venue, "R", state),
        None => Ok(()),
    }
}

/// Appends a venue's rows of a metric of its lines.
#[tactic(auto, unfolding(crate::specs::Metrics::state_rows))]
fn put_state_rows(
    text: &mut Vec<u8>,
    names: &VenueNames,
    metric: StateMetric,
    venue: &VenueFigures,
) -> Result<(), AllocError>
    ensures { OnOk result (text.new.items ≡ text.old.items
        ++ state_rows names.now metric venue.now) }
{
    let label = names.label(venue.venue);
    put_state_row(text, metric, label.text(), "A", &venue.a)?;
    put_state_row(text, metric, label.text(), "B", &venue.b)?;
    put_recovery_state(text, metric, label.text(), &venue.recovery)
}

/// Appends the rows of a metric of lines.
fn put_all_states(
    text: &mut Vec<u8>,
    names: &VenueNames,
    metric: StateMetric,
    venues: &[VenueFigures],
) -> Result<(), AllocError>
    ensures { OnOk result (text.new.items
        ≡ text.old.items ++ flat_map (λ v. state_rows names.now metric v) venues.now) }
{
    for venue in venues {
        put_state_rows(text, names, metric, venue)?;
    }
    Ok(())
}

/// Appends a metric of lines.
#[tactic(auto, unfolding(crate::specs::Metrics::state_family))]
fn put_state_family(
    text: &mut Vec<u8>,
    names: &VenueNames,
    metric: StateMetric,
    venues: &[VenueFigures],
) -> Result<(), AllocError>
    ensures { OnOk result (text.new.items ≡ text.old.items
        ++ state_family names.now venues.now metric) }
{
    put_head(text, metric.name(), metric.help(), metric.kind())?;
    put_all_states(text, names, metric, venues)
}

/// Appends metrics of lines.
pub(crate) fn put_state_families(
    text: &mut Vec<u8>,
    names: &VenueNames,
    metrics: &[StateMetric],
    venues: &[VenueFigures],
) -> Result<(), AllocError>
    ensures { OnOk result (text.new.items
        ≡ text.old.items ++ flat_map (λ m. state_family names.now venues.now m) metrics.now) }
{
    for metric in metrics {
        put_state_family(text, names, *metric, venues)?;
    }
    Ok(())
}
