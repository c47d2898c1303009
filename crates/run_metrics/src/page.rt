//! The page of a run's metrics.
ghost use Rattle.std.specs.Prelude.{◌≡◌, ◌++◌, OnOk, flat_map};
ghost use Rattle.run_metrics.specs.Metrics.{latency_family, line_family, line_refusals, line_rows, page_text, recovery_refusals, recovery_row, refusal_family, refusal_row, run_family, venue_family, venue_refusals, venue_row_of};

use crate::figures::{RunFigures, VenueFigures};
use crate::line_metric::LineMetric;
use crate::line_states::put_state_families;
use crate::parts::{
    COUNTER, SUMMARY, put_head, put_line_row, put_refusal_row, put_run_row, put_run_time_row,
    put_venue_row,
};
use crate::run_metric::RunMetric;
use crate::state_metric::StateMetric;
use crate::venue_metric::VenueMetric;
use run_settings::VenueNames;
use std::alloc::AllocError;

/// Appends a metric of the run.
#[tactic(auto, unfolding(crate::specs::Metrics::run_family))]
fn put_run_family(
    text: &mut Vec<u8>,
    metric: RunMetric,
    figures: &RunFigures<'_>,
) -> Result<(), AllocError>
    ensures { OnOk result (text.new.items ≡ text.old.items ++ run_family figures.now metric) }
{
    put_head(text, metric.name(), metric.help(), metric.kind())?;
    put_run_row(text, metric.name(), metric.value(figures))
}

/// Appends metrics of the run.
fn put_run_families(
    text: &mut Vec<u8>,
    metrics: &[RunMetric],
    figures: &RunFigures<'_>,
) -> Result<(), AllocError>
    ensures { OnOk result (text.new.items
        ≡ text.old.items ++ flat_map (λ m. run_family figures.now m) metrics.now) }
{
    for metric in metrics {
        put_run_family(text, *metric, figures)?;
    }
    Ok(())
}

/// Appends how long rows took from their datagrams to their printing.
fn put_latency_family(text: &mut Vec<u8>, figures: &RunFigures<'_>) -> Result<(), AllocError>
    ensures { OnOk result (text.new.items ≡ text.old.items ++ latency_family figures.now) }
{
    put_head(
        text,
        "nbbo_row_latency_seconds",
        "Time from the datagrams of printed rows to their printing.",
        SUMMARY,
    )?;
    put_run_time_row(text, "nbbo_row_latency_seconds_sum", figures.latency)?;
    put_run_row(text, "nbbo_row_latency_seconds_count", figures.timed)
}

/// Appends the rows of a venue's metric.
fn put_venue_rows(
    text: &mut Vec<u8>,
    names: &VenueNames,
    metric: VenueMetric,
    venues: &[VenueFigures],
) -> Result<(), AllocError>
    ensures { OnOk result (text.new.items
        ≡ text.old.items ++ flat_map (λ v. venue_row_of names.now metric v) venues.now) }
{
    for venue in venues {
        let label = names.label(venue.venue);
        put_venue_row(text, metric.name(), label.text(), metric.value(venue))?;
    }
    Ok(())
}

/// Appends a venue's metric.
#[tactic(auto, unfolding(crate::specs::Metrics::venue_family))]
fn put_venue_family(
    text: &mut Vec<u8>,
    names: &VenueNames,
    metric: VenueMetric,
    venues: &[VenueFigures],
) -> Result<(), AllocError>
    ensures { OnOk result (text.new.items ≡ text.old.items
        ++ venue_family names.now venues.now metric) }
{
    put_head(text, metric.name(), metric.help(), metric.kind())?;
    put_venue_rows(text, names, metric, venues)
}

/// Appends metrics of venues.
fn put_venue_families(
    text: &mut Vec<u8>,
    names: &VenueNames,
    metrics: &[VenueMetric],
    venues: &[VenueFigures],
) -> Result<(), AllocError>
    ensures { OnOk result (text.new.items
        ≡ text.old.items ++ flat_map (λ m. venue_family names.now venues.now m) metrics.now) }
{
    for metric in metrics {
        put_venue_family(text, names, *metric, venues)?;
    }
    Ok(())
}

/// Appends line R's row of a metric, where the venue has that line.
fn put_recovery_row(
    text: &mut Vec<u8>,
    names: &VenueNames,
    metric: LineMetric,
    venue: &VenueFigures,
) -> Result<(), AllocError>
    ensures { OnOk result (text.new.items ≡ text.old.items
        ++ recovery_row names.now metric venue.now) }
{
    let label = names.label(venue.venue);
    let value = metric.value(&venue.status.recovery);
    match venue.recovery {
        Some(_) => put_line_row(text, metric.name(), label.text(), "R", value),
        None => Ok(()),
    }
}

/// Appends a venue's rows of a metric of its lines.
#[tactic(auto, unfolding(crate::specs::Metrics::line_rows))]
fn put_rows_of_lines(
    text: &mut Vec<u8>,
    names: &VenueNames,
    metric: LineMetric,
    venue: &VenueFigures,
) -> Result<(), AllocError>
    ensures { OnOk result (text.new.items ≡ text.old.items
        ++ line_rows names.now metric venue.now) }
{
    let name = metric.name();
    let label = names.label(venue.venue);
    put_line_row(text, name, label.text(), "A", metric.value(&venue.status.a))?;
    put_line_row(text, name, label.text(), "B", metric.value(&venue.status.b))?;
    put_recovery_row(text, names, metric, venue)
}

/// Appends the rows of a metric of lines.
fn put_line_rows(
    text: &mut Vec<u8>,
    names: &VenueNames,
    metric: LineMetric,
    venues: &[VenueFigures],
) -> Result<(), AllocError>
    ensures { OnOk result (text.new.items
        ≡ text.old.items ++ flat_map (λ v. line_rows names.now metric v) venues.now) }
{
    for venue in venues {
        put_rows_of_lines(text, names, metric, venue)?;
    }
    Ok(())
}

/// Appends a metric of lines.
#[tactic(auto, unfolding(crate::specs::Metrics::line_family))]
fn put_line_family(
    text: &mut Vec<u8>,
    names: &VenueNames,
    metric: LineMetric,
    venues: &[VenueFigures],
) -> Result<(), AllocError>
    ensures { OnOk result (text.new.items ≡ text.old.items
        ++ line_family names.now venues.now metric) }
{
    put_head(text, metric.name(), metric.help(), COUNTER)?;
    put_line_rows(text, names, metric, venues)
}

/// Appends metrics of lines.
fn put_line_families(
    text: &mut Vec<u8>,
    names: &VenueNames,
    metrics: &[LineMetric],
    venues: &[VenueFigures],
) -> Result<(), AllocError>
    ensures { OnOk result (text.new.items
        ≡ text.old.items ++ flat_map (λ m. line_family names.now venues.now m) metrics.now) }
{
    for metric in metrics {
        put_line_family(text, names, *metric, venues)?;
    }
    Ok(())
}

/// Appends how many datagrams of a line were refused by each of these refusals.
fn put_refusal_rows(
    text: &mut Vec<u8>,
    venue: &[u8],
    line: &str,
    counts: &[(&str, u64)],
) -> Result<(), AllocError>
    ensures { OnOk result (text.new.items ≡ text.old.items
        ++ flat_map (λ c. refusal_row venue.now line.now c.0.now c.1) counts.now) }
{
    for count in counts {
        put_refusal_row(text, venue, line, count.0, count.1)?;
    }
    Ok(())
}

/// Appends how many datagrams of a line were refused, by each refusal that a datagram can meet.
#[tactic(auto, unfolding(crate::specs::Metrics::line_refusals))]
fn put_line_refusals(
    text: &mut Vec<u8>,
    venue: &[u8],
    line: &str,
    refused: &[u64; 12],
) -> Result<(), AllocError>
    ensures { OnOk result (text.new.items
        ≡ text.old.items ++ line_refusals venue.now line.now refused.now) }
{
    let counts = [
        ("1", refused[1]),
        ("2", refused[2]),
        ("3", refused[3]),
        ("4", refused[4]),
        ("7", refused[7]),
        ("8", refused[8]),
        ("9", refused[9]),
        ("10", refused[10]),
        ("11", refused[11]),
    ];
    put_refusal_rows(text, venue, line, &counts)
}

/// Appends how many datagrams of line R were refused, where the venue has that line.
fn put_recovery_refusals(
    text: &mut Vec<u8>,
    names: &VenueNames,
    venue: &VenueFigures,
) -> Result<(), AllocError>
    ensures { OnOk result (text.new.items
        ≡ text.old.items ++ recovery_refusals names.now venue.now) }
{
    let label = names.label(venue.venue);
    match venue.recovery {
        Some(_) => put_line_refusals(text, label.text(), "R", &venue.status.recovery.refused),
        None => Ok(()),
    }
}

/// Appends how many datagrams of a venue's lines were refused.
#[tactic(auto, unfolding(crate::specs::Metrics::venue_refusals))]
fn put_venue_refusals(
    text: &mut Vec<u8>,
    names: &VenueNames,
    venue: &VenueFigures,
) -> Result<(), AllocError>
    ensures { OnOk result (text.new.items
        ≡ text.old.items ++ venue_refusals names.now venue.now) }
{
    let label = names.label(venue.venue);
    put_line_refusals(text, label.text(), "A", &venue.status.a.refused)?;
    put_line_refusals(text, label.text(), "B", &venue.status.b.refused)?;
    put_recovery_refusals(text, names, venue)
}

/// Appends how many datagrams of each venue's lines were refused.
fn put_all_refusals(
    text: &mut Vec<u8>,
    names: &VenueNames,
    venues: &[VenueFigures],
) -> Result<(), AllocError>
    ensures { OnOk result (text.new.items
        ≡ text.old.items ++ flat_map (λ v. venue_refusals names.now v) venues.now) }
{
    for venue in venues {
        put_venue_refusals(text, names, venue)?;
    }
    Ok(())
}

/// Appends the metric of refusals.
fn put_refusal_family(
    text: &mut Vec<u8>,
    names: &VenueNames,
    venues: &[VenueFigures],
) -> Result<(), AllocError>
    ensures { OnOk result (text.new.items
        ≡ text.old.items ++ refusal_family names.now venues.now) }
{
    put_head(
        text,
        "nbbo_refused_packets_total",
        "Datagrams of the line that were refused, by the number of the refusal.",
        COUNTER,
    )?;
    put_all_refusals(text, names, venues)
}

/// The metrics of a run.
const OF_RUN: [RunMetric; 5] = [
    RunMetric::Seconds,
    RunMetric::Changes,
    RunMetric::Waiting,
    RunMetric::Printed,
    RunMetric::Untaken,
];

/// Of its venues.
const OF_VENUES: [VenueMetric; 6] = [
    VenueMetric::Sent,
    VenueMetric::Known,
    VenueMetric::Lag,
    VenueMetric::Lacking,
    VenueMetric::Requests,
    VenueMetric::GivenUp,
];

/// Of what their lines have brought.
const OF_LINES: [LineMetric; 8] = [
    LineMetric::Packets,
    LineMetric::Messages,
    LineMetric::NewMessages,
    LineMetric::RepeatedMessages,
    LineMetric::Heartbeats,
    LineMetric::Ends,
    LineMetric::AheadPackets,
    LineMetric::OtherSessions,
];

/// Of what else is known of the lines.
const OF_STATES: [StateMetric; 7] = [
    StateMetric::OtherSenders,
    StateMetric::Withheld,
    StateMetric::Unsent,
    StateMetric::HeldBack,
    StateMetric::Dropped,
    StateMetric::Heard,
    StateMetric::Ended,
];

/// Appends the page of a run's metrics: those of the run, of its venues, of their lines, the
/// refusals, and what else is known of the lines.
pub fn put_page(text: &mut Vec<u8>, figures: &RunFigures<'_>) -> Result<(), AllocError>
    ensures { OnOk result (text.new.items ≡ text.old.items ++ page_text figures.now) }
{
    let names = figures.names;
    let venues = figures.venues;
    put_run_families(text, &OF_RUN, figures)?;
    put_latency_family(text, figures)?;
    put_venue_families(text, names, &OF_VENUES, venues)?;
    put_line_families(text, names, &OF_LINES, venues)?;
    put_refusal_family(text, names, venues)?;
    put_state_families(text, names, &OF_STATES, venues)
}
