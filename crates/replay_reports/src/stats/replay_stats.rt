//! The statistics of a replay, and the sink of events that keeps them.
ghost use Rattle.std.specs.Prelude.{◌≡◌, ◌==◌, ◌<◌, ◌≤◌, ℕ, List, [], ◌∷◌, IfOk, Option, false, length, slice_index};
ghost use Rattle.std.specs.Option.{option_map_or};
ghost use Rattle.event_sinks.specs.SinkEvents.{TimedEvent, timed_event, told_by};
ghost use Rattle.replay_reports.specs.counts.Counts.{best_counts};
ghost use Rattle.replay_reports.specs.report.Reports.{AreVenueReports, IsReport};
ghost use Rattle.replay_reports.specs.stats.Statistics.{AreStatsOf, AreVenuesOf, is_at_venue, untimed};

use crate::counts::best_counts::BestCounts;
use crate::report::csv::put_csv;
use crate::report::json::put_json;
use crate::report::statistics_report::Report;
use crate::report::table::put_table;
use crate::report::venue_report::VenueReport;
use crate::stats::venue_stats::VenueStats;
use crate::times::busiest_period::{BusiestPeriod, datagram_messages};
use event_sinks::{EventSink, ReplayedEvent, SinkStop};
use feed_types::VenueId;
use line_gaps::EndedGaps;
use report_rows::SpanAware;
use run_settings::{ReportFormat, ValueStyle};
use std::alloc::{AllocError, Global};

/// A second in nanoseconds.
const SECOND: u64 = 1_000_000_000;

/// A millisecond in nanoseconds.
const MILLISECOND: u64 = 1_000_000;

/// The statistics of a replay. As a sink of events it writes nothing, and no call of it fails.
#[derive(Drop)]
pub struct ReplayStats {
    /// The statistics of each venue, in order.
    pub venues: Vec<VenueStats>,
    pub bests: BestCounts,
    /// The busiest second of all lines, and the busiest millisecond.
    pub second: BusiestPeriod,
    pub millisecond: BusiestPeriod,
    /// The gaps that the last event ended.
    ended: EndedGaps,
    /// Whether the capture's records have times, so that their figures are told.
    pub has_times: bool,
}

/// Returns the venue of an event, where it is one of a venue that is counted.
#[inline(always)]
fn venue_of(event: &ReplayedEvent<'_>) -> Option<VenueId>
    ensures { (n : ℕ) → is_at_venue n (told_by event.now)
        ≡ option_map_or (λ venue. venue == n) result false }
{
    match event {
        ReplayedEvent::Packet { venue, .. } => Some(*venue),
        ReplayedEvent::Refusal { venue, .. } => Some(*venue),
        ReplayedEvent::Item { venue, .. } => Some(*venue),
        ReplayedEvent::Renewal { venue, .. } => Some(*venue),
        ReplayedEvent::Skip { venue, .. } => Some(*venue),
        ReplayedEvent::Declaration { venue, .. } => Some(*venue),
        ReplayedEvent::Best { .. } => None,
        ReplayedEvent::Gap { .. } => None,
        ReplayedEvent::Last { venue, .. } => Some(*venue),
    }
}

/// Returns the statistics of this many venues to which nothing came. Fails where memory is refused.
fn new_venues(alloc: Global, count: usize, window: usize) -> Result<Vec<VenueStats>, AllocError>
    ensures count { IfOk result (λ v. length v.items ≡ count) }
    ensures stats { IfOk result (λ v. 0 < window → AreVenuesOf window [] v.items) }
{
    let mut venues = Vec::new(alloc);
    for _place in 0..count {
        venues.push(VenueStats::new(alloc, window)?)?;
    }
    Ok(venues)
}

/// Takes an event at its venue, if there is one of its number.
#[inline(always)]
fn take_at(
    venues: &mut Vec<VenueStats>,
    ended: &mut EndedGaps,
    time: Option<u64>,
    event: &ReplayedEvent<'_>,
)
    ensures count { length venues.new.items ≡ length venues.old.items }
    ensures stats { (window : ℕ) (events : List TimedEvent)
        → AreVenuesOf window events venues.old.items
        → AreVenuesOf window (timed_event time (told_by event.now) ∷ events) venues.new.items }
{
    let Some(venue) = venue_of(event) else {
        return;
    };
    let place = venue.index();
    if place < venues.len() {
        venues[place].take(time, event, ended);
    }
}

/// Takes an event before all that is counted at its venue, if there is one of its number.
fn pass_at(
    venues: &mut Vec<VenueStats>,
    ended: &mut EndedGaps,
    time: Option<u64>,
    event: &ReplayedEvent<'_>,
)
    ensures count { length venues.new.items ≡ length venues.old.items }
    ensures stats { (window : ℕ) (events : List TimedEvent)
        → AreVenuesOf window events venues.old.items
        → AreVenuesOf window events venues.new.items }
{
    let Some(venue) = venue_of(event) else {
        return;
    };
    let place = venue.index();
    if place < venues.len() {
        venues[place].pass(time, event, ended);
    }
}

/// Counts a change of a national best, if the event is one.
#[inline(always)]
fn count_best(bests: &mut BestCounts, event: &ReplayedEvent<'_>)
    ensures { (time : Option ℕ) (events : List TimedEvent)
        → bests.old ≡ best_counts (untimed events)
        → bests.new ≡ best_counts (untimed (timed_event time (told_by event.now) ∷ events)) }
{
    match event {
        ReplayedEvent::Best { number, change } => bests.add(*number, change),
        ReplayedEvent::Packet { .. } => {}
        ReplayedEvent::Refusal { .. } => {}
        ReplayedEvent::Item { .. } => {}
        ReplayedEvent::Gap { .. } => {}
        ReplayedEvent::Renewal { .. } => {}
        ReplayedEvent::Skip { .. } => {}
        ReplayedEvent::Declaration { .. } => {}
        ReplayedEvent::Last { .. } => {}
    }
}

impl ReplayStats {
    /// Of this many venues, to which nothing came. It keeps the first arrivals of `window` messages
    /// of each, to see which line is first. Its memory is asked for here and never again.
    pub fn new(
        alloc: Global,
        venues: usize,
        window: usize,
        has_times: bool,
    ) -> Result<ReplayStats, AllocError>
        ensures count { IfOk result (λ s. length s.venues.items ≡ venues) }
        ensures has_times { IfOk result (λ s. s.has_times ≡ has_times) }
        ensures stats { IfOk result (λ s. 0 < window → AreStatsOf window [] s) }
    {
        Ok(ReplayStats {
            venues: new_venues(alloc, venues, window)?,
            bests: BestCounts::none(),
            second: BusiestPeriod::new(),
            millisecond: BusiestPeriod::new(),
            ended: EndedGaps::new(),
            has_times,
        })
    }
}

/// Returns how often a venue led a side, by the counts at the venues' places.
fn led_by(counts: &[u64; 16], place: usize) -> u64
    ensures { place < 16 → result ≡ slice_index counts.now place }
{
    if place < 16 { counts[place] } else { 0 }
}

/// Returns the figures of venues. Fails where memory is refused.
fn venue_reports(
    alloc: Global,
    venues: &[VenueStats],
    bests: &BestCounts,
) -> Result<Vec<VenueReport>, AllocError>
    ensures all { IfOk result (λ reports. length reports.items ≡ length venues.now) }
    ensures right { IfOk result (λ reports. (window : ℕ) (events : List TimedEvent)
        → length venues.now ≤ 16 → AreVenuesOf window events venues.now
        → bests.now ≡ best_counts (untimed events)
        → AreVenueReports window events reports.items) }
{
    let mut reports = Vec::new(alloc);
    for place in 0..venues.len() {
        let bids = led_by(&bests.bids, place);
        let offers = led_by(&bests.offers, place);
        reports.push(venues[place].report(bids, offers))?;
    }
    Ok(reports)
}

/// Returns a report as comma-separated values. Fails where memory is refused.
fn csv_text(alloc: Global, style: &ValueStyle, report: &Report) -> Result<Vec<u8>, AllocError> {
    let mut text = Vec::new(alloc);
    put_csv(alloc, &mut text, style, report)?;
    Ok(text)
}

/// Returns a report as a JSON object. Fails where memory is refused.
fn json_text(alloc: Global, style: &ValueStyle, report: &Report) -> Result<Vec<u8>, AllocError> {
    let mut text = Vec::new(alloc);
    put_json(alloc, &mut text, style, report)?;
    Ok(text)
}

/// Returns a report as a table. Fails where memory is refused.
fn table_text(alloc: Global, style: &ValueStyle, report: &Report) -> Result<Vec<u8>, AllocError> {
    let mut text = Vec::new(alloc);
    put_table(alloc, &mut text, style, report)?;
    Ok(text)
}

/// Returns a report as a text in the format. Fails where memory is refused.
fn report_text(
    alloc: Global,
    format: ReportFormat,
    report: &Report,
) -> Result<Vec<u8>, AllocError> {
    match &format {
        ReportFormat::Table(style) => table_text(alloc, style, report),
        ReportFormat::Csv(style) => csv_text(alloc, style, report),
        ReportFormat::Json(style) => json_text(alloc, style, report),
    }
}

impl ReplayStats {
    /// Returns the figures, of 16 venues at most. Fails where memory is refused.
    pub fn report(&self, alloc: Global) -> Result<Report, AllocError>
        ensures report { IfOk result (λ r. (window : ℕ) (events : List TimedEvent)
            → length self.now.venues.items ≤ 16 → AreStatsOf window events self.now
            → IsReport window events r) }
        ensures all { IfOk result (λ r.
            length r.venues.items ≡ length self.now.venues.items) }
        ensures has_times { IfOk result (λ r. r.has_times ≡ self.now.has_times) }
    {
        Ok(Report {
            venues: venue_reports(alloc, self.venues.as_slice(), &self.bests)?,
            states: self.bests.states,
            second: self.second.peak(),
            millisecond: self.millisecond.peak(),
            has_times: self.has_times,
        })
    }

    /// Returns the figures as a text in the format. Fails where memory is refused.
    pub fn text(&self, alloc: Global, format: ReportFormat) -> Result<Vec<u8>, AllocError> {
        let report = self.report(alloc)?;
        let text = report_text(alloc, format, &report)?;
        Ok(text)
    }
}

impl EventSink for ReplayStats {
    ghost use Rattle.replay_reports.specs.stats.StatsLaws.{takes_more_stats, takes_no_stats};
    ghost use Rattle.replay_reports.specs.stats.StatsSinks.{TakesStats};

    ghost takes = { TakesStats };

    ghost fails = { λ before events after. ⊥ };

    ghost is_shown = { λ s. Unit {0} };

    ghost takes_none = { takes_no_stats };

    ghost takes_more = { takes_more_stats };

    ghost fails_after = { λ s t u xs ys took failed. failed };

    ghost fails_longer = { λ s t xs ys failed. failed };

    #[inline(always)]
    fn take(&mut self, time: Option<u64>, event: &ReplayedEvent<'_>) -> Result<(), SinkStop> {
        take_at(&mut self.venues, &mut self.ended, time, event);
        count_best(&mut self.bests, event);
        let messages = datagram_messages(event);
        self.second.add(SECOND, time, messages);
        self.millisecond.add(MILLISECOND, time, messages);
        Ok(())
    }

    fn show(&mut self) -> Result<(), SinkStop> {
        Ok(())
    }
}

impl SpanAware for ReplayStats {
    fn take_before(&mut self, time: Option<u64>, event: &ReplayedEvent<'_>) {
        pass_at(&mut self.venues, &mut self.ended, time, event);
    }
}
