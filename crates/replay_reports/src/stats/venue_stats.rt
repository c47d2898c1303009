//! The statistics of a venue.
ghost use Rattle.std.specs.Prelude.{◌≡◌, ◌<◌, ℕ, List, [], ◌∷◌, IfOk};
ghost use Rattle.event_sinks.specs.SinkEvents.{TimedEvent, timed_event, told_by};
ghost use Rattle.replay_reports.specs.report.Reports.{IsOwnReport};
ghost use Rattle.replay_reports.specs.stats.Statistics.{IsVenueOf};

use crate::counts::venue_counts::VenueCounts;
use crate::report::venue_report::{GapReport, VenueReport};
use crate::times::venue_times::VenueTimes;
use event_sinks::ReplayedEvent;
use line_gaps::{EndedGaps, GapLine, VenueGaps};
use std::alloc::{AllocError, Global};

/// The statistics of a venue: its events, counted, the gaps in its numbers, and how its packets run
/// in time.
#[derive(Drop)]
pub struct VenueStats {
    pub counts: VenueCounts,
    pub gaps: VenueGaps,
    pub times: VenueTimes,
}

/// Returns the figures of a venue's gaps.
fn gap_report(gaps: &VenueGaps) -> GapReport {
    GapReport {
        a: gaps.sums(GapLine::A),
        b: gaps.sums(GapLine::B),
        all: gaps.sums(GapLine::All),
        known: gaps.known(),
        missing: gaps.missing(),
        lost_by_both: gaps.lost_by_both(),
        given_up: gaps.given_up(),
        before_join: gaps.before_join(),
    }
}

impl VenueStats {
    /// Of a venue to which nothing came. It keeps the first arrivals of this many messages, whose
    /// memory is asked for here and never again.
    pub(crate) fn new(alloc: Global, window: usize) -> Result<VenueStats, AllocError>
        ensures { IfOk result (λ v. 0 < window → IsVenueOf window [] v) }
    {
        Ok(VenueStats {
            counts: VenueCounts::none(),
            gaps: VenueGaps::new(),
            times: VenueTimes::new(alloc, window)?,
        })
    }

    /// Takes an event of the venue before all that is counted: the gaps know of it.
    pub(crate) fn pass(
        &mut self,
        time: Option<u64>,
        event: &ReplayedEvent<'_>,
        ended: &mut EndedGaps,
    )
        ensures { (window : ℕ) (own : List TimedEvent) → IsVenueOf window own self.old
            → IsVenueOf window own self.new }
    {
        ended.clear();
        self.gaps.take(time, event, ended);
        self.gaps.restart();
    }

    /// Takes an event of the venue. The gaps that it ends are left in `ended`.
    #[inline(always)]
    pub(crate) fn take(
        &mut self,
        time: Option<u64>,
        event: &ReplayedEvent<'_>,
        ended: &mut EndedGaps,
    )
        ensures { (window : ℕ) (own : List TimedEvent) → IsVenueOf window own self.old
            → IsVenueOf window (timed_event time (told_by event.now) ∷ own) self.new }
    {
        ended.clear();
        self.gaps.take(time, event, ended);
        self.counts.add(event);
        self.times.take(time, event);
    }

    /// Returns the figures of the venue's own events, and these of the national bests.
    pub(crate) fn report(&self, bids: u64, offers: u64) -> VenueReport
        ensures own { (window : ℕ) (own : List TimedEvent) → IsVenueOf window own self.now
            → IsOwnReport window own result }
        ensures bids { result.bids ≡ bids }
        ensures offers { result.offers ≡ offers }
    {
        VenueReport {
            counts: self.counts,
            gaps: gap_report(&self.gaps),
            a_first: self.times.leads.a.stats(),
            b_first: self.times.leads.b.stats(),
            last_packets: self.times.last_packets,
            bids,
            offers,
        }
    }
}
