//! The figures of all that is reported.

use crate::counts::best_counts::StateCounts;
use crate::report::venue_report::VenueReport;
use crate::times::busiest_period::Peak;

/// The figures of a replay.
#[derive(Drop)]
pub struct Report {
    /// The figures of each venue, in order.
    pub venues: Vec<VenueReport>,
    /// How often a national best changed to each state.
    pub states: StateCounts,
    /// The busiest second of all lines, and the busiest millisecond.
    pub second: Peak,
    pub millisecond: Peak,
    /// Whether the capture's records have times, so that their figures are reported.
    pub has_times: bool,
}
