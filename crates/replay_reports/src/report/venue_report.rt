//! The figures of a venue.

use crate::counts::venue_counts::VenueCounts;
use crate::times::duration_stats::DurationStats;
use feed_types::PerLine;
use line_gaps::GapSums;

/// The gaps of a venue: of each line, and of all of them, and what became of its messages.
#[derive(Clone, Copy, Debug, Default, PartialEq, Eq)]
pub struct GapReport {
    pub a: GapSums,
    pub b: GapSums,
    pub all: GapSums,
    /// The highest number of the present session that a packet told of.
    pub known: u64,
    /// The messages that are missing at the end.
    pub missing: u64,
    /// The messages that neither line A nor line B brought.
    pub lost_by_both: u64,
    pub given_up: u64,
    /// The messages that were given up before any of their session came.
    pub before_join: u64,
}

/// The figures of a venue.
#[derive(Clone, Copy, Debug)]
pub struct VenueReport {
    pub counts: VenueCounts,
    pub gaps: GapReport,
    /// How long line B takes where line A is first.
    pub a_first: DurationStats,
    /// How long line A takes where line B is first.
    pub b_first: DurationStats,
    /// The time of each line's last packet that wasn't refused, in nanoseconds.
    pub last_packets: PerLine<Option<u64>>,
    /// The changes of national bests after which the best bid is the venue's.
    pub bids: u64,
    /// The same of the best offer.
    pub offers: u64,
}
