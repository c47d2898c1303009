//! The figures of a venue and its lines that are told of a run. A sum stays at 2^64 - 1 once it is
//! there.
ghost use Rattle.std.specs.Prelude.{◌≡◌, sum};
ghost use Rattle.line_arbiter.specs.Counts.{shown};
ghost use Rattle.run_metrics.specs.LineFigures.{datagram_count, lacking, lag, message_count, refused_count};

use venue_lines::{LineCounts, VenueStatus};

/// The sum of the counts, 2^64 - 1 at most.
#[tactic(auto, using(crate::proofs::Sums::shown_more))]
fn sum_of(counts: &[u64]) -> u64
    ensures { result ≡ shown (sum counts.now) }
{
    let mut sum: u64 = 0;
    for count in counts {
        sum = sum.saturating_add(*count);
    }
    sum
}

/// Returns how many datagrams of the line were refused.
pub fn refused_count(line: &LineCounts) -> u64
    ensures { result ≡ refused_count line.now }
{
    sum_of(&line.refused)
}

/// Returns how many datagrams the line has brought.
pub fn datagram_count(line: &LineCounts) -> u64
    ensures { result ≡ datagram_count line.now }
{
    sum_of(&[
        line.taken,
        line.heartbeats,
        line.ends,
        line.ahead,
        refused_count(line),
    ])
}

/// Returns how many messages the line's packets had that were taken.
pub fn message_count(line: &LineCounts) -> u64
    ensures { result ≡ message_count line.now }
{
    line.wins.saturating_add(line.repeated)
}

/// Returns how many messages of the venue are known of and not sent on yet.
pub fn lag(venue: &VenueStatus) -> u64
    ensures { result ≡ lag venue.now }
{
    venue.cursors.known.saturating_sub(venue.cursors.sent)
}

/// Returns how many messages of the venue's first gap are missing.
pub fn lacking(venue: &VenueStatus) -> u16
    ensures { result ≡ lacking venue.now }
{
    match &venue.gap {
        Some(gap) => gap.count,
        None => 0,
    }
}
