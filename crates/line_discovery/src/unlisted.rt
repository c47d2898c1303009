//! What of a capture is in no row.
ghost use Rattle.std.specs.Prelude.{◌≡◌};
ghost use Rattle.line_discovery.specs.SurveyTexts.{blanks_of, rest_of};

use crate::counts::SurveyCounts;
use line_captures::FrameCounts;

/// What of a capture is in no row of its table.
#[derive(Clone, Copy, Debug, PartialEq, Eq)]
pub struct Unlisted {
    /// How many datagrams are no packets.
    pub others: u64,
    /// To how many addresses and ports these went, as far as there are rows.
    pub addresses: u64,
    /// How many frames carry no UDP datagram.
    pub blanks: u64,
    /// How many packets are in no row, since there were 4,096.
    pub unlisted: u64,
    /// How many other datagrams are in none.
    pub unlisted_others: u64,
}

/// Returns how many frames carry no UDP datagram.
fn blanks_of(frames: &FrameCounts) -> u64
    ensures { result ≡ blanks_of frames.now }
{
    frames
        .no_ip
        .saturating_add(frames.no_udp)
        .saturating_add(frames.fragments)
        .saturating_add(frames.cut)
        .saturating_add(frames.malformed)
        .saturating_add(frames.not_read)
}

/// Returns what of the counts is in no row.
pub(crate) fn rest_of(counts: &SurveyCounts) -> Unlisted
    ensures { result ≡ rest_of counts.now }
{
    Unlisted {
        others: counts.others.total(),
        addresses: counts.others.rows().len() as u64,
        blanks: blanks_of(&counts.progress.counts),
        unlisted: counts.lines.unlisted(),
        unlisted_others: counts.others.unlisted(),
    }
}
