//! The figures of a venue's line that tell most, which stand first.
ghost use Rattle.std.specs.Prelude.{◌≡◌};
ghost use Rattle.replay_reports.specs.report.Figures.{figures_shown, line_summary, recovery_summary, summary_figures};

use crate::counts::line_counts::LineCounts;
use crate::report::figure::{Figure, count, count_if};
use crate::report::venue_report::VenueReport;
use crate::times::duration_stats::DurationStats;
use feed_types::LineId;
use line_gaps::GapSums;

/// Returns the figures of line A or B.
fn line_summary(counts: &LineCounts, gaps: &GapSums, lead: &DurationStats) -> [Figure; 6]
    ensures { figures_shown result ≡ line_summary counts.now gaps.now lead.now }
{
    [
        count("packets", "packets", counts.packets),
        count("lost", "lost", gaps.lost()),
        count("late", "late", gaps.late),
        count("first", "first", counts.first),
        count_if("lead, ns", "lead_p50_ns", lead.count > 0, lead.p50),
        count("longest gap, ns", "longest_gap_ns", gaps.longest),
    ]
}

/// Returns the figures of recovery, of which there are no gaps and no leads.
fn recovery_summary(counts: &LineCounts) -> [Figure; 6]
    ensures { figures_shown result ≡ recovery_summary counts.now }
{
    [
        count("packets", "packets", counts.packets),
        count_if("lost", "lost", false, 0),
        count_if("late", "late", false, 0),
        count("first", "first", counts.first),
        count_if("lead, ns", "lead_p50_ns", false, 0),
        count_if("longest gap, ns", "longest_gap_ns", false, 0),
    ]
}

/// Returns the figures of a line that tell most: its packets, what it lost, what it brought late,
/// what it brought first, by how much it is first, and its longest gap.
pub fn summary_figures(r: &VenueReport, line: LineId) -> [Figure; 6]
    ensures { figures_shown result ≡ summary_figures r.now line }
{
    match line {
        LineId::A => line_summary(&r.counts.lines.a, &r.gaps.a, &r.a_first),
        LineId::B => line_summary(&r.counts.lines.b, &r.gaps.b, &r.b_first),
        LineId::Recovery => recovery_summary(&r.counts.lines.recovery),
    }
}
