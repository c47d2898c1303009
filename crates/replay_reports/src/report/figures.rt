//! The figures of each part of a report, in the order in which they are printed.
ghost use Rattle.std.specs.Prelude.{◌≡◌};
ghost use Rattle.replay_reports.specs.report.Figures.{busiest_figures, duration_figures, figures_shown, gap_figures, item_figures, leading_figures, line_figures, line_loss_figures, loss_figures, packet_figures, refusal_figures, state_figures, venue_figures};

use crate::counts::best_counts::StateCounts;
use crate::counts::item_counts::ItemCounts;
use crate::counts::line_counts::LineCounts;
use crate::counts::venue_counts::VenueCounts;
use crate::report::figure::{Figure, count, count_if, time};
use crate::report::venue_report::GapReport;
use crate::times::busiest_period::Peak;
use crate::times::duration_stats::DurationStats;
use feed_types::PerLine;
use line_gaps::GapSums;

/// Returns the figures of a line's datagrams.
pub fn line_figures(s: &LineCounts) -> [Figure; 8]
    ensures { figures_shown result ≡ line_figures s.now }
{
    [
        count("packets", "packets", s.packets),
        count("bytes", "bytes", s.bytes),
        count("with messages taken", "taken", s.taken),
        count("messages brought first", "first", s.first),
        count("messages brought again", "repeated", s.repeated),
        count("heartbeats", "heartbeats", s.heartbeats),
        count("ends of session", "ends", s.ends),
        count("past the window", "ahead", s.ahead),
    ]
}

/// Returns the figures of a line's refusals, by their faults.
pub fn refusal_figures(s: &LineCounts) -> [Figure; 9]
    ensures { figures_shown result ≡ refusal_figures s.now }
{
    let r = &s.refused;
    [
        count("refused: short header", "short_header", r[1]),
        count("refused: truncated block", "truncated_block", r[2]),
        count("refused: zero sequence", "zero_sequence", r[3]),
        count("refused: sequence overflow", "sequence_overflow", r[4]),
        count("refused: other session", "other_session", r[7]),
        count("refused: past end", "past_end", r[8]),
        count("refused: end moved", "end_moved", r[9]),
        count("refused: end too early", "end_too_early", r[10]),
        count("refused: conflict", "conflict", r[11]),
    ]
}

/// Returns the figures of a venue's items.
pub fn item_figures(s: &ItemCounts) -> [Figure; 6]
    ensures { figures_shown result ≡ item_figures s.now }
{
    [
        count("quotes", "quotes", s.quotes),
        count("halts", "halts", s.halts),
        count("resumptions", "resumptions", s.resumptions),
        count("others", "others", s.others),
        count("ends of session", "ends", s.ends),
        count("last number", "last", s.last),
    ]
}

/// Returns the figures of a venue's sessions, skips and declarations of self-help.
pub fn venue_figures(s: &VenueCounts) -> [Figure; 7]
    ensures { figures_shown result ≡ venue_figures s.now }
{
    [
        count("next sessions begun", "renewals", s.renewals),
        count(
            "next sessions refused",
            "renewals_refused",
            s.renewals_refused,
        ),
        count("skips", "skips", s.skips),
        count("skips refused", "skips_refused", s.skips_refused),
        count("self-help declared", "self_help_declared", s.declared),
        count("self-help withdrawn", "self_help_withdrawn", s.withdrawn),
        count("self-help already so", "self_help_already", s.already),
    ]
}

/// Returns the figures of durations in nanoseconds. Of no duration there is no mean.
pub fn duration_figures(s: &DurationStats) -> [Figure; 7]
    ensures { figures_shown result ≡ duration_figures s.now }
{
    let some = s.count > 0;
    [
        count("messages", "messages", s.count),
        count_if("mean, ns", "mean_ns", some, s.mean),
        count_if("half within, ns", "p50_ns", some, s.p50),
        count_if("90 % within, ns", "p90_ns", some, s.p90),
        count_if("99 % within, ns", "p99_ns", some, s.p99),
        count_if("99.9 % within, ns", "p999_ns", some, s.p999),
        count_if("longest, ns", "longest_ns", some, s.max),
    ]
}

/// Returns the figures of the changes of national bests, by the state after.
pub fn state_figures(s: &StateCounts) -> [Figure; 5]
    ensures { figures_shown result ≡ state_figures s.now }
{
    [
        count("empty", "empty", s.empty),
        count("one-sided", "one_sided", s.one_sided),
        count("normal", "normal", s.normal),
        count("locked", "locked", s.locked),
        count("crossed", "crossed", s.crossed),
    ]
}

/// Returns the figures of the gaps of a line, or of all lines.
pub fn gap_figures(s: &GapSums) -> [Figure; 13]
    ensures { figures_shown result ≡ gap_figures s.now }
{
    let by = &s.ended_by;
    [
        count("gaps", "found", s.found),
        count("messages left out", "left_out", s.left_out),
        count("late of these", "late", s.late),
        count("given up of these", "given_up", s.given_up),
        count("messages again", "again", s.again),
        count("longest, ns", "longest_ns", s.longest),
        count("ended by line A", "ended_by_a", by.a),
        count("ended by line B", "ended_by_b", by.b),
        count("ended by recovery", "ended_by_recovery", by.recovery),
        count("ended by a skip", "ended_by_skip", by.skip),
        count("filled before", "before", by.before),
        count("open at the end", "open", by.open),
        count("merged past 16 open", "merged", s.merged),
    ]
}

/// Returns what a line lost, and what of the messages that it passed over it brought late.
pub fn line_loss_figures(s: &GapSums) -> [Figure; 2]
    ensures { figures_shown result ≡ line_loss_figures s.now }
{
    [
        count("lost", "lost", s.lost()),
        count("late", "late", s.late),
    ]
}

/// Returns the figures of the messages that a venue's lines lack together.
pub fn loss_figures(s: &GapReport) -> [Figure; 5]
    ensures { figures_shown result ≡ loss_figures s.now }
{
    [
        count("highest number known", "known", s.known),
        count("missing at the end", "missing", s.missing),
        count("lost by both lines", "lost_by_both", s.lost_by_both),
        count("given up", "given_up", s.given_up),
        count("given up before a join", "before_join", s.before_join),
    ]
}

/// Returns the figures of the changes of national bests whose side is a venue's.
pub fn leading_figures(bids: u64, offers: u64) -> [Figure; 2]
    ensures { figures_shown result ≡ leading_figures bids offers }
{
    [
        count("best bids led", "best_bids", bids),
        count("best offers led", "best_offers", offers),
    ]
}

/// Returns when the last packet of each line came.
pub fn packet_figures(s: &PerLine<Option<u64>>) -> [Figure; 3]
    ensures { figures_shown result ≡ packet_figures s.now }
{
    [
        time("line A", "A", s.a),
        time("line B", "B", s.b),
        time("recovery", "recovery", s.recovery),
    ]
}

/// Returns the busiest second and the busiest millisecond, when they began, and how many datagrams
/// came too late for their second or millisecond.
pub fn busiest_figures(second: &Peak, millisecond: &Peak) -> [Figure; 6]
    ensures { figures_shown result ≡ busiest_figures second.now millisecond.now }
{
    [
        count("messages in a second", "busiest_second", second.messages),
        count(
            "in a millisecond",
            "busiest_millisecond",
            millisecond.messages,
        ),
        time("that second began", "busiest_second_began", second.began),
        time(
            "that millisecond began",
            "busiest_millisecond_began",
            millisecond.began,
        ),
        count("too late for a second", "late_for_second", second.late),
        count(
            "too late for a millisecond",
            "late_for_millisecond",
            millisecond.late,
        ),
    ]
}
