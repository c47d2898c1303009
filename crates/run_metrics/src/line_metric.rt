//! The metrics that there are of each line of a venue.
ghost use Rattle.std.specs.Prelude.{◌≡◌};
ghost use Rattle.run_metrics.specs.Metrics.{line_help, line_name, line_value};

use crate::line_figures::{datagram_count, message_count};
use venue_lines::LineCounts;

/// A count of a line.
#[derive(Clone, Copy, Debug, PartialEq, Eq)]
pub(crate) enum LineMetric {
    /// The datagrams that it brought.
    Packets,
    /// The messages of the packets that were taken.
    Messages,
    /// Those of them that came first on this line.
    NewMessages,
    /// Those of them that had come before.
    RepeatedMessages,
    Heartbeats,
    /// The packets that announced the end of a session.
    Ends,
    /// The packets past the window.
    AheadPackets,
    /// The packets of sessions that aren't the venue's.
    OtherSessions,
}

impl LineMetric {
    /// The metric's name.
    pub(crate) fn name(self) -> &'static str
        ensures { result.now ≡ line_name self }
    {
        match self {
            LineMetric::Packets => "nbbo_packets_total",
            LineMetric::Messages => "nbbo_messages_total",
            LineMetric::NewMessages => "nbbo_new_messages_total",
            LineMetric::RepeatedMessages => "nbbo_repeated_messages_total",
            LineMetric::Heartbeats => "nbbo_heartbeats_total",
            LineMetric::Ends => "nbbo_ends_of_session_total",
            LineMetric::AheadPackets => "nbbo_ahead_packets_total",
            LineMetric::OtherSessions => "nbbo_other_session_packets_total",
        }
    }

    /// What the metric counts.
    pub(crate) fn help(self) -> &'static str
        ensures { result.now ≡ line_help self }
    {
        match self {
            LineMetric::Packets => "Datagrams that came on the line.",
            LineMetric::Messages => "Messages of the line's packets that were taken.",
            LineMetric::NewMessages => "Messages that came first on the line.",
            LineMetric::RepeatedMessages => "Messages of the line that had come before.",
            LineMetric::Heartbeats => "Heartbeats of the line.",
            LineMetric::Ends => "Ends of session of the line.",
            LineMetric::AheadPackets => "Packets of the line past the window.",
            LineMetric::OtherSessions => "Packets of sessions that aren't the venue's.",
        }
    }

    /// The metric's value.
    pub(crate) fn value(self, line: &LineCounts) -> u64
        ensures { result ≡ line_value self line.now }
    {
        match self {
            LineMetric::Packets => datagram_count(line),
            LineMetric::Messages => message_count(line),
            LineMetric::NewMessages => line.wins,
            LineMetric::RepeatedMessages => line.repeated,
            LineMetric::Heartbeats => line.heartbeats,
            LineMetric::Ends => line.ends,
            LineMetric::AheadPackets => line.ahead,
            LineMetric::OtherSessions => line.refused[7],
        }
    }
}
