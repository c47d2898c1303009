//! The metrics of what is known of each line beside what it has brought.
ghost use Rattle.std.specs.Prelude.{◌≡◌};
ghost use Rattle.run_metrics.specs.Metrics.{state_help, state_kind, state_name};

use crate::parts::{COUNTER, GAUGE};

/// What is known of a line.
#[derive(Clone, Copy, Debug, PartialEq, Eq)]
pub(crate) enum StateMetric {
    /// The datagrams of senders whose datagrams aren't taken.
    OtherSenders,
    /// The datagrams that aren't plausible.
    Withheld,
    /// The requests that couldn't be sent.
    Unsent,
    /// The requests that weren't sent since too many were.
    HeldBack,
    /// The datagrams that the system has dropped.
    Dropped,
    /// When its last datagram came.
    Heard,
    /// What has ended it.
    Ended,
}

impl StateMetric {
    /// The metric's name.
    pub(crate) fn name(self) -> &'static str
        ensures { result.now ≡ state_name self }
    {
        match self {
            StateMetric::OtherSenders => "nbbo_other_sender_datagrams_total",
            StateMetric::Withheld => "nbbo_withheld_datagrams_total",
            StateMetric::Unsent => "nbbo_unsent_requests_total",
            StateMetric::HeldBack => "nbbo_held_back_requests_total",
            StateMetric::Dropped => "nbbo_dropped_datagrams_total",
            StateMetric::Heard => "nbbo_line_last_datagram_timestamp_seconds",
            StateMetric::Ended => "nbbo_line_ended",
        }
    }

    /// What the metric says.
    pub(crate) fn help(self) -> &'static str
        ensures { result.now ≡ state_help self }
    {
        match self {
            StateMetric::OtherSenders => "Datagrams of senders whose datagrams aren't taken.",
            StateMetric::Withheld => "Datagrams that were withheld, since they aren't plausible.",
            StateMetric::Unsent => "Requests that couldn't be sent.",
            StateMetric::HeldBack => "Requests that weren't sent, since too many were.",
            StateMetric::Dropped => "Datagrams that the system dropped at the line's socket.",
            StateMetric::Heard => "Time of the line's last datagram, in seconds since 1970.",
            StateMetric::Ended => "1 at what has ended the line, if it has ended.",
        }
    }

    /// Whether the metric only grows, as its type says.
    pub(crate) fn kind(self) -> &'static str
        ensures { result.now ≡ state_kind self }
    {
        match self {
            StateMetric::OtherSenders | StateMetric::Withheld => COUNTER,
            StateMetric::Unsent | StateMetric::HeldBack | StateMetric::Dropped => COUNTER,
            StateMetric::Heard | StateMetric::Ended => GAUGE,
        }
    }
}
