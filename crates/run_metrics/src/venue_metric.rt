//! The metrics that there are of each venue.
ghost use Rattle.std.specs.Prelude.{◌≡◌};
ghost use Rattle.run_metrics.specs.Metrics.{venue_help, venue_kind, venue_name, venue_value};

use crate::figures::VenueFigures;
use crate::line_figures::{lacking, lag};
use crate::parts::{COUNTER, GAUGE};

/// A figure of a venue.
#[derive(Clone, Copy, Debug, PartialEq, Eq)]
pub(crate) enum VenueMetric {
    /// The number of the session's last item in sequence.
    Sent,
    /// How far the session is known to go.
    Known,
    /// How many messages are between these.
    Lag,
    /// How many messages of the first gap are missing.
    Lacking,
    /// The requests that the lines have sent.
    Requests,
    /// The messages that were given up.
    GivenUp,
}

impl VenueMetric {
    /// The metric's name.
    pub(crate) fn name(self) -> &'static str
        ensures { result.now ≡ venue_name self }
    {
        match self {
            VenueMetric::Sent => "nbbo_sent_sequence_number",
            VenueMetric::Known => "nbbo_known_sequence_number",
            VenueMetric::Lag => "nbbo_lag_messages",
            VenueMetric::Lacking => "nbbo_lacking_messages",
            VenueMetric::Requests => "nbbo_requests_total",
            VenueMetric::GivenUp => "nbbo_given_up_messages_total",
        }
    }

    /// What the metric says.
    pub(crate) fn help(self) -> &'static str
        ensures { result.now ≡ venue_help self }
    {
        match self {
            VenueMetric::Sent => "Number of the session's last item in sequence.",
            VenueMetric::Known => "Greatest number up to which the session is known to go.",
            VenueMetric::Lag => "Messages that are known of and not in sequence yet.",
            VenueMetric::Lacking => "Messages that are missing of the first gap.",
            VenueMetric::Requests => "Requests for missing messages that were sent.",
            VenueMetric::GivenUp => "Missing messages that were given up.",
        }
    }

    /// Whether the metric only grows, as its type says.
    pub(crate) fn kind(self) -> &'static str
        ensures { result.now ≡ venue_kind self }
    {
        match self {
            VenueMetric::Requests | VenueMetric::GivenUp => COUNTER,
            VenueMetric::Sent | VenueMetric::Known => GAUGE,
            VenueMetric::Lag | VenueMetric::Lacking => GAUGE,
        }
    }

    /// The metric's value.
    pub(crate) fn value(self, venue: &VenueFigures) -> u64
        ensures { result ≡ venue_value self venue.now }
    {
        let status = &venue.status;
        match self {
            VenueMetric::Sent => status.cursors.sent,
            VenueMetric::Known => status.cursors.known,
            VenueMetric::Lag => lag(status),
            VenueMetric::Lacking => u64::from(lacking(status)),
            VenueMetric::Requests => status.requests,
            VenueMetric::GivenUp => venue.given_up,
        }
    }
}
