//! What a run that listens has come to.

use feed_types::VenueId;
use run_settings::VenueNames;
use venue_lines::VenueStatus;

/// What has ended a line while a run goes on.
#[derive(Clone, Copy, Debug, PartialEq, Eq)]
pub enum LineEndReason {
    /// An end of its venue's session.
    OwnSession,
    /// An end of another session.
    OtherSession,
    /// It has read as many datagrams as it may.
    ReadOut,
    /// Its socket has failed, or memory for a datagram was refused.
    Failed,
}

/// What is known of a line beside what it has brought.
#[derive(Clone, Copy, Debug, PartialEq, Eq)]
pub struct LineState {
    /// How many datagrams the system has dropped at its socket, where the system tells that.
    pub dropped: Option<u64>,
    /// What has ended it, if it has ended.
    pub end: Option<LineEndReason>,
    /// When its last datagram came, in nanoseconds from 1970 on in UTC, where one has come and the
    /// time is known.
    pub heard: Option<u64>,
    /// How many datagrams of senders whose datagrams aren't taken it has passed over.
    pub foreign: u64,
    /// How many datagrams it has withheld since they aren't plausible.
    pub withheld: u64,
    /// How many requests it couldn't send.
    pub unsent: u64,
    /// How many requests it hasn't sent since it had sent as many as it may.
    pub held_back: u64,
}

/// A line of which nothing is known.
pub const UNKNOWN_STATE: LineState = LineState {
    dropped: None,
    end: None,
    heard: None,
    foreign: 0,
    withheld: 0,
    unsent: 0,
    held_back: 0,
};

/// A venue, what it has come to, and what is known of its lines.
#[derive(Clone, Copy, Debug, PartialEq, Eq)]
pub struct VenueFigures {
    pub venue: VenueId,
    pub status: VenueStatus,
    /// How many of its messages were given up.
    pub given_up: u64,
    pub a: LineState,
    pub b: LineState,
    /// Its line R, where it has one.
    pub recovery: Option<LineState>,
}

/// What a run has come to, and its venues in order.
#[derive(Clone, Copy, Debug)]
pub struct RunFigures<'a> {
    /// How many seconds it has gone on.
    pub seconds: u64,
    /// How many changes of the national best were taken from it.
    pub changes: u64,
    /// How many of these wait to be printed.
    pub waiting: u64,
    /// How many rows of changes were printed while it goes on.
    pub printed: u64,
    /// How many of these rows have a time.
    pub timed: u64,
    /// The nanoseconds from the times of these rows until they were printed, added up.
    pub latency: u64,
    /// How many texts standard error hasn't taken.
    pub untaken: u64,
    pub venues: &'a [VenueFigures],
    /// What stands for a venue.
    pub names: &'a VenueNames,
}
