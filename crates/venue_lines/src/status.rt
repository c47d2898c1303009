//! What a venue shows while the feed runs.

ghost use Rattle.std.specs.Prelude.{◌≡◌};
ghost use Rattle.line_arbiter.specs.Histories.{History};
ghost use Rattle.venue_lines.specs.Cells.{CellFitsHistory};
ghost use Rattle.feed_types.specs.PerLines.{on_line};
ghost use Rattle.venue_lines.specs.Statuses.{ShowsBrought, ShowsHistory, ShowsLine, status_on};

use crate::cell::VenueCell;
use crate::line_counts::LineCounts;
use crate::locked_venue::LockedVenue;
use feed_steps::FeedName;
use feed_types::{Genuine, LineId, SessionName};
use line_arbiter::ArbiterStatus;
use mold_packet::Request;

/// What a venue has come to, at one moment.
#[derive(Clone, Copy, Debug, PartialEq, Eq)]
pub struct VenueStatus {
    /// Which of the venue's sessions is the present one, counted from 1 to 64.
    pub ordinal: u64,
    /// The present session's name: ten bytes, filled on the right with spaces.
    pub session: SessionName,
    /// How far the session was sent on, is whole, and is known to go; whether its end is announced;
    /// and how many messages are held.
    pub cursors: ArbiterStatus,
    /// The run of messages to ask for, from the first that is missing; None where none is.
    pub gap: Option<Request>,
    /// How many requests for a gap were handed out, in all sessions: those that the lines of a run
    /// were given to send, and those that [`crate::VenueLocks::request_due`] returned. It stays at
    /// 2^64 - 1 once it is there.
    pub requests: u64,
    /// How many messages were given up where sessions were joined at their first packets, in all
    /// sessions. It stays at 2^64 - 1 once it is there.
    pub before_join: u64,
    pub a: LineCounts,
    pub b: LineCounts,
    pub recovery: LineCounts,
}

/// What the line has brought, in all sessions. Its wins are the arbiter's.
fn line_counts<G: Genuine, N: FeedName>(cell: &VenueCell<G, N>, line: LineId) -> LineCounts
    ensures shows { (h : History) → CellFitsHistory cell.now h
        → ShowsLine h line (on_line line cell.now.brought) result }
    ensures counts { ShowsBrought (on_line line cell.now.brought) result }
{
    LineCounts {
        wins: cell.wins(line),
        ..cell.counts(line)
    }
}

impl VenueStatus {
    /// The status by what the venue's lock guards.
    pub(crate) fn of<G: Genuine, N: FeedName>(locked: &LockedVenue<G, N>) -> VenueStatus
        ensures shows { (h : History) → CellFitsHistory locked.now.cell h
            → ShowsHistory locked.now.cell.arbiter.window h locked.now.cell.brought result }
        ensures sent { result.cursors.sent ≡ locked.now.cell.arbiter.sent }
        ensures requests { result.requests ≡ locked.now.requests }
        ensures before_join { result.before_join ≡ locked.now.before_join }
        ensures counts { (line : LineId)
            → ShowsBrought (on_line line locked.now.cell.brought) (status_on line result) }
    {
        let arbiter = locked.cell.arbiter();
        VenueStatus {
            ordinal: arbiter.ordinal(),
            session: arbiter.session(),
            cursors: arbiter.status(),
            gap: arbiter.gap(),
            requests: locked.requests,
            before_join: locked.before_join,
            a: line_counts(&locked.cell, LineId::A),
            b: line_counts(&locked.cell, LineId::B),
            recovery: line_counts(&locked.cell, LineId::Recovery),
        }
    }

    /// Returns what the line has brought.
    pub fn on(&self, line: LineId) -> LineCounts
        ensures { result ≡ status_on line self.now }
    {
        match line {
            LineId::A => self.a,
            LineId::B => self.b,
            LineId::Recovery => self.recovery,
        }
    }
}
