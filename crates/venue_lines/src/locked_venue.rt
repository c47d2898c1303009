//! The part that a venue's lock guards: its cell, the seats that were handed out, and the order of
//! what was taken.

ghost use Rattle.std.specs.Prelude.{◌≡◌, IfOk, false};
ghost use Rattle.feed_types.specs.PerLines.{on_all};
ghost use Rattle.venue_lines.specs.Cells.{new_cell};
ghost use Rattle.venue_lines.specs.Seats.{GivesSeat, new_seat};
ghost use Rattle.venue_lines.specs.Joins.{before_join_after};
ghost use Rattle.venue_lines.specs.NextSessions.{names_at};
ghost use Rattle.venue_lines.specs.Starts.{HasItsLane};

use crate::cell::VenueCell;
use crate::faults::FeedFault;
use crate::looked::Looked;
use crate::next_sessions::FollowingSessions;
use crate::seat::LineSeat;
use crate::start::VenueStart;
use crate::timing::last_sent;
use feed_steps::FeedName;
use feed_types::{Genuine, LineId, PerLine, SessionName};

/// The part that a venue's lock guards: the cell, which lines have their seats, how many requests
/// were handed out, how many datagrams and skips were taken, how many messages were given up where
/// sessions were joined at their first packets, and the sessions that are named to follow.
#[derive(Drop)]
pub struct LockedVenue<G: Genuine, N: FeedName> {
    pub cell: VenueCell<G, N>,
    pub seated: PerLine<bool>,
    pub requests: u64,
    pub(crate) places: u64,
    pub(crate) before_join: u64,
    pub(crate) next: Option<FollowingSessions<G, N>>,
}

impl<G: Genuine, N: FeedName> LockedVenue<G, N> {
    /// The part that a venue's lock guards, of a venue to which nothing came.
    pub(crate) fn new(start: VenueStart<G>) -> LockedVenue<G, N>
        requires { HasItsLane N.lanes start }
        ensures begun { result ≡ record {
          cell = new_cell start.arbiter start.lane;
          seated = on_all false;
          requests = 0;
          places = 0;
          before_join = 0;
          next = result.next;
        } }
        ensures next { names_at start.arbiter.venue result.next ≡ start.next }
    {
        let (arbiter, lane, next) = start.into_parts();
        let next = FollowingSessions::of(next, arbiter.venue());
        LockedVenue {
            cell: VenueCell::new(arbiter, lane),
            seated: PerLine::all(false),
            requests: 0,
            places: 0,
            before_join: 0,
            next,
        }
    }

    /// Hands out the seat of the line, which has brought nothing: SeatTaken where it was handed out
    /// already.
    pub(crate) fn give_seat(&mut self, line: LineId) -> Result<LineSeat<G, N>, FeedFault>
        ensures seat { IfOk result (λ seat. seat ≡ new_seat self.old.cell.arbiter.venue line) }
        ensures given { GivesSeat line result self.old.seated self.new.seated }
        ensures cell { self.new.cell ≡ self.old.cell }
    {
        if self.seated.on(line) {
            return Err(FeedFault::SeatTaken);
        }
        self.seated.set(line, true);
        Ok(LineSeat::new(self.cell.venue(), line))
    }

    /// Returns the place of one more datagram or skip in the order in which they were taken, from
    /// 1.
    #[inline(always)]
    pub(crate) fn next_place(&mut self) -> u64
        ensures cell { self.new.cell ≡ self.old.cell }
        ensures place { result ≡ self.new.places }
    {
        self.places = self.places.saturating_add(1);
        self.places
    }

    /// Returns what a line sees once its datagram, the next one of the venue, was taken, at which
    /// the session of this name has begun, if one has.
    #[inline(always)]
    pub(crate) fn look(&mut self, begun: Option<SessionName>) -> Looked
        ensures cell { self.new.cell ≡ self.old.cell }
        ensures place { result.place ≡ self.new.places }
        ensures begun { result.begun ≡ begun }
    {
        Looked {
            gap: self.cell.has_gap(),
            place: self.next_place(),
            begun,
        }
    }

    /// Counts the messages that were given up, where the session was joined at a packet of this
    /// number.
    pub(crate) fn count_join(&mut self, joined: bool, number: u64)
        ensures { self.new ≡ record self.old {
          before_join = before_join_after joined number self.old.before_join;
        } }
    {
        if joined {
            let missing = number.saturating_sub(1);
            self.before_join = self.before_join.saturating_add(missing);
        }
    }

    /// The number of the last item of the venue's session that was pushed, where sessions are named
    /// to follow; else 0.
    #[inline(always)]
    pub(crate) fn last_if_followed(&self) -> u64 {
        match self.next {
            Some(_) => last_sent(&self.cell),
            None => 0,
        }
    }
}
