//! A line's seat at a venue.

ghost use Rattle.std.specs.Prelude.{◌≡◌};
ghost use Rattle.venue_lines.specs.Brought.{counts_of, with_packet};
ghost use Rattle.venue_lines.specs.Seats.{new_seat, seat_refusing};

use crate::accepted_packet::AcceptedPacket;
use crate::counted_line::CountedLine;
use crate::faults::TakeFault;
use crate::line_counts::LineCounts;
use feed_types::{LineId, VenueId};
use std::marker::{Model, PhantomData};

/// A line's right to bring packets to a venue of the feed `N`, and what it brought.
#[derive(Drop)]
pub struct LineSeat<G, N> {
    seat_venue: VenueId,
    seat_line: LineId,
    counted: CountedLine,
    lines: PhantomData<G>,
    feed: PhantomData<N>,
}

impl<G, N> Model for LineSeat<G, N> {
    ghost use Rattle.venue_lines.specs.Seats.{SeatState};

    ghost Value = { SeatState };

    ghost view = { λ s. record {
      venue = s.seat_venue;
      line = s.seat_line;
      brought = s.counted;
    } };
}

impl<G, N> LineSeat<G, N> {
    pub(crate) fn new(venue: VenueId, line: LineId) -> LineSeat<G, N>
        ensures { result ≡ new_seat venue line }
    {
        LineSeat {
            seat_venue: venue,
            seat_line: line,
            counted: CountedLine::new(),
            lines: PhantomData,
            feed: PhantomData,
        }
    }

    /// The venue that the seat was made for.
    pub fn venue(&self) -> VenueId
        ensures { result ≡ self.now.venue }
    {
        self.seat_venue
    }

    /// The line that the seat was made for.
    pub fn line(&self) -> LineId
        ensures { result ≡ self.now.line }
    {
        self.seat_line
    }

    /// The counts of what came by this seat.
    pub fn counts(&self) -> LineCounts
        ensures { result ≡ counts_of self.now.brought }
    {
        self.counted.counts()
    }

    /// The count of numbers that came first by this seat. It stays at 2^64 - 1 once it is there.
    pub fn wins(&self) -> u64
        ensures { result ≡ (counts_of self.now.brought).wins }
    {
        self.counts().wins
    }

    /// Four sums modulo 2^64, of the packets answered Taken, Heartbeat, Ended and Ahead: each adds
    /// up the numbers of the packets so answered, of a packet of messages the last message's.
    pub fn accepted(&self) -> [u64; 4]
        ensures { result ≡ (counts_of self.now.brought).accepted }
    {
        self.counts().accepted
    }

    /// Counts one more packet that was accepted.
    #[inline(always)]
    pub(crate) fn count(&mut self, packet: &AcceptedPacket)
        ensures { self.new ≡ record self.old { brought = with_packet packet.now self.old.brought } }
    {
        self.counted.count(packet);
    }

    /// Counts one more datagram that was refused with this fault.
    pub(crate) fn refuse(&mut self, fault: TakeFault)
        ensures { self.new ≡ seat_refusing fault self.old }
    {
        self.counted.refuse(fault);
    }
}
