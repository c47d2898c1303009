//! The counts of a line.

ghost use Rattle.std.specs.Prelude.{◌≡◌, ◌+◌, ◌<◌, map, slice_index};
ghost use Rattle.line_arbiter.specs.Counts.{shown};
ghost use Rattle.venue_lines.specs.Brought.{Brought, brought_together, counted_codes, counts_of, nothing_brought, with_packet, with_refusal};

use crate::accepted_packet::AcceptedPacket;
use crate::faults::TakeFault;
use line_arbiter::Outcome;

/// What a line has brought to its venue, counted. A count stays at 2^64 - 1 once it is there.
#[derive(Clone, Copy, Debug, PartialEq, Eq)]
pub struct LineCounts {
    /// The numbers that came first on the line.
    pub wins: u64,
    /// The packets whose messages were held, or had been before.
    pub taken: u64,
    /// The messages of these packets that had come before.
    pub repeated: u64,
    /// The heartbeats.
    pub heartbeats: u64,
    /// The packets that announced the end of a session.
    pub ends: u64,
    /// The packets beyond the window, of which nothing was held.
    pub ahead: u64,
    /// Four sums modulo 2^64, of the packets answered Taken, Heartbeat, Ended and Ahead: each adds
    /// up the numbers of the packets so answered, of a packet of messages the last message's. One
    /// that has changed says that the line brings packets, also where all are repeats.
    pub accepted: [u64; 4],
    /// The datagrams that were refused, each at the place that its fault has as a code
    /// ([`TakeFault::code`]): a packet's faults at 1 to 4, a line's at 7 to 11. The other places
    /// are 0.
    pub refused: [u64; 12],
}

/// The counts at the place in both lists, added up.
fn both_at(mine: &[u64; 12], theirs: &[u64; 12], place: usize) -> u64
    requires { place < 12 }
    ensures { result ≡ shown (slice_index mine.now place + slice_index theirs.now place) }
{
    mine[place].saturating_add(theirs[place])
}

/// The counts of the one list and the other, added up place by place.
fn both_refused(mine: &[u64; 12], theirs: &[u64; 12]) -> [u64; 12]
    ensures { result ≡ map (λ code. shown (slice_index mine.now code + slice_index theirs.now code))
        counted_codes }
{
    [
        both_at(mine, theirs, 0),
        both_at(mine, theirs, 1),
        both_at(mine, theirs, 2),
        both_at(mine, theirs, 3),
        both_at(mine, theirs, 4),
        both_at(mine, theirs, 5),
        both_at(mine, theirs, 6),
        both_at(mine, theirs, 7),
        both_at(mine, theirs, 8),
        both_at(mine, theirs, 9),
        both_at(mine, theirs, 10),
        both_at(mine, theirs, 11),
    ]
}

impl LineCounts {
    /// The counts of a line that has brought nothing.
    pub fn none() -> LineCounts
        ensures { result ≡ counts_of nothing_brought }
    {
        LineCounts {
            wins: 0,
            taken: 0,
            repeated: 0,
            heartbeats: 0,
            ends: 0,
            ahead: 0,
            accepted: [0; 4],
            refused: [0; 12],
        }
    }

    /// Counts one more packet that was accepted.
    #[inline(always)]
    pub(crate) fn count(&mut self, packet: &AcceptedPacket)
        ensures { (b : Brought) → self.old ≡ counts_of b
            → self.new ≡ counts_of (with_packet packet.now b) }
    {
        let number = packet.number;
        match packet.outcome {
            Outcome::Taken { new, repeated } => {
                self.wins = self.wins.saturating_add(u64::from(new));
                self.taken = self.taken.saturating_add(1);
                self.repeated = self.repeated.saturating_add(u64::from(repeated));
                self.accepted[0] = self.accepted[0].wrapping_add(number);
            }
            Outcome::Heartbeat => {
                self.heartbeats = self.heartbeats.saturating_add(1);
                self.accepted[1] = self.accepted[1].wrapping_add(number);
            }
            Outcome::Ended => {
                self.ends = self.ends.saturating_add(1);
                self.accepted[2] = self.accepted[2].wrapping_add(number);
            }
            Outcome::Ahead => {
                self.ahead = self.ahead.saturating_add(1);
                self.accepted[3] = self.accepted[3].wrapping_add(number);
            }
        }
    }

    /// Counts one more datagram that was refused with this fault.
    #[tactic(auto, using(crate::proofs::Counting::refusal_counted))]
    pub(crate) fn refuse(&mut self, fault: TakeFault)
        ensures { (b : Brought) → self.old ≡ counts_of b
            → self.new ≡ counts_of (with_refusal fault b) }
    {
        let code = usize::from(fault.code());
        self.refused[code] = self.refused[code].saturating_add(1);
    }

    /// Adds up these counts and the others.
    #[tactic(auto, using(crate::proofs::Counting::both_counted))]
    pub fn together(&self, others: &LineCounts) -> LineCounts
        ensures { (b c : Brought) → self.now ≡ counts_of b → others.now ≡ counts_of c
            → result ≡ counts_of (brought_together b c) }
    {
        LineCounts {
            wins: self.wins.saturating_add(others.wins),
            taken: self.taken.saturating_add(others.taken),
            repeated: self.repeated.saturating_add(others.repeated),
            heartbeats: self.heartbeats.saturating_add(others.heartbeats),
            ends: self.ends.saturating_add(others.ends),
            ahead: self.ahead.saturating_add(others.ahead),
            accepted: [
                self.accepted[0].wrapping_add(others.accepted[0]),
                self.accepted[1].wrapping_add(others.accepted[1]),
                self.accepted[2].wrapping_add(others.accepted[2]),
                self.accepted[3].wrapping_add(others.accepted[3]),
            ],
            refused: both_refused(&self.refused, &others.refused),
        }
    }
}
