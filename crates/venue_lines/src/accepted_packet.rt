//! A packet that was accepted.

ghost use Rattle.std.specs.Prelude.{◌≡◌};
ghost use Rattle.venue_lines.specs.Brought.{accepted_as};

use line_arbiter::Outcome;
use mold_packet::Packet;

/// A packet that was accepted, as it is counted.
#[derive(Clone, Copy, Debug)]
pub(crate) struct AcceptedPacket {
    /// The packet's number, of a packet of messages the last message's.
    pub(crate) number: u64,
    /// How it was answered.
    pub(crate) outcome: Outcome,
}

impl AcceptedPacket {
    /// The packet with its outcome.
    #[inline(always)]
    pub(crate) fn new(packet: &Packet<'_>, outcome: Outcome) -> AcceptedPacket
        ensures { result ≡ accepted_as packet.now outcome }
    {
        let number = match outcome {
            Outcome::Taken { .. } | Outcome::Ahead => packet.last_number(),
            Outcome::Heartbeat | Outcome::Ended => packet.number(),
        };
        AcceptedPacket { number, outcome }
    }
}
