//! The events of a replay, as a sink takes them.

use feed_types::{LineId, Numbered, VenueId};
use line_arbiter::{LineFault, Outcome, RenewFault, SkipFault};
use mold_packet::{PacketFault, Request};
use nbbo_book::Change;

/// An event of a replay.
#[derive(Clone, Copy, Debug)]
pub enum ReplayedEvent<'a> {
    /// A packet was answered. Its messages have the numbers from `number` on; a heartbeat and an
    /// end of session have none. `bytes` is the length of its datagram.
    Packet {
        venue: VenueId,
        line: LineId,
        number: u64,
        count: u16,
        bytes: u64,
        answer: &'a Result<Outcome, LineFault>,
    },
    /// A datagram was no packet.
    Refusal {
        venue: VenueId,
        line: LineId,
        fault: PacketFault,
    },
    /// An item was ready and taken.
    Item {
        venue: VenueId,
        item: &'a Numbered,
    },
    /// A national best changed, by the last item or declaration.
    Best {
        number: u64,
        change: &'a Change,
    },
    /// These messages are to be asked for.
    Gap {
        venue: VenueId,
        request: &'a Request,
    },
    /// A renewal was answered: with the ordinal of the session that begins, or why none does.
    Renewal {
        venue: VenueId,
        answer: &'a Result<u64, RenewFault>,
    },
    /// A skip to this number was answered.
    Skip {
        venue: VenueId,
        number: u64,
        answer: &'a Result<(), SkipFault>,
    },
    /// Self-help was declared or withdrawn: the position of its entry, or none where it already was
    /// so.
    Declaration {
        venue: VenueId,
        on: bool,
        position: Option<u64>,
    },
    /// The capture is over: how many items of the venue were taken, and how many numbers each line
    /// brought first.
    Last {
        venue: VenueId,
        sent: u64,
        a: u64,
        b: u64,
        recovery: u64,
    },
}
