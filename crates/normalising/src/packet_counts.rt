//! The counts of what came on a venue's lines.

use feed_types::Item;
use itch_messages::{OrderEvent, read_event};
use line_arbiter::{LineFault, Outcome};
use mold_packet::Packet;
use quote_payload::read_item;

/// The counts of what came on a venue's lines.
#[derive(Clone, Copy, Debug, Default, PartialEq, Eq)]
pub struct PacketCounts {
    /// Whether a packet began with a message that says something of orders.
    pub has_itch: bool,
    /// Whether one began with one of this project's own messages before that.
    pub has_own: bool,
    /// How many packets were refused.
    pub refused: u64,
    /// How many datagrams are no packet.
    pub bad: u64,
}

impl PacketCounts {
    /// Notes which payload a packet's first message is of, until one is of ITCH.
    pub(crate) fn note_payload(&mut self, packet: &Packet<'_>) {
        if self.has_itch {
            return;
        }
        let mut messages = packet.messages();
        let Some(first) = messages.next() else {
            return;
        };
        self.has_itch = !matches!(read_event(first), OrderEvent::Other);
        self.has_own = self.has_own || !matches!(read_item(first), Item::Other);
    }

    /// Counts a packet that was refused.
    pub(crate) fn count_answer(&mut self, answer: &Result<Outcome, LineFault>) {
        if answer.is_err() {
            self.refused = self.refused.saturating_add(1);
        }
    }

    /// Counts a datagram that is no packet.
    pub(crate) fn count_bad(&mut self) {
        self.bad = self.bad.saturating_add(1);
    }
}
