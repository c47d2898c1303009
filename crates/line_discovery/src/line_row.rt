//! What was counted of a line.
ghost use Rattle.std.specs.Prelude.{◌≡◌};
ghost use Rattle.line_discovery.specs.Tables.{row_at_first, row_with};

use crate::endpoint_packet::EndpointPacket;
use crate::line_key::LineKey;
use crate::span::{Span, wider};

/// What was counted of a line. A count stays at its largest number once it is there.
#[derive(Clone, Copy, Debug, PartialEq, Eq)]
pub struct LineRow {
    pub key: LineKey,
    /// How many datagrams came.
    pub packets: u64,
    /// How many messages they had, each counted as often as it came.
    pub messages: u64,
    /// How many of these had one of the three forms of this project's own messages.
    pub own: u64,
    /// How many had one of the forms of TotalView-ITCH 5.0.
    pub itch: u64,
    /// How many bytes they had, without the UDP headers.
    pub bytes: u64,
    /// The lowest and the highest number of a message that came.
    pub numbers: Option<Span>,
    /// The earliest and the latest time, in nanoseconds from 1970 on.
    pub times: Option<Span>,
}

impl LineRow {
    /// Returns the row of a line of which nothing came.
    pub(crate) fn empty(key: LineKey) -> LineRow
        ensures { result ≡ row_at_first key }
    {
        LineRow {
            key,
            packets: 0,
            messages: 0,
            own: 0,
            itch: 0,
            bytes: 0,
            numbers: None,
            times: None,
        }
    }

    /// Counts a datagram of this line.
    pub(crate) fn grow(&mut self, sighting: &EndpointPacket)
        ensures { self.new ≡ row_with sighting.now self.old }
    {
        self.packets = self.packets.saturating_add(1);
        self.messages = self.messages.saturating_add(sighting.messages);
        self.own = self.own.saturating_add(sighting.own);
        self.itch = self.itch.saturating_add(sighting.itch);
        self.bytes = self.bytes.saturating_add(sighting.bytes);
        self.numbers = wider(self.numbers, sighting.numbers);
        self.times = wider(self.times, sighting.times);
    }
}
