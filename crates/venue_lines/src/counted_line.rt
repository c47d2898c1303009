//! A line with what it brought, counted.

ghost use Rattle.std.specs.Prelude.{◌≡◌};
ghost use Rattle.venue_lines.specs.Brought.{counts_of, nothing_brought, with_packet, with_refusal};

use crate::accepted_packet::AcceptedPacket;
use crate::faults::TakeFault;
use crate::line_counts::LineCounts;
use feed_types::Past;
use std::marker::Model;

/// The counts of what a line brought. Contracts see what it brought.
#[derive(Drop)]
pub(crate) struct CountedLine {
    counts: LineCounts,
    packets: Past<AcceptedPacket>,
    faults: Past<TakeFault>,
}

impl Model for CountedLine {
    ghost use Rattle.std.specs.Prelude.{◌≡◌};
    ghost use Rattle.venue_lines.specs.Brought.{Brought, counts_of};

    ghost Value = { Brought };

    ghost view = { λ l. record { accepted = l.packets.items; refused = l.faults.items } };

    ghost invariant = { λ l. l.counts
        ≡ counts_of (record { accepted = l.packets.items; refused = l.faults.items }) };
}

impl CountedLine {
    /// A line that has brought nothing.
    pub(crate) fn new() -> CountedLine
        ensures { result ≡ nothing_brought }
    {
        CountedLine {
            counts: LineCounts::none(),
            packets: Past::new(),
            faults: Past::new(),
        }
    }

    /// The counts of what the line brought.
    pub(crate) fn counts(&self) -> LineCounts
        ensures { result ≡ counts_of self.now }
    {
        self.counts
    }

    /// Counts one more packet that was accepted.
    #[inline(always)]
    pub(crate) fn count(&mut self, packet: &AcceptedPacket)
        ensures { self.new ≡ with_packet packet.now self.old }
    {
        self.counts.count(packet);
        self.packets = self.packets.with(packet);
    }

    /// Counts one more datagram that was refused with this fault.
    pub(crate) fn refuse(&mut self, fault: TakeFault)
        ensures { self.new ≡ with_refusal fault self.old }
    {
        self.counts.refuse(fault);
        self.faults = self.faults.with(&fault);
    }
}
