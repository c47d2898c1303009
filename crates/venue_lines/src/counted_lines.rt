//! A venue's lines with what they brought, counted.

ghost use Rattle.std.specs.Prelude.{◌≡◌};
ghost use Rattle.feed_types.specs.PerLines.{on_all, on_line, with_line};
ghost use Rattle.venue_lines.specs.Brought.{counts_of, nothing_brought, refused_on_line, with_packet};

use crate::accepted_packet::AcceptedPacket;
use crate::counted_line::CountedLine;
use crate::faults::TakeFault;
use crate::line_counts::LineCounts;
use feed_types::LineId;
use std::marker::Model;

/// The counts of what each line of a venue brought. Contracts see what it brought.
#[derive(Drop)]
pub struct CountedLines {
    on_a: CountedLine,
    on_b: CountedLine,
    on_recovery: CountedLine,
}

impl Model for CountedLines {
    ghost use Rattle.feed_types.specs.declared.per_line.PerLine.{PerLine};
    ghost use Rattle.venue_lines.specs.Brought.{Brought};

    ghost Value = { PerLine Brought };

    ghost view = { λ l. record { a = l.on_a; b = l.on_b; recovery = l.on_recovery } };
}

impl CountedLines {
    /// Lines that have brought nothing.
    pub(crate) fn new() -> CountedLines
        ensures { result ≡ on_all nothing_brought }
    {
        CountedLines {
            on_a: CountedLine::new(),
            on_b: CountedLine::new(),
            on_recovery: CountedLine::new(),
        }
    }

    /// The counts of what the line brought.
    pub fn counts(&self, line: LineId) -> LineCounts
        ensures { result ≡ counts_of (on_line line self.now) }
    {
        match line {
            LineId::A => self.on_a.counts(),
            LineId::B => self.on_b.counts(),
            LineId::Recovery => self.on_recovery.counts(),
        }
    }

    /// Counts one more packet that was accepted on the line.
    #[inline(always)]
    pub(crate) fn count(&mut self, line: LineId, packet: &AcceptedPacket)
        ensures { self.new ≡ with_line line (with_packet packet.now (on_line line self.old))
            self.old }
    {
        match line {
            LineId::A => self.on_a.count(packet),
            LineId::B => self.on_b.count(packet),
            LineId::Recovery => self.on_recovery.count(packet),
        }
    }

    /// Counts one more datagram on the line that was refused with this fault.
    pub(crate) fn refuse(&mut self, line: LineId, fault: TakeFault)
        ensures { self.new ≡ refused_on_line line fault self.old }
    {
        match line {
            LineId::A => self.on_a.refuse(fault),
            LineId::B => self.on_b.refuse(fault),
            LineId::Recovery => self.on_recovery.refuse(fault),
        }
    }
}
