//! The counts of a line.
ghost use Rattle.std.specs.Prelude.{◌≡◌, ℕ, ◌∷◌, List};
ghost use Rattle.feed_types.specs.declared.line.LineId.{LineId};
ghost use Rattle.event_sinks.specs.SinkEvents.{SinkEvent, told_packet, told_refusal};
ghost use Rattle.replay_reports.specs.counts.Counts.{line_counts};

use line_arbiter::{LineFault, Outcome};
use mold_packet::PacketFault;

/// What a line of a venue brought, counted. A count stays at 2^64 - 1 once it is there, as all
/// counts here.
#[derive(Clone, Copy, Debug, Default, PartialEq, Eq)]
pub struct LineCounts {
    /// The datagrams.
    pub packets: u64,
    /// The bytes of those that are packets.
    pub bytes: u64,
    /// Those whose messages were taken.
    pub taken: u64,
    /// The messages that this line brought first.
    pub first: u64,
    /// The messages that had come before.
    pub repeated: u64,
    pub heartbeats: u64,
    /// The packets that announced the end of the session.
    pub ends: u64,
    /// The packets past the window.
    pub ahead: u64,
    /// The datagrams that were refused, each at the place that its fault has as a code: a packet's
    /// faults at 1 to 4, a line's at 7 to 11. The other places are 0.
    pub refused: [u64; 12],
}

impl LineCounts {
    /// Counts a packet, whose datagram has this many bytes, by its answer.
    #[inline(always)]
    pub(crate) fn add_packet(&mut self, bytes: u64, answer: &Result<Outcome, LineFault>)
        ensures { (line : LineId) (venue number count : ℕ) (before : List SinkEvent)
            → self.old ≡ line_counts before → self.new
            ≡ line_counts (told_packet venue line number count bytes answer.now ∷ before) }
    {
        self.packets = self.packets.saturating_add(1);
        self.bytes = self.bytes.saturating_add(bytes);
        match answer {
            Ok(Outcome::Taken { new, repeated }) => {
                self.taken = self.taken.saturating_add(1);
                self.first = self.first.saturating_add(u64::from(*new));
                self.repeated = self.repeated.saturating_add(u64::from(*repeated));
            }
            Ok(Outcome::Heartbeat) => self.heartbeats = self.heartbeats.saturating_add(1),
            Ok(Outcome::Ended) => self.ends = self.ends.saturating_add(1),
            Ok(Outcome::Ahead) => self.ahead = self.ahead.saturating_add(1),
            Err(fault) => {
                let code = usize::from(fault.code());
                self.refused[code] = self.refused[code].saturating_add(1);
            }
        }
    }

    /// Counts a datagram that is no packet.
    pub(crate) fn add_refusal(&mut self, fault: PacketFault)
        ensures { (line : LineId) (venue : ℕ) (before : List SinkEvent)
            → self.old ≡ line_counts before
            → self.new ≡ line_counts (told_refusal venue line fault ∷ before) }
    {
        let code = usize::from(fault.code());
        self.packets = self.packets.saturating_add(1);
        self.refused[code] = self.refused[code].saturating_add(1);
    }
}
