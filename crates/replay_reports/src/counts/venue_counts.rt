//! The counts of a venue.
ghost use Rattle.std.specs.Prelude.{◌≡◌, ℕ, ◌∷◌, [], List};
ghost use Rattle.event_sinks.specs.SinkEvents.{SinkEvent, told_by, told_packet, told_refusal};
ghost use Rattle.replay_reports.specs.counts.Counts.{venue_counts};

use crate::counts::item_counts::ItemCounts;
use crate::counts::line_counts::LineCounts;
use event_sinks::ReplayedEvent;
use feed_types::{LineId, PerLine};
use line_arbiter::{LineFault, Outcome};
use mold_packet::PacketFault;

/// The counts of a venue's events.
#[derive(Clone, Copy, Debug)]
pub struct VenueCounts {
    pub lines: PerLine<LineCounts>,
    pub items: ItemCounts,
    /// The skips that were granted.
    pub skips: u64,
    pub skips_refused: u64,
    /// The next sessions that began.
    pub renewals: u64,
    pub renewals_refused: u64,
    /// The declarations of self-help.
    pub declared: u64,
    pub withdrawn: u64,
    /// The declarations and withdrawals of what already was so.
    pub already: u64,
}

impl VenueCounts {
    /// Counts of nothing.
    #[tactic(auto, unfolding(crate::specs::counts::Counts::each_place))]
    pub(crate) fn none() -> VenueCounts
        ensures { result ≡ venue_counts [] }
    {
        VenueCounts {
            lines: PerLine::all(LineCounts::default()),
            items: ItemCounts::default(),
            skips: 0,
            skips_refused: 0,
            renewals: 0,
            renewals_refused: 0,
            declared: 0,
            withdrawn: 0,
            already: 0,
        }
    }

    /// Counts a packet of a line, whose datagram has this many bytes, by its answer.
    #[inline(always)]
    fn add_packet(&mut self, line: LineId, bytes: u64, answer: &Result<Outcome, LineFault>)
        ensures { (venue number count : ℕ) (before : List SinkEvent)
            → self.old ≡ venue_counts before → self.new
            ≡ venue_counts (told_packet venue line number count bytes answer.now ∷ before) }
    {
        match line {
            LineId::A => self.lines.a.add_packet(bytes, answer),
            LineId::B => self.lines.b.add_packet(bytes, answer),
            LineId::Recovery => self.lines.recovery.add_packet(bytes, answer),
        }
    }

    /// Counts a datagram of a line that is no packet.
    fn add_refusal(&mut self, line: LineId, fault: PacketFault)
        ensures { (venue : ℕ) (before : List SinkEvent) → self.old ≡ venue_counts before
            → self.new ≡ venue_counts (told_refusal venue line fault ∷ before) }
    {
        match line {
            LineId::A => self.lines.a.add_refusal(fault),
            LineId::B => self.lines.b.add_refusal(fault),
            LineId::Recovery => self.lines.recovery.add_refusal(fault),
        }
    }

    /// Counts an event of the venue.
    #[inline(always)]
    pub(crate) fn add(&mut self, event: &ReplayedEvent<'_>)
        ensures { (before : List SinkEvent) → self.old ≡ venue_counts before
            → self.new ≡ venue_counts (told_by event.now ∷ before) }
    {
        match event {
            ReplayedEvent::Packet {
                line,
                bytes,
                answer,
                ..
            } => self.add_packet(*line, *bytes, answer),
            ReplayedEvent::Refusal { line, fault, .. } => self.add_refusal(*line, *fault),
            ReplayedEvent::Item { item, .. } => self.items.add(item),
            ReplayedEvent::Renewal { answer: Ok(_), .. } => {
                self.renewals = self.renewals.saturating_add(1);
            }
            ReplayedEvent::Renewal { answer: Err(_), .. } => {
                self.renewals_refused = self.renewals_refused.saturating_add(1);
            }
            ReplayedEvent::Skip { answer: Ok(()), .. } => self.skips = self.skips.saturating_add(1),
            ReplayedEvent::Skip { answer: Err(_), .. } => {
                self.skips_refused = self.skips_refused.saturating_add(1);
            }
            ReplayedEvent::Declaration { position: None, .. } => {
                self.already = self.already.saturating_add(1);
            }
            ReplayedEvent::Declaration { on: true, .. } => {
                self.declared = self.declared.saturating_add(1);
            }
            ReplayedEvent::Declaration { on: false, .. } => {
                self.withdrawn = self.withdrawn.saturating_add(1);
            }
            ReplayedEvent::Best { .. } | ReplayedEvent::Gap { .. } | ReplayedEvent::Last { .. } =>
                {}
        }
    }
}
