//! What a line brought in a period.
ghost use Rattle.std.specs.Prelude.{◌≡◌};
ghost use Rattle.feed_types.specs.FullCounts.{count_after};
ghost use Rattle.event_sinks.specs.SinkEvents.{told_by};
ghost use Rattle.report_rows.specs.EventFigures.{bytes_in, first_in, repeated_in};
ghost use Rattle.period_rows.specs.LineFigures.{figures_after};

use event_sinks::ReplayedEvent;
use line_arbiter::Outcome;

/// What a line brought in a period. A figure stays at 2^64 - 1 once it is there.
#[derive(Clone, Copy, Debug, Default, PartialEq, Eq)]
pub struct LineFigures {
    /// The datagrams.
    pub packets: u64,
    /// The bytes of those that are packets.
    pub bytes: u64,
    /// The messages that were taken, or had come before.
    pub messages: u64,
    /// Those that the line brought first.
    pub first: u64,
    /// The messages that the numbers of its packets pass over.
    pub missing: u64,
}

/// Of a line that brought nothing.
pub(crate) const NO_FIGURES: LineFigures = LineFigures {
    packets: 0,
    bytes: 0,
    messages: 0,
    first: 0,
    missing: 0,
};

/// Returns how many bytes a packet's datagram has.
fn bytes_in(event: &ReplayedEvent<'_>) -> u64
    ensures { result ≡ bytes_in (told_by event.now) }
{
    match event {
        ReplayedEvent::Packet { bytes, .. } => *bytes,
        _ => 0,
    }
}

/// Returns how many messages came first with a packet.
fn first_in(event: &ReplayedEvent<'_>) -> u64
    ensures { result ≡ first_in (told_by event.now) }
{
    match event {
        ReplayedEvent::Packet {
            answer: Ok(Outcome::Taken { new, .. }),
            ..
        } => u64::from(*new),
        _ => 0,
    }
}

/// Returns how many messages of a packet had come before.
fn repeated_in(event: &ReplayedEvent<'_>) -> u64
    ensures { result ≡ repeated_in (told_by event.now) }
{
    match event {
        ReplayedEvent::Packet {
            answer: Ok(Outcome::Taken { repeated, .. }),
            ..
        } => u64::from(*repeated),
        _ => 0,
    }
}

/// Returns a count after this many more: it stays at its largest number once it is there.
pub(crate) fn raised(count: u64, more: u64) -> u64
    ensures { result ≡ count_after count more }
{
    count.saturating_add(more)
}

impl LineFigures {
    /// Counts a datagram, whose number passes over this many messages.
    pub(crate) fn add(&mut self, passed: u64, event: &ReplayedEvent<'_>)
        ensures { self.new ≡ figures_after self.old passed (told_by event.now) }
    {
        self.packets = raised(self.packets, 1);
        self.bytes = raised(self.bytes, bytes_in(event));
        self.messages = raised(raised(self.messages, first_in(event)), repeated_in(event));
        self.first = raised(self.first, first_in(event));
        self.missing = raised(self.missing, passed);
    }
}
