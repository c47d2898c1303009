//! The numbers of a line's packets.
ghost use Rattle.std.specs.Prelude.{◌≡◌, ◌<◌, IfSome, None, length};
ghost use Rattle.event_sinks.specs.SinkEvents.{told_by};
ghost use Rattle.line_gaps.specs.Gaps.{brings_messages, packet_heard};
ghost use Rattle.line_gaps.specs.LineSteps.{highest_joined, joined_at};
ghost use Rattle.period_rows.specs.Sequences.{both_come, both_sequences, come_after, come_at, counts_now, line_place, packet_sequences, passed_over, sequence_after, sequence_at, sequence_counted, sequences_after};

use event_sinks::ReplayedEvent;
use feed_types::{LineId, VenueId};
use line_arbiter::Outcome;
use line_gaps::TimedPacket;

/// Which numbers the packets of a line have brought.
#[derive(Clone, Copy, Debug, Default, PartialEq, Eq)]
pub struct LineSequence {
    /// Whether a packet of the present session counted.
    pub begun: bool,
    /// The highest number of the present session: that of a packet's last message, or the one below
    /// a heartbeat's or an end's.
    pub highest: u64,
    /// The latest packet past the window.
    pub far: Option<TimedPacket>,
    /// Whether a message of the venue's present session came, on any of its lines.
    pub has_come: bool,
}

/// Returns a packet of a line, without its time.
fn heard(line: LineId, number: u64, count: u16) -> TimedPacket
    ensures { result ≡ packet_heard line number count None }
{
    TimedPacket {
        line,
        number,
        count,
        time: None,
    }
}

/// Returns whether messages came with a packet.
#[inline(always)]
fn brings_messages(event: &ReplayedEvent<'_>) -> bool
    ensures { result ≡ brings_messages (told_by event.now) }
{
    matches!(
        event,
        ReplayedEvent::Packet {
            answer: Ok(Outcome::Taken { .. }),
            ..
        }
    )
}

impl LineSequence {
    /// Notes whether a message came with an event of the venue.
    #[inline(always)]
    fn note(&mut self, event: &ReplayedEvent<'_>)
        ensures { self.new ≡ come_after self.old (told_by event.now) }
    {
        self.has_come = brings_messages(event) || self.has_come;
    }

    /// Has the line begin where a skip goes, unless it has begun, or a message came before.
    fn begin_at(&mut self, number: u64)
        ensures { self.new ≡ record self.old {
          highest = highest_joined self.old.begun self.old.highest
              (joined_at self.old.has_come number);
        } }
    {
        if self.begun || self.has_come {
            return;
        }
        self.highest = self.highest.max(number.saturating_sub(1));
    }

    /// Returns the packet that counts with an event of the line: its own, but of packets past the
    /// window the one before, where this one goes on from it.
    fn counts_now(&self, event: &ReplayedEvent<'_>) -> Option<TimedPacket>
        ensures { result ≡ counts_now self.now.far (told_by event.now) }
    {
        match event {
            ReplayedEvent::Packet {
                line,
                number,
                count,
                answer: Ok(Outcome::Ahead),
                ..
            } => match self.far {
                Some(earlier) if heard(*line, *number, *count).goes_on(&earlier) => Some(earlier),
                _ => None,
            },
            ReplayedEvent::Packet {
                line,
                number,
                count,
                answer: Ok(Outcome::Taken { .. } | Outcome::Heartbeat | Outcome::Ended),
                ..
            } => Some(heard(*line, *number, *count)),
            _ => None,
        }
    }

    /// Returns how many numbers a packet passes over.
    pub(crate) fn passed_over(&self, event: &ReplayedEvent<'_>) -> u64
        ensures { result ≡ passed_over self.now (told_by event.now) }
    {
        match self.counts_now(event) {
            Some(packet) => packet.number.saturating_sub(self.highest.saturating_add(1)),
            None => 0,
        }
    }

    /// Takes the packet that counts with an event.
    fn count(&mut self, packet: Option<TimedPacket>)
        ensures { self.new ≡ sequence_counted self.old packet self.old.far }
    {
        if let Some(packet) = packet {
            self.highest = self.highest.max(packet.last());
            self.begun = true;
        }
    }

    /// Takes an event of the line or of its venue.
    pub(crate) fn take(&mut self, event: &ReplayedEvent<'_>)
        ensures { self.new ≡ sequence_after self.old (told_by event.now) }
    {
        let packet = self.counts_now(event);
        match event {
            ReplayedEvent::Packet {
                line,
                number,
                count,
                answer: Ok(Outcome::Ahead),
                ..
            } => {
                self.count(packet);
                self.far = Some(heard(*line, *number, *count));
            }
            ReplayedEvent::Packet { .. } => self.count(packet),
            ReplayedEvent::Renewal { answer: Ok(_), .. } => *self = LineSequence::default(),
            ReplayedEvent::Skip {
                number,
                answer: Ok(()),
                ..
            } => self.begin_at(*number),
            _ => {}
        }
    }
}

/// Returns the place of a venue's line among those of a capture: recovery has none.
pub(crate) fn line_place(venue: VenueId, line: LineId) -> Option<usize>
    ensures place { result ≡ line_place venue line }
    ensures within { IfSome result (λ place. place < 32) }
{
    match line {
        LineId::A => Some(2 * venue.index()),
        LineId::B => Some(2 * venue.index() + 1),
        LineId::Recovery => None,
    }
}

/// Takes an event of the line at a place.
fn take_at(sequences: &mut [LineSequence], place: usize, event: &ReplayedEvent<'_>)
    requires all { length sequences.old ≡ 32 }
    requires within { place < 32 }
    ensures { sequences.new ≡ sequence_at (told_by event.now) sequences.old place }
{
    sequences[place].take(event);
}

/// Takes an event of a venue.
fn take_both(sequences: &mut [LineSequence], venue: VenueId, event: &ReplayedEvent<'_>)
    requires { length sequences.old ≡ 32 }
    ensures { sequences.new ≡ both_sequences (told_by event.now) sequences.old venue }
{
    take_at(sequences, 2 * venue.index(), event);
    take_at(sequences, 2 * venue.index() + 1, event);
}

/// Notes for the line at a place whether a message came with an event of its venue.
#[inline(always)]
fn note_at(sequences: &mut [LineSequence], place: usize, event: &ReplayedEvent<'_>)
    requires all { length sequences.old ≡ 32 }
    requires within { place < 32 }
    ensures { sequences.new ≡ come_at (told_by event.now) sequences.old place }
{
    sequences[place].note(event);
}

/// Notes for both lines of a venue whether a message came with an event.
#[inline(always)]
fn note_both(sequences: &mut [LineSequence], venue: VenueId, event: &ReplayedEvent<'_>)
    requires { length sequences.old ≡ 32 }
    ensures { sequences.new ≡ both_come (told_by event.now) sequences.old venue }
{
    note_at(sequences, 2 * venue.index(), event);
    note_at(sequences, 2 * venue.index() + 1, event);
}

/// Takes a packet of a line.
fn take_packet(
    sequences: &mut [LineSequence],
    venue: VenueId,
    line: LineId,
    event: &ReplayedEvent<'_>,
)
    requires { length sequences.old ≡ 32 }
    ensures { sequences.new ≡ packet_sequences (told_by event.now) sequences.old venue line }
{
    note_both(sequences, venue, event);
    match line_place(venue, line) {
        Some(place) => take_at(sequences, place, event),
        None => {}
    }
}

/// Takes an event of a capture of 32 lines.
pub(crate) fn take_sequences(sequences: &mut [LineSequence], event: &ReplayedEvent<'_>)
    requires { length sequences.old ≡ 32 }
    ensures { sequences.new ≡ sequences_after sequences.old (told_by event.now) }
{
    match event {
        ReplayedEvent::Packet { venue, line, .. } => take_packet(sequences, *venue, *line, event),
        ReplayedEvent::Renewal { venue, .. } => take_both(sequences, *venue, event),
        ReplayedEvent::Skip { venue, .. } => take_both(sequences, *venue, event),
        ReplayedEvent::Refusal { .. }
        | ReplayedEvent::Item { .. }
        | ReplayedEvent::Best { .. }
        | ReplayedEvent::Gap { .. }
        | ReplayedEvent::Declaration { .. }
        | ReplayedEvent::Last { .. } => {}
    }
}
