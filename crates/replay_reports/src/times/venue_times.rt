//! How a venue's lines run in time.
ghost use Rattle.std.specs.Prelude.{◌≡◌, ◌<◌, ℕ, List, [], ◌∷◌, IfOk, Ok, Option, Some};
ghost use Rattle.feed_types.specs.PerLines.{with_line};
ghost use Rattle.event_sinks.specs.SinkEvents.{TimedEvent, timed_event, told_by, told_packet, told_renewal};
ghost use Rattle.replay_reports.specs.times.Leads.{AreLeadsOf, MessageOn};
ghost use Rattle.replay_reports.specs.times.Timing.{came_after};
ghost use Rattle.replay_reports.specs.times.VenueTiming.{IsVenueTimed};

use crate::times::line_leads::LineLeads;
use event_sinks::ReplayedEvent;
use feed_types::{LineId, PerLine};
use line_arbiter::{LineFault, Outcome, RenewFault};
use std::alloc::{AllocError, Global};

/// How the lines of a venue run in time, by its packets whose time is known.
#[derive(Drop)]
pub struct VenueTimes {
    /// By how much which line is first.
    pub leads: LineLeads,
    /// The time of each line's last packet that wasn't refused, in nanoseconds; none where it had
    /// none.
    pub last_packets: PerLine<Option<u64>>,
}

impl VenueTimes {
    /// Of a venue to which nothing came. It keeps the first arrivals of this many messages, whose
    /// memory is asked for here and never again.
    pub(crate) fn new(alloc: Global, window: usize) -> Result<VenueTimes, AllocError>
        ensures { IfOk result (λ t. 0 < window → IsVenueTimed window [] t) }
    {
        Ok(VenueTimes {
            leads: LineLeads::new(alloc, window)?,
            last_packets: PerLine::all(None),
        })
    }

    /// Takes a packet of a line that was answered so, at a time in nanoseconds.
    #[inline(always)]
    fn time_packet(&mut self, time: u64, line: LineId, number: u64, count: u16, outcome: &Outcome)
        ensures leads { (window venue bytes : ℕ) (came : List MessageOn)
            (before_a before_b : List ℕ) → AreLeadsOf window came before_a before_b self.old.leads
            → AreLeadsOf window (came_after (Some time)
            (told_packet venue line number count bytes (Ok outcome.now)) came) before_a before_b
            self.new.leads }
        ensures last { self.new.last_packets
            ≡ with_line line (Some time) self.old.last_packets }
    {
        self.last_packets.set(line, Some(time));
        match outcome {
            Outcome::Taken { .. } => self.leads.note_packet(line, number, count, time),
            Outcome::Ahead => self.leads.note_packet(line, number, count, time),
            Outcome::Heartbeat => {}
            Outcome::Ended => {}
        }
    }

    /// Takes a packet of a line that was answered so, which came at a time, where that is known.
    #[inline(always)]
    fn hear(
        &mut self,
        time: Option<u64>,
        line: LineId,
        number: u64,
        count: u16,
        answer: &Result<Outcome, LineFault>,
    )
        ensures { (window venue bytes : ℕ) (own : List TimedEvent)
            → IsVenueTimed window own self.old → IsVenueTimed window (timed_event time
            (told_packet venue line number count bytes answer.now) ∷ own) self.new }
    {
        match answer {
            Ok(outcome) => match time {
                Some(time) => self.time_packet(time, line, number, count, outcome),
                None => {}
            },
            Err(_) => {}
        }
    }

    /// Begins the next session, where it was answered so.
    fn renew(&mut self, answer: &Result<u64, RenewFault>)
        ensures { (window venue : ℕ) (time : Option ℕ) (own : List TimedEvent)
            → IsVenueTimed window own self.old → IsVenueTimed window (timed_event time
            (told_renewal venue answer.now) ∷ own) self.new }
    {
        match answer {
            Ok(_) => self.leads.renew(),
            Err(_) => {}
        }
    }

    /// Takes an event of the venue.
    #[inline(always)]
    pub(crate) fn take(&mut self, time: Option<u64>, event: &ReplayedEvent<'_>)
        ensures { (window : ℕ) (own : List TimedEvent) → IsVenueTimed window own self.old
            → IsVenueTimed window (timed_event time (told_by event.now) ∷ own) self.new }
    {
        match event {
            ReplayedEvent::Packet {
                line,
                number,
                count,
                answer,
                ..
            } => self.hear(time, *line, *number, *count, answer),
            ReplayedEvent::Renewal { answer, .. } => self.renew(answer),
            ReplayedEvent::Refusal { .. }
            | ReplayedEvent::Item { .. }
            | ReplayedEvent::Best { .. }
            | ReplayedEvent::Gap { .. }
            | ReplayedEvent::Skip { .. }
            | ReplayedEvent::Declaration { .. }
            | ReplayedEvent::Last { .. } => {}
        }
    }

    /// Forgets all events.
    pub(crate) fn clear(&mut self)
        ensures { (window : ℕ) (own : List TimedEvent) → IsVenueTimed window own self.old
            → IsVenueTimed window [] self.new }
    {
        self.leads.clear();
        self.last_packets = PerLine::all(None);
    }
}
