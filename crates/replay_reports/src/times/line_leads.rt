//! By how much which line of a venue is ahead.
ghost use Rattle.std.specs.Prelude.{◌≡◌, ◌⊎◌, ℕ, ◌+◌, ◌%◌, ◌^◌, ◌<◌, ◌≤◌, List, [], IfOk, ◌∷◌, ◌++◌, length, max, if◌then◌else◌};
ghost use Rattle.feed_types.specs.declared.line.LineId.TheVariants.{A, B};
ghost use Rattle.replay_reports.specs.times.Leads.{AreLeadsOf, MessageOn, come_on, has_numbers, held_after, lead_by, lead_from, leads_of, message_on};

use crate::times::durations::Durations;
use feed_types::LineId;
use std::alloc::{AllocError, Global};

/// The first arrival of a message.
#[derive(Clone, Copy, Debug, PartialEq, Eq)]
struct FirstArrival {
    /// The message's number; 0 where there is none.
    number: u64,
    time: u64,
    line: LineId,
    /// Whether the other line has brought it, too.
    is_met: bool,
}

/// Which line is ahead of the other with a message, by the times at which both brought it.
#[derive(Clone, Copy, Debug, PartialEq, Eq)]
struct Lead {
    line: LineId,
    /// How many nanoseconds the other line took.
    took: u64,
}

impl FirstArrival {
    /// Returns which line is ahead, where the other line brings the message that is held. Of two
    /// that bring it at the same time it is the one whose arrival is held.
    #[inline(always)]
    fn lead(&self, line: LineId, time: u64) -> Lead
        ensures { (number : ℕ) → result ≡ lead_from self.now (message_on line number time) }
    {
        if time < self.time {
            return Lead {
                line,
                took: self.time - time,
            };
        }
        Lead {
            line: self.line,
            took: time - self.time,
        }
    }

    /// Takes a message of the same place. Returns which line is ahead, where the other line brings
    /// the message that is held, for the first time.
    #[inline(always)]
    fn take(&mut self, line: LineId, number: u64, time: u64) -> Option<Lead>
        ensures held { self.new ≡ held_after self.old (message_on line number time) }
        ensures lead { result ≡ lead_by self.old (message_on line number time) }
    {
        if self.number < number {
            *self = FirstArrival {
                number,
                time,
                line,
                is_met: false,
            };
            return None;
        }
        if self.number != number || self.is_met || self.line == line {
            return None;
        }
        self.is_met = true;
        Some(self.lead(line, time))
    }
}

/// No arrival.
const NONE: FirstArrival = FirstArrival {
    number: 0,
    time: 0,
    line: LineId::A,
    is_met: false,
};

/// Returns the place of the next number, of this many places, where a number has this one.
#[inline(always)]
pub(crate) fn place_after(place: u64, size: u64) -> u64
    requires { 0 < size }
    ensures { (number : ℕ) → place ≡ number % size → result ≡ (number + 1) % size }
{
    if place < size - 1 {
        return place + 1;
    }
    0
}

/// By how much which of two lines is ahead: of each message that both bring, how long the second
/// one takes, by the line that brings it first in time. The order in which they come doesn't count,
/// but for two at the same time. A message isn't counted where the one `window` numbers further has
/// come before.
#[derive(Drop)]
pub struct LineLeads {
    arrivals: Vec<FirstArrival>,
    /// How long line B takes where line A is ahead.
    pub a: Durations,
    /// How long line A takes where line B is ahead.
    pub b: Durations,
}

impl LineLeads {
    /// No arrival yet.
    pub(crate) fn new(alloc: Global, window: usize) -> Result<LineLeads, AllocError>
        ensures { IfOk result (λ leads. 0 < window → AreLeadsOf window [] [] [] leads) }
    {
        Ok(LineLeads {
            arrivals: vec![in alloc; NONE; window]?,
            a: Durations::new(alloc)?,
            b: Durations::new(alloc)?,
        })
    }

    /// Begins the next session, of which nothing came. The leads of the sessions before stay.
    pub(crate) fn renew(&mut self)
        ensures { (window : ℕ) (came : List MessageOn) (before_a before_b : List ℕ)
            → AreLeadsOf window came before_a before_b self.old
            → AreLeadsOf window [] (leads_of window A B came ++ before_a)
            (leads_of window B A came ++ before_b) self.new }
    {
        self.arrivals.as_mut_slice().fill(NONE);
    }

    /// Forgets all messages and leads.
    pub(crate) fn clear(&mut self)
        ensures { (window : ℕ) (came : List MessageOn) (before_a before_b : List ℕ)
            → AreLeadsOf window came before_a before_b self.old
            → AreLeadsOf window [] [] [] self.new }
    {
        self.renew();
        self.a.clear();
        self.b.clear();
    }

    /// Notes that a message came on line A or B at a time in nanoseconds. `place` is its number's.
    #[inline(always)]
    fn note(&mut self, place: u64, line: LineId, number: u64, time: u64)
        requires place { place ≡ number % max (length self.old.arrivals.items) 1 }
        requires line { (line ≡ A) ⊎ (line ≡ B) }
        requires number { 0 < number }
        ensures size { length self.new.arrivals.items ≡ length self.old.arrivals.items }
        ensures leads { (window : ℕ) (came : List MessageOn) (before_a before_b : List ℕ)
            → AreLeadsOf window came before_a before_b self.old
            → AreLeadsOf window (message_on line number time ∷ came) before_a before_b self.new }
    {
        let Some(first) = self.arrivals.get_mut(place as usize) else {
            return;
        };
        let Some(lead) = first.take(line, number, time) else {
            return;
        };
        match lead.line {
            LineId::B => self.b.add(lead.took),
            _ => self.a.add(lead.took),
        }
    }

    /// Notes the messages of a packet that came on a line at a time in nanoseconds. Those of a
    /// packet with numbers that no message has don't count.
    #[inline(always)]
    pub(crate) fn note_packet(&mut self, line: LineId, number: u64, count: u16, time: u64)
        ensures { (window : ℕ) (came : List MessageOn) (before_a before_b : List ℕ)
            → AreLeadsOf window came before_a before_b self.old
            → AreLeadsOf window
            (if has_numbers number count then come_on line number count time came else came)
            before_a before_b self.new }
    {
        if number == 0 {
            return;
        }
        if number - 1 > u64::MAX - u64::from(count) {
            return;
        }
        self.note_all(line, number, count, time);
    }

    /// Notes that messages from a number on came on a line at a time in nanoseconds. What comes on
    /// Recovery doesn't count.
    #[inline(always)]
    fn note_all(&mut self, line: LineId, number: u64, count: u16, time: u64)
        requires number { 0 < number }
        requires last { number + count ≤ 2 ^ 64 }
        ensures { (window : ℕ) (came : List MessageOn) (before_a before_b : List ℕ)
            → AreLeadsOf window came before_a before_b self.old
            → AreLeadsOf window (come_on line number count time came) before_a before_b self.new }
    {
        match line {
            LineId::A | LineId::B => {}
            LineId::Recovery => return,
        }
        let size = (self.arrivals.len() as u64).max(1);
        let mut place = number % size;
        for offset in 0..u64::from(count) {
            self.note(place, line, number + offset, time);
            place = place_after(place, size);
        }
    }
}
