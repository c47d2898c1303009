//! The taking of a packet, on whichever line: which refusal fits first, what is held of it, and
//! where the cursors are then.

ghost use Rattle.std.specs.Prelude.{◌≡◌, ℕ, ◌+◌, ◌<◌, ◌≤◌, Ok, MatchBool, Some, None, length};
ghost use Rattle.mold_packet.specs.Content.{IsContent, last_number};
ghost use Rattle.line_arbiter.specs.Outcomes.{IsBefore, IsPast};
ghost use Rattle.line_arbiter.specs.States.{held_of};
ghost use Rattle.line_arbiter.specs.Filling.{HeldAgrees};
ghost use Rattle.line_arbiter.specs.Comparing.{AreThere};
ghost use Rattle.feed_types.specs.declared.line.LineId.{LineId};
ghost use Rattle.line_arbiter.specs.InOrder.{IsSent};
ghost use Rattle.line_arbiter.specs.Steps.{IsSound, MessagesStep, HeartbeatStep, EndStep, PacketStep, raised as raised_to};

use crate::arbiter::Arbiter;
use crate::intake::{Intake, next_after, run_after, take_all};
use crate::outcome::{LineFault, Outcome};
use crate::wins::add_wins;
use feed_types::{Genuine, LineId, is_same_name};
use mold_packet::{Kind, Packet};

/// Returns whether the end is announced at the number or below it.
pub(crate) fn is_past(end: Option<u64>, number: u64) -> bool
    ensures { MatchBool result (IsPast end number) (IsBefore end number) }
{
    match end {
        Some(end) => end <= number,
        None => false,
    }
}

/// Returns whether the end is announced below the number.
pub(crate) fn ends_below(end: Option<u64>, number: u64) -> bool
    ensures { MatchBool result ((e : ℕ) × (end ≡ Some e) × (e < number))
        ((e : ℕ) → end ≡ Some e → number ≤ e) }
{
    match end {
        Some(end) => end < number,
        None => false,
    }
}

/// Returns the number up to which messages are known of, once one more number was heard of.
pub(crate) fn raised(known: u64, end: Option<u64>, to: u64) -> u64
    ensures { result ≡ raised_to known end to }
{
    if end.is_some() { known } else { known.max(to) }
}

/// Returns the same answer. It comes from a call, through memory, which the answer to messages then
/// doesn't go through.
#[inline(always)]
fn in_parts(answer: Result<Outcome, LineFault>) -> Result<Outcome, LineFault>
    ensures { result ≡ answer }
{
    match answer {
        Ok(outcome) => Ok(outcome),
        Err(fault) => Err(fault),
    }
}

impl<G: Genuine> Arbiter<G> {
    /// Returns the outcome of a packet of messages that were all sent or are held, as on the line
    /// that comes second. It changes nothing.
    #[inline(always)]
    pub(crate) fn repeat_of(&self, packet: &Packet<'_>) -> Outcome
        requires kind { packet.now.kind ≡ Kind.Messages }
        requires before { IsBefore self.now.end (last_number packet.now) }
        requires within { last_number packet.now ≤ self.now.sent + self.now.window }
        requires there { AreThere (held_of self.now) packet.now }
        requires agrees { HeldAgrees (held_of self.now) packet.now }
        ensures step { (line : LineId) → MessagesStep line self.now self.now
            packet.now (Ok result) }
        ensures outcome { result ≡ Outcome.Taken 0 (length packet.now.messages) }
        ensures sound { IsSound self.now }
    {
        // For the prover alone: what an arbiter keeps.
        let _held = &self.held;
        Outcome::Taken {
            new: 0,
            repeated: packet.count(),
        }
    }

    /// Takes a packet of messages, of which the last isn't sent and has a place in the window.
    #[inline(always)]
    fn take_in(
        &mut self,
        line: LineId,
        packet: &Packet<'_>,
        last: u64,
    ) -> Result<Outcome, LineFault>
        requires kind { packet.now.kind ≡ Kind.Messages }
        requires last { last ≡ last_number packet.now }
        requires before { IsBefore self.old.end (last_number packet.now) }
        requires past { self.old.sent < last_number packet.now }
        requires within { last_number packet.now ≤ self.old.sent + self.old.window }
        ensures { MessagesStep line self.old self.new packet.now result }
    {
        let new = match take_all(&mut self.held, packet) {
            Intake::Differs => return Err(LineFault::Conflict),
            Intake::Repeats => return Ok(self.repeat_of(packet)),
            Intake::Holds(new) => new,
        };
        let first = packet.number();
        self.run_to = run_after(&self.held, self.run_to, first);
        self.next_held = next_after(&self.held, self.run_to, self.next_held, first);
        self.known_to = raised(self.known_to, self.end_number, last);
        let repeated = packet.count() - new;
        add_wins(&mut self.won, line, new);
        Ok(Outcome::Taken { new, repeated })
    }

    /// Takes a packet of messages, unless the end comes before the last of them.
    #[inline(always)]
    fn take_messages(&mut self, line: LineId, packet: &Packet<'_>) -> Result<Outcome, LineFault>
        requires { packet.now.kind ≡ Kind.Messages }
        ensures { MessagesStep line self.old self.new packet.now result }
    {
        let last = packet.last_number();
        if is_past(self.end_number, last) {
            return Err(LineFault::PastEnd);
        }
        let sent = self.held.base();
        if last <= sent {
            return Ok(self.repeat_of(packet));
        }
        if last - sent > u64::from(self.held.width()) {
            self.known_to = raised(self.known_to, self.end_number, last);
            return Ok(Outcome::Ahead);
        }
        self.take_in(line, packet, last)
    }

    #[inline(never)]
    fn take_heartbeat(&mut self, number: u64) -> Result<Outcome, LineFault>
        ensures { HeartbeatStep self.old self.new number result }
    {
        if let Some(end) = self.end_number
            && end < number
        {
            return Err(LineFault::PastEnd);
        }
        self.known_to = raised(self.known_to, self.end_number, number.saturating_sub(1));
        Ok(Outcome::Heartbeat)
    }

    #[inline(never)]
    fn take_end(&mut self, number: u64) -> Result<Outcome, LineFault>
        requires { 1 ≤ number }
        ensures { EndStep self.old self.new number result }
    {
        if let Some(end) = self.end_number {
            return if end == number {
                Ok(Outcome::Ended)
            } else {
                Err(LineFault::EndMoved)
            };
        }
        if self.run_to >= number || self.held.holds_from(number) {
            return Err(LineFault::EndTooEarly);
        }
        self.end_number = Some(number);
        self.known_to = number - 1;
        Ok(Outcome::Ended)
    }

    /// Returns whether the packet has messages of the session that were all sent, before the end.
    /// Its numbers are looked at first: they tell most packets apart.
    #[inline(always)]
    pub(crate) fn is_sent(&self, packet: &Packet<'_>) -> bool
        ensures { MatchBool result (IsSent self.now packet.now) (IsSent self.now packet.now → ⊥) }
    {
        packet.last_number() <= self.held.base()
            && is_same_name(&packet.session(), &self.session_name)
            && packet.kind() == Kind::Messages
            && !is_past(self.end_number, packet.last_number())
    }

    /// Takes any packet, and returns its outcome.
    #[inline(always)]
    pub(crate) fn take_any(
        &mut self,
        line: LineId,
        packet: &Packet<'_>,
    ) -> Result<Outcome, LineFault>
        ensures step { PacketStep line self.old self.new packet.now result }
        ensures content { IsContent packet.now }
        ensures sound { IsSound self.new }
    {
        let number = packet.number();
        if !is_same_name(&packet.session(), &self.session_name) {
            return Err(LineFault::OtherSession);
        }
        let answer = match packet.kind() {
            Kind::Messages => self.take_messages(line, packet),
            Kind::Heartbeat => in_parts(self.take_heartbeat(number)),
            Kind::End => in_parts(self.take_end(number)),
        };
        // For the prover alone: what an arbiter keeps.
        let _held = &self.held;
        answer
    }
}
