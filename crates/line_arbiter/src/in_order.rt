//! Packets that need no place in the window: one that goes on where nothing is held, and one whose
//! messages were all sent, as on the line that comes second.
//!
//! A caller asks, may do first what it has to do with the packet's messages, and takes the packet
//! then. No message moves through the window.

ghost use Rattle.std.specs.Prelude.{◌≡◌, ◌∷◌, ◌++◌, List, [], Ok, IfSome, IsTrue, MatchBool, MatchOption, length};
ghost use Rattle.mold_packet.specs.Content.{IsContent, last_number};
ghost use Rattle.feed_types.specs.Prefix.{IsPrefix};
ghost use Rattle.line_arbiter.specs.Packets.{Input, arrival_of};
ghost use Rattle.line_arbiter.specs.Streams.{stream_of};
ghost use Rattle.line_arbiter.specs.InOrder.{BringsNext, IsNext, IsNextPacket, IsSent, outcome_of_next};
ghost use Rattle.line_arbiter.specs.Outcomes.{IsOutcome};
ghost use Rattle.feed_types.specs.declared.line.LineId.{LineId};
ghost use Rattle.line_arbiter.specs.States.{KeepsItsSession};
ghost use Rattle.line_arbiter.specs.Fits.{Fits};
ghost use Rattle.line_arbiter.specs.Steps.{GoesPast};

use crate::arbiter::Arbiter;
use crate::outcome::Outcome;
use crate::taking::{is_past, raised};
use crate::wins::add_wins;
use feed_types::{Genuine, LineId, is_same_name};
use mold_packet::{Kind, Packet};

impl<G: Genuine> Arbiter<G> {
    /// Returns whether the packet goes on where nothing is held, in terms of the state.
    #[inline(always)]
    fn goes_on(&self, packet: &Packet<'_>) -> bool
        ensures { MatchBool result (IsNext self.now packet.now) (IsNext self.now packet.now → ⊥) }
    {
        let sent = self.held.base();
        packet.number() - 1 == sent
            && is_same_name(&packet.session(), &self.session_name)
            && packet.kind() == Kind::Messages
            && self.run_to == sent
            && self.held.is_empty()
            && u32::from(packet.count()) <= self.held.width()
            && !is_past(self.end_number, packet.last_number())
    }

    /// Goes past a packet of messages that are the next ones, on the line.
    #[inline(always)]
    fn pass(&mut self, line: LineId, packet: &Packet<'_>) -> Outcome
        requires { IsNext self.old packet.now }
        ensures past { GoesPast line self.old self.new packet.now }
        ensures outcome { result ≡ outcome_of_next packet.now }
    {
        let new = packet.count();
        let last = packet.last_number();
        self.held.move_to(last);
        self.run_to = last;
        self.known_to = raised(self.known_to, self.end_number, last);
        add_wins(&mut self.won, line, new);
        Outcome::Taken { new, repeated: 0 }
    }

    /// Returns whether the packet goes on where nothing is held: a packet of messages of the
    /// session, of which the first is the next one and the last is before the end, no longer than
    /// the window. `take_next` takes it then; any other packet is for `take`. `brings` says
    /// beforehand what taking it will bring, so that its messages may be sent on first.
    #[inline(always)]
    pub fn is_next(&self, packet: &Packet<'_>) -> bool
        ensures exact { (packets : List Input) → Fits self.now packets
            → MatchBool result
            (IsNextPacket self.now.session self.now.window self.now.sent packets packet.now)
            (IsNextPacket self.now.session self.now.window self.now.sent packets packet.now → ⊥) }
        ensures brings { (packets : List Input) (line : LineId) → Fits self.now packets
            → IsTrue result
            → BringsNext self.now.session self.now.window self.now.sent packets line packet.now }
        ensures next { IsTrue result → IsNext self.now packet.now }
        ensures content { IsContent packet.now }
    {
        // For the prover alone: the ranges of the packet.
        let _number = packet.number();
        self.goes_on(packet)
    }

    /// Takes a packet that goes on where nothing is held, on the line, and returns the answer of
    /// `take`. Its messages are then sent: the caller reads them from the packet.
    #[inline(always)]
    pub fn take_next(&mut self, line: LineId, packet: &Packet<'_>) -> Outcome
        requires { IsNext self.old packet.now }
        ensures answer { result ≡ outcome_of_next packet.now }
        ensures fits { (packets : List Input) → Fits self.old packets
            → Fits self.new (packets ++ arrival_of line packet.now (Ok result) ∷ []) }
        ensures sent { self.new.sent ≡ last_number packet.now }
        ensures kept { KeepsItsSession self.old self.new }
    {
        // For the prover alone: the ranges of the packet, and what an arbiter keeps.
        let _number = packet.number();
        let _held = &self.held;
        self.pass(line, packet)
    }

    /// Returns the answer of `take` to a packet of messages of the session that were all sent,
    /// before the end; None for any other packet. Such a packet changes nothing.
    #[inline(always)]
    pub fn repeat(&self, packet: &Packet<'_>) -> Option<Outcome>
        ensures exact { MatchOption result (IsSent self.now packet.now → ⊥)
            (λ outcome. IsSent self.now packet.now
            × (outcome ≡ Outcome.Taken 0 (length packet.now.messages))) }
        ensures answer { (packets : List Input) → Fits self.now packets
            → IfSome result (λ outcome. IsOutcome self.now.session self.now.window self.now.sent
            packets packet.now (Ok outcome)) }
        ensures fits { (packets : List Input) (line : LineId) → Fits self.now packets
            → IfSome result (λ outcome. Fits self.now
            (packets ++ arrival_of line packet.now (Ok outcome) ∷ [])) }
        ensures grows { (packets : List Input) (line : LineId) → Fits self.now packets
            → IfSome result (λ outcome. IsPrefix (stream_of packets)
            (stream_of (packets ++ arrival_of line packet.now (Ok outcome) ∷ []))) }
        ensures content { IsContent packet.now }
    {
        // For the prover alone: the ranges of the packet.
        let _number = packet.number();
        if self.is_sent(packet) {
            Some(self.repeat_of(packet))
        } else {
            None
        }
    }
}
