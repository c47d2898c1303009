//! Joining a session at its first packet.
ghost use Rattle.std.specs.Prelude.{◌≡◌, ◌≤◌, ◌<◌, ◌*◌, ℕ, MatchBool, MatchOption};
ghost use Rattle.mold_packet.specs.declared.packet.Kind.{Kind};
ghost use Rattle.line_arbiter.specs.Histories.{History};
ghost use Rattle.line_arbiter.specs.Packets.{end_of};
ghost use Rattle.feed_text.specs.Joining.{IsNotPast};
ghost use Rattle.feed_text.specs.Rules.{HasSentAll, IsFresh, IsJoinedAt};

use feed_types::{Anything, SessionName};
use line_arbiter::{Arbiter, ArbiterStatus};
use mold_packet::{Kind, Packet};

/// Whether a packet of this kind, which has these numbers, isn't past an announced end.
fn is_not_past(end: Option<u64>, kind: Kind, number: u64, last: u64) -> bool
    ensures { MatchBool result (IsNotPast end kind number last)
        (IsNotPast end kind number last → ⊥) }
{
    let Some(end) = end else {
        return true;
    };
    match kind {
        Kind::Messages => last < end,
        Kind::Heartbeat => number <= end,
        Kind::End => number == end,
    }
}

/// Returns whether nothing of an arbiter's session was taken or given up.
pub fn is_fresh(cursors: &ArbiterStatus) -> bool
    ensures { MatchBool result ((cursors.now.front ≡ 0) × (cursors.now.held ≡ 0))
        ((cursors.now.front ≡ 0) × (cursors.now.held ≡ 0) → ⊥) }
{
    cursors.front == 0 && cursors.held == 0
}

/// Returns whether the packet is of the session of this name.
pub fn is_of_session(packet: &Packet<'_>, name: SessionName) -> bool
    ensures { MatchBool result (packet.now.session ≡ name) (packet.now.session ≡ name → ⊥) }
{
    packet.session() == name
}

/// Returns the number of the packet, where an arbiter that has sent all that is ready joins its
/// session there.
pub fn join_at(arbiter: &Arbiter<Anything>, packet: &Packet<'_>) -> Option<u64>
    ensures { (window : ℕ) (h : History) → HasSentAll window arbiter.now h
        → MatchOption result ((number : ℕ) → IsJoinedAt h packet.now number → ⊥)
        (λ number. IsJoinedAt h packet.now number) }
{
    let cursors = arbiter.status();
    let number = packet.number();
    if !is_fresh(&cursors) || number <= 1 {
        return None;
    }
    if !is_of_session(packet, arbiter.session()) {
        return None;
    }
    if is_not_past(cursors.end, packet.kind(), number, packet.last_number()) {
        Some(number)
    } else {
        None
    }
}
