//! The payload that messages look like.
ghost use Rattle.std.specs.Prelude.{◌≡◌, ◌||◌, ℕ, List};
ghost use Rattle.std.specs.List.{list_any};
ghost use Rattle.message_forms.specs.Payloads.{is_itch, is_look_own, is_own, look_with};
ghost use Rattle.message_forms.specs.Datagrams.{HasMessages};

use crate::forms::{is_itch, is_own};
use mold_packet::{Packet, read_packet};

/// The payload that messages look like, by their types and lengths alone.
#[derive(Clone, Copy, Debug, PartialEq, Eq)]
pub enum Payload {
    /// No message has a form of either payload.
    Neither,
    /// A message has a form of TotalView-ITCH 5.0, and none has one of this project's.
    Itch,
    /// A message has one of the three forms of this project's own messages.
    Own,
}

impl Payload {
    /// Returns whether the messages look like this project's own, as they then do whatever follows.
    #[inline(always)]
    pub fn is_own(self) -> bool
        ensures { result ≡ is_look_own self }
    {
        matches!(self, Payload::Own)
    }
}

/// Returns whether a message of a packet has a form of this project's.
fn has_own(packet: &Packet<'_>) -> bool
    ensures { result ≡ list_any is_own packet.now.messages }
{
    packet.messages().any(|message| is_own(message))
}

/// Returns whether a message of a packet has a form of the standard.
fn has_itch(packet: &Packet<'_>) -> bool
    ensures { result ≡ list_any is_itch packet.now.messages }
{
    packet.messages().any(|message| is_itch(message))
}

/// Returns what messages look like that go on with those of a packet, where the ones before look
/// like this.
pub fn look_with(before: Payload, packet: &Packet<'_>) -> Payload
    ensures { result ≡ look_with before packet.now.messages }
{
    if before == Payload::Own || has_own(packet) {
        return Payload::Own;
    }
    if before == Payload::Itch || has_itch(packet) {
        return Payload::Itch;
    }
    Payload::Neither
}

/// Returns what messages look like that go on with those of a datagram, where the ones before look
/// like this. A datagram that is no packet has none.
// Once a message of this project's own came it need not be called: it isn't part of a usual replay.
#[cold]
#[inline(never)]
pub fn look_after(before: Payload, datagram: &[u8]) -> Payload
    ensures { (messages : List (List ℕ)) × HasMessages datagram.now messages
        × (result ≡ look_with before messages) }
{
    match read_packet(datagram) {
        Ok(packet) => look_with(before, &packet),
        Err(_) => before,
    }
}
