//! The outcomes of packets.

use thiserror::Error;

/// The outcome of a packet that was accepted.
#[derive(Clone, Copy, Debug, PartialEq, Eq, Hash)]
pub enum Outcome {
    /// The packet's messages are held, or were already: `new` numbers came first with this packet,
    /// and `repeated` had come before.
    Taken { new: u16, repeated: u16 },
    /// A heartbeat: the session goes at least to before its number.
    Heartbeat,
    /// The end of the session is announced, now or before.
    Ended,
    /// The packet's last number is beyond the window. It is known of, and nothing of it is held.
    Ahead,
}

/// Why a packet was refused. It has changed nothing.
#[derive(Clone, Copy, Debug, PartialEq, Eq, Hash, Error)]
pub enum LineFault {
    /// The packet is of another session.
    #[error("the packet is of another session")]
    OtherSession,
    /// The packet has a message at the announced end or past it, or is a heartbeat past it.
    #[error("the packet goes past the announced end of the session")]
    PastEnd,
    /// Another end was announced before.
    #[error("another end of the session was announced before")]
    EndMoved,
    /// A message with the end's number or a greater one was taken before.
    #[error("a message at the announced end or past it was taken before")]
    EndTooEarly,
    /// A message that is still held reads as another item at its number.
    #[error("a message differs from the one taken before at its number")]
    Conflict,
}

impl LineFault {
    ghost use Rattle.std.specs.Prelude.{◌≡◌};
    ghost use Rattle.line_arbiter.specs.Codes.{line_fault_code};

    /// The code of the fault in printed lines: 7 to 11.
    pub fn code(self) -> u8
        ensures { result ≡ line_fault_code self }
    {
        match self {
            LineFault::OtherSession => 7,
            LineFault::PastEnd => 8,
            LineFault::EndMoved => 9,
            LineFault::EndTooEarly => 10,
            LineFault::Conflict => 11,
        }
    }
}
