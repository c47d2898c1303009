//! The faults of packets and requests.

ghost use Rattle.std.specs.Prelude.{◌≡◌};
ghost use Rattle.mold_packet.specs.Faults.{code_of};

use thiserror::Error;

/// Why bytes were not read, or nothing was written.
///
/// Reading a packet returns one of the first four, the first that fits. Each fault has a code, by
/// which logs name it.
#[derive(Clone, Copy, Debug, PartialEq, Eq, Hash, Error)]
pub enum PacketFault {
    /// A packet has fewer than the 20 bytes of its header.
    #[error("the packet is shorter than its header of 20 bytes")]
    ShortHeader = 1,
    /// A block's length field or its message runs past the end of the bytes.
    #[error("a message block is cut short")]
    TruncatedBlock = 2,
    /// The sequence number is 0. The first message of a session has the number 1.
    #[error("the sequence number is 0")]
    ZeroSequence = 3,
    /// There are messages, and the last one's number would be past 2^64 - 1.
    #[error("the last message's sequence number is past 2^64 - 1")]
    SequenceOverflow = 4,
    /// What was to be written is longer than the buffer.
    #[error("the buffer is too small")]
    BufferTooSmall = 5,
    /// A request does not have exactly 20 bytes.
    #[error("the request is not 20 bytes long")]
    BadRequestLength = 6,
}

impl PacketFault {
    /// The code of the fault: 1 to 6.
    pub fn code(self) -> u8
        ensures { result ≡ code_of self }
    {
        self as u8
    }
}
