//! The body of a packet that is written.

ghost use Rattle.std.specs.Prelude.{◌≡◌, ◌≤◌, length};
ghost use Rattle.mold_packet.specs.Body.{lent_bytes, body_kind, body_messages};
ghost use Rattle.mold_packet.specs.Content.{count_field};

use crate::header::{END_COUNT, HEARTBEAT_COUNT};

/// What follows the header of a packet that is written.
#[derive(Clone, Copy, Debug)]
pub enum Body<'a> {
    /// These messages, 1 to 65,534 of them, each of at most 65,535 bytes.
    Blocks(&'a [&'a [u8]]),
    /// Nothing: the packet's number is the next one that the sender expects to use.
    Heartbeat,
    /// Nothing: the session has ended, and the packet's number is one more than its last message's.
    End,
}

impl<'a> Body<'a> {
    pub(crate) fn messages(self) -> &'a [&'a [u8]]
        ensures { lent_bytes result.now ≡ body_messages self.entry }
    {
        match self {
            Body::Blocks(messages) => messages,
            Body::Heartbeat | Body::End => &[],
        }
    }

    pub(crate) fn count_field(self) -> u16
        requires { length (body_messages self) ≤ 65534 }
        ensures { result ≡ count_field (body_kind self.entry) (body_messages self.entry) }
    {
        match self {
            Body::Blocks(messages) => messages.len() as u16,
            Body::Heartbeat => HEARTBEAT_COUNT,
            Body::End => END_COUNT,
        }
    }
}
