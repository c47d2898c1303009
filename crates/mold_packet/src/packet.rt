//! A downstream packet that was read, and its readers.

ghost use Rattle.std.specs.Prelude.{◌≡◌, length};
ghost use Rattle.mold_packet.specs.Content.{IsContent, last_number};

use crate::blocks::Messages;
use std::marker::Model;

/// The kind of a downstream packet, by its count field.
#[derive(Clone, Copy, Debug, PartialEq, Eq, Hash)]
pub enum Kind {
    /// Count 1 to 65,534: that many messages, with the numbers from the packet's number on.
    Messages,
    /// Count 0: the packet's number is the next one that the sender expects to use.
    Heartbeat,
    /// Count `ffff`: the session has ended, and the packet's number is one more than its last
    /// message's.
    End,
}

/// A downstream packet that was read. It borrows its messages from the datagram.
#[derive(Debug, Drop)]
pub struct Packet<'a> {
    pub(crate) session: [u8; 10],
    pub(crate) number: u64,
    pub(crate) kind: Kind,
    pub(crate) count: u16,
    /// `count` message blocks, and nothing else.
    pub(crate) blocks: &'a [u8],
    pub(crate) ignored: usize,
}

impl<'a> Model for Packet<'a> {
    ghost use Rattle.mold_packet.specs.Content.{Content};

    ghost Value = { Content };

    ghost use Rattle.mold_packet.specs.Packet.{content_of, IsWellFormed};

    ghost view = { content_of };

    ghost invariant = { IsWellFormed };
}

impl<'a> Packet<'a> {
    /// The session's name: any ten bytes. A shorter name is filled with spaces.
    #[inline]
    pub fn session(&self) -> [u8; 10]
        ensures value { result ≡ self.now.session }
        ensures content { IsContent self.now }
    {
        self.session
    }

    /// The sequence number, at least 1: of the first message, or as `Kind` says where there is
    /// none.
    #[inline]
    pub fn number(&self) -> u64
        ensures value { result ≡ self.now.number }
        ensures content { IsContent self.now }
    {
        self.number
    }

    /// Whether the packet has messages, or is a heartbeat or an end of session.
    #[inline]
    pub fn kind(&self) -> Kind
        ensures value { result ≡ self.now.kind }
        ensures content { IsContent self.now }
    {
        self.kind
    }

    /// The number of messages: 1 to 65,534, or 0 in a heartbeat and an end of session.
    #[inline]
    pub fn count(&self) -> u16
        ensures value { result ≡ length self.now.messages }
        ensures content { IsContent self.now }
    {
        self.count
    }

    /// The sequence number of the last message. Where there is none, it is the one before
    /// `number()`, and may be 0.
    #[inline]
    pub fn last_number(&self) -> u64
        ensures value { result ≡ last_number self.now }
        ensures content { IsContent self.now }
    {
        self.number - 1 + u64::from(self.count)
    }

    /// The number of bytes of the datagram after the packet. They were not read.
    #[inline]
    pub fn ignored(&self) -> usize
        ensures value { result ≡ self.now.ignored }
        ensures content { IsContent self.now }
    {
        self.ignored
    }

    /// The messages in order, each without its length field.
    #[inline]
    pub fn messages(&self) -> Messages<'a>
        ensures value { result ≡ self.now.messages }
        ensures content { IsContent self.now }
    {
        Messages::new(self.count, self.blocks)
    }
}
