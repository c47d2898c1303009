//! Message blocks: each a length of two bytes and that many bytes. They are walked where they lie.

ghost use Rattle.std.specs.Prelude.{◌≡◌, ◌++◌, List, ℕ, IfSome, IfNone};
ghost use Rattle.std.specs.Iterator.{YieldsFirstRef, item_count};
ghost use Rattle.mold_packet.specs.Block.{block, IsMessage, IsCut, CutShort, HasBlocks, blocks_at, AreBlocks};

use std::marker::Model;

/// The message of the block at the front, and what follows the block, or `None` where it is cut.
#[inline]
fn first_block(bytes: &[u8]) -> Option<(&[u8], &[u8])>
    ensures message { IfSome result (λ r. IsMessage r.0.now) }
    ensures found { IfSome result (λ r. bytes.now ≡ block r.0.now ++ r.1.now) }
    ensures cut { IfNone result (IsCut bytes.now) }
{
    match bytes {
        [high, low, rest @ ..] => {
            let len = usize::from(u16::from_be_bytes([*high, *low]));
            if rest.len() < len {
                return None;
            }
            Some(rest.split_at(len))
        }
        _ => None,
    }
}

/// The bytes of the first `count` blocks, and what follows them, or `None` where one is cut.
pub(crate) fn split_blocks(count: u16, body: &[u8]) -> Option<(&[u8], &[u8])>
    ensures found { IfSome result (λ r.
        HasBlocks count body.now (blocks_at count r.0.now) r.1.now) }
    ensures blocks { IfSome result (λ r. AreBlocks count r.0.now) }
    ensures cut { IfNone result (CutShort count body.now) }
{
    let mut rest = body;
    for _ in 0..count {
        let (_message, after) = first_block(rest)?;
        rest = after;
    }
    Some(body.split_at(body.len() - rest.len()))
}

/// The messages of a packet, in order. Nothing is copied: each is a part of the datagram.
///
/// In the datagram a message is in a message block:
///
/// | Offset | Length | Field |
/// |---|---|---|
/// | 0 | 2 | message length, 0 to 65,535, which does not count itself |
/// | 2 | the message length | message |
#[derive(Debug, Drop)]
pub struct Messages<'a> {
    left: u16,
    bytes: &'a [u8],
}

impl<'a> Model for Messages<'a> {
    ghost use Rattle.std.specs.Prelude.{ℕ, List};
    ghost use Rattle.mold_packet.specs.Block.{blocks_at, AreBlocks};

    ghost Value = { List (List ℕ) };

    ghost view = { λ m. blocks_at m.left m.bytes.now };

    ghost invariant = { λ m. AreBlocks m.left m.bytes.now };
}

impl<'a> Messages<'a> {
    pub(crate) fn new(left: u16, bytes: &'a [u8]) -> Self
        requires { AreBlocks left bytes.now }
        ensures { result ≡ blocks_at left bytes.now }
    {
        Messages { left, bytes }
    }
}

impl<'a> Iterator for Messages<'a> {
    type Item = &'a [u8];

    ghost next_gives = { YieldsFirstRef (λ s. s) };

    ghost remaining = { item_count (λ s. s) };

    #[inline]
    fn next(&mut self) -> Option<&'a [u8]> {
        if self.left == 0 {
            return None;
        }
        let Some((message, rest)) = first_block(self.bytes) else {
            unreachable!();
        };
        self.left -= 1;
        self.bytes = rest;
        Some(message)
    }
}
