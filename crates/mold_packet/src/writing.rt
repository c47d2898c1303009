//! The writing of a downstream packet into a buffer.

ghost use Rattle.std.specs.Prelude.{◌≡◌, ◌+◌, ◌^◌, ◌<◌, ◌≤◌, ◌++◌, [], length, take, drop, IfOk, IfErr};
ghost use Rattle.std.specs.List.{flat_map, AllByRecursion};
ghost use Rattle.mold_packet.specs.Block.{block, IsMessage};
ghost use Rattle.mold_packet.specs.Body.{BodyFits, lent_bytes, packet_of};
ghost use Rattle.mold_packet.specs.Content.{spelling, Spells};
ghost use Rattle.mold_packet.specs.Writing.{WritesFirst, WritesNothing};

use crate::body::Body;
use crate::fault::PacketFault;
use crate::header::{HEADER_LEN, write_header};

/// The number of bytes that the blocks of these messages take.
fn blocks_len(messages: &[&[u8]]) -> usize
    requires few { length messages.now ≤ 65534 }
    requires each { AllByRecursion IsMessage (lent_bytes messages.now) }
    ensures value { result ≡ length (flat_map block (lent_bytes messages.now)) }
    ensures small { result < 2 ^ 33 }
{
    let mut len = 0;
    for message in messages {
        len += 2 + message.len();
    }
    len
}

/// Writes the message's block to the front of `out`: its length in two bytes, and the message. It
/// has at most 65,535 bytes, and `out` has room for it.
pub fn write_block(message: &[u8], out: &mut [u8])
    requires is_message { IsMessage message.now }
    requires room { 2 + length message.now ≤ length out.old }
    ensures { out.new ≡ block message.now ++ drop (2 + length message.now) out.old }
{
    let end = 2 + message.len();
    out[..2].copy_from_slice(&(message.len() as u16).to_be_bytes());
    out[2..end].copy_from_slice(message);
}

/// Writes the messages' blocks to the front of `out`, one after the other.
fn write_blocks(messages: &[&[u8]], out: &mut [u8])
    requires each { AllByRecursion IsMessage (lent_bytes messages.now) }
    requires room { length (flat_map block (lent_bytes messages.now)) ≤ length out.old }
    ensures { let blocks = flat_map block (lent_bytes messages.now) in
        out.new ≡ blocks ++ drop (length blocks) out.old }
{
    let mut end = 0;
    for message in messages {
        write_block(message, &mut out[end..]);
        end += 2 + message.len();
    }
}

/// Writes a downstream packet to the front of `out` and returns its length in bytes, or
/// `BufferTooSmall` where `out` is shorter, and then nothing is written. No other fault comes.
///
/// [`read_packet`](crate::read_packet) has the layout. The number is at least 1. It is that of the
/// first message, and the last message's is at most 2^64 - 1; [`Body`] says what it is where there
/// are none.
pub fn write_packet(
    session: &[u8; 10],
    number: u64,
    body: Body<'_>,
    out: &mut [u8],
) -> Result<usize, PacketFault>
    requires from_one { 1 ≤ number }
    requires fits { BodyFits number body }
    ensures spelled { IfOk result (λ n.
        Spells (take n out.new) (packet_of session.now number body.entry) []) }
    ensures first { IfOk result (λ n. WritesFirst n out.old out.new) }
    ensures refused { IfErr result (λ fault.
        let n = length (spelling (packet_of session.now number body.entry)) in
        WritesNothing fault n out.old out.new) }
{
    let messages = body.messages();
    let len = HEADER_LEN + blocks_len(messages);
    if out.len() < len {
        return Err(PacketFault::BufferTooSmall);
    }
    write_header(session, number, body.count_field(), out);
    write_blocks(messages, &mut out[HEADER_LEN..]);
    Ok(len)
}
