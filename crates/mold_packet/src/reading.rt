//! The reading of a downstream packet from a datagram.

ghost use Rattle.std.specs.Prelude.{List, ℕ, IfOk, IfErr};
ghost use Rattle.mold_packet.specs.Content.{Spells};
ghost use Rattle.mold_packet.specs.Faults.{HasFault};

use crate::blocks::split_blocks;
use crate::fault::PacketFault;
use crate::header::{
    END_COUNT, HEADER_LEN, HEARTBEAT_COUNT, read_count, read_number, read_session,
};
use crate::packet::{Kind, Packet};

/// Reads a downstream packet from a datagram, or returns the first fault that fits: `ShortHeader`,
/// `TruncatedBlock`, `ZeroSequence`, `SequenceOverflow`. No other fault comes.
///
/// | Offset | Length | Field |
/// |---|---|---|
/// | 0 | 10 | session |
/// | 10 | 8 | sequence number |
/// | 18 | 2 | message count |
/// | 20 | | message blocks |
///
/// Numbers are unsigned, with the high byte first. A count of 1 to 65,534 says how many message
/// blocks follow ([`Messages`](crate::Messages) has their layout). A count of 0 is a heartbeat and
/// a count of `ffff` the end of the session, and no block is read after either. Bytes after the
/// last block are not read: [`Packet::ignored`] counts them. MoldUDP64 1.00, "Downstream Packet",
/// "Message Block", "Heartbeats" and "End of Session", has all but the faults and the ignored
/// bytes, which are this project's.
///
/// Reading goes over the lengths of the blocks once, and over no message.
pub fn read_packet(bytes: &[u8]) -> Result<Packet<'_>, PacketFault>
    ensures spelled { IfOk result (λ packet. (rest : List ℕ) × Spells bytes.now packet rest) }
    ensures fault { IfErr result (HasFault bytes.now) }
{
    if bytes.len() < HEADER_LEN {
        return Err(PacketFault::ShortHeader);
    }
    let number = read_number(bytes);
    let (kind, count) = match read_count(bytes) {
        HEARTBEAT_COUNT => (Kind::Heartbeat, 0),
        END_COUNT => (Kind::End, 0),
        count => (Kind::Messages, count),
    };
    let Some((blocks, rest)) = split_blocks(count, &bytes[HEADER_LEN..]) else {
        return Err(PacketFault::TruncatedBlock);
    };
    if number == 0 {
        return Err(PacketFault::ZeroSequence);
    }
    if count > 0 && number > u64::MAX - u64::from(count - 1) {
        return Err(PacketFault::SequenceOverflow);
    }
    Ok(Packet {
        session: read_session(bytes),
        number,
        kind,
        count,
        blocks,
        ignored: rest.len(),
    })
}
