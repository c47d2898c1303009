//! Requests for messages that are missing, read and written.

ghost use Rattle.std.specs.Prelude.{◌≡◌, ◌≤◌, ◌<◌, take, IfOk, IfErr, OnOk};
ghost use Rattle.mold_packet.specs.Request.{SpellsRequest, HasRequestFault};
ghost use Rattle.mold_packet.specs.Writing.{WritesFirst, WritesNothing};

use crate::fault::PacketFault;
use crate::header::{HEADER_LEN, read_count, read_number, read_session, write_header};

/// Asks a session's sender for messages again.
///
/// | Offset | Length | Field |
/// |---|---|---|
/// | 0 | 10 | session |
/// | 10 | 8 | sequence number of the first message wanted |
/// | 18 | 2 | how many messages are wanted |
///
/// It is exactly 20 bytes long. Numbers have their high byte first. The source is MoldUDP64 1.00,
/// "Request Packet".
#[derive(Clone, Copy, Debug, PartialEq, Eq, Hash)]
pub struct Request {
    /// The session's name: any ten bytes. A shorter name is filled with spaces.
    pub session: [u8; 10],
    /// The first message wanted. A request that was read has at least 1.
    pub number: u64,
    /// The number of messages wanted.
    pub count: u16,
}

/// Writes a request into the first 20 bytes of `out` and returns 20, or `BufferTooSmall` where
/// there are fewer, and then nothing is written.
///
/// A request of any number and count is written, though [`read_request`] refuses the number 0.
pub fn write_request(request: &Request, out: &mut [u8]) -> Result<usize, PacketFault>
    ensures len { IfOk result (λ n. n ≡ 20) }
    ensures spelled { OnOk result (SpellsRequest (take 20 out.new) request.now) }
    ensures first { OnOk result (WritesFirst 20 out.old out.new) }
    ensures refused { IfErr result (λ fault. WritesNothing fault 20 out.old out.new) }
{
    if out.len() < HEADER_LEN {
        return Err(PacketFault::BufferTooSmall);
    }
    write_header(&request.session, request.number, request.count, out);
    Ok(HEADER_LEN)
}

/// Reads a request, or returns the first fault that fits: `BadRequestLength` where there are not
/// exactly 20 bytes, and `ZeroSequence` where the number is 0.
pub fn read_request(bytes: &[u8]) -> Result<Request, PacketFault>
    ensures spelled { IfOk result (SpellsRequest bytes.now) }
    ensures from_one { IfOk result (λ request. 1 ≤ request.number) }
    ensures fault { IfErr result (HasRequestFault bytes.now) }
{
    if bytes.len() != HEADER_LEN {
        return Err(PacketFault::BadRequestLength);
    }
    let number = read_number(bytes);
    if number == 0 {
        return Err(PacketFault::ZeroSequence);
    }
    Ok(Request {
        session: read_session(bytes),
        number,
        count: read_count(bytes),
    })
}
