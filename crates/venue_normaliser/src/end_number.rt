//! The number of an end of session.

ghost use Rattle.std.specs.Prelude.{◌≡◌, IfNone, IfSome};
ghost use Rattle.venue_normaliser.specs.Ends.{read_as};

use mold_packet::{Body, Kind, Packet, read_packet, write_packet};

/// The bytes of a packet without messages.
pub(crate) const END_BYTES: usize = 20;

/// The number that a venue's end of session has.
#[derive(Clone, Copy, Debug, PartialEq, Eq)]
pub enum EndNumber {
    /// One more than the last message's, as the standard has it.
    Next,
    /// The last message's own.
    Last,
}

/// Returns the end of session whose number is one more than the packet's, written into `bytes`;
/// `None` where there is no greater number.
pub(crate) fn end_after<'a>(packet: &Packet<'_>, bytes: &'a mut [u8; 20]) -> Option<Packet<'a>>
    requires { packet.now.kind ≡ Kind.End }
    ensures moved { IfSome result (λ end. end ≡ read_as EndNumber.Last packet.now) }
    ensures greatest { IfNone result (read_as EndNumber.Last packet.now ≡ packet.now) }
{
    let number = packet.number().checked_add(1)?;
    let written = write_packet(&packet.session(), number, Body::End, bytes);
    if written.is_err() {
        return None;
    }
    match read_packet(bytes) {
        Ok(end) => Some(end),
        Err(_) => None,
    }
}

/// Returns the end of session with the number that the standard has, written into `bytes`, where
/// the packet is an end whose number is another; `None` where the packet is read as it is.
#[inline(always)]
pub(crate) fn moved_end<'a>(
    end_number: EndNumber,
    packet: &Packet<'_>,
    bytes: &'a mut [u8; 20],
) -> Option<Packet<'a>>
    ensures moved { IfSome result (λ end. end ≡ read_as end_number packet.now) }
    ensures same { IfNone result (read_as end_number packet.now ≡ packet.now) }
{
    match end_number {
        EndNumber::Next => None,
        EndNumber::Last => match packet.kind() {
            Kind::Messages | Kind::Heartbeat => None,
            Kind::End => end_after(packet, bytes),
        },
    }
}
