//! A line's socket, whose datagrams are taken from it, and memory for them.
ghost use Rattle.std.specs.Prelude.{◌≡◌, ◌≤◌, IfOk, OnErr, length, vec_capacity};
ghost use Rattle.venue_lines.specs.Datagrams.{bytes_of};
ghost use Rattle.run_settings.specs.Senders.{senders_of};
ghost use Rattle.udp_lines.specs.Sockets.{IsHandedOver};

use crate::datagram_in::{DatagramIn, MAX_TURNS, ReceiveStop};
use run_settings::Senders;
use std::alloc::{AllocError, Global};
use venue_lines::{Datagram, SourceFault};

/// The most bytes that a datagram can have.
pub(crate) const MAX_DATAGRAM: usize = 65_535;

/// A line's socket, and whose datagrams are taken from it.
#[derive(Drop)]
pub(crate) struct LineSocket<S> {
    pub(crate) socket: S,
    pub(crate) senders: Senders,
    /// What the socket has brought last, at its front.
    pub(crate) buffer: Vec<u8>,
}

/// What a wait for a datagram came to.
#[derive(Clone, Copy, Debug, PartialEq, Eq)]
pub(crate) enum Received {
    /// A datagram of a sender whose datagrams are taken: this number of bytes of the buffer.
    Taken(usize),
    /// A datagram of another sender, which is passed over.
    Foreign,
    /// Why there is none.
    Failed(SourceFault),
    /// None has come.
    NoneYet,
}

/// Asks the socket once for a datagram. Where no senders are named, its address isn't asked for.
#[tactic(auto, using(crate::proofs::Hearing::from_any, crate::proofs::Hearing::heard_of))]
fn receive_once<S: DatagramIn>(
    socket: &mut S,
    senders: &Senders,
    buffer: &mut [u8],
) -> Result<Received, ReceiveStop>
    ensures received { IfOk result (λ received. IsHandedOver S.brings S.waits
        (senders_of senders.now) socket.old received buffer.new socket.new) }
    ensures waits { OnErr result (S.waits socket.old socket.new) }
{
    if !senders.are_named() {
        return match socket.receive_any(buffer) {
            Ok(count) => Ok(Received::Taken(count)),
            Err(stop) => Err(stop),
        };
    }
    match socket.receive(buffer) {
        Ok((count, from)) => {
            if senders.takes_from(&from) {
                Ok(Received::Taken(count))
            } else {
                Ok(Received::Foreign)
            }
        }
        Err(stop) => Err(stop),
    }
}

/// Waits a while for a datagram, and returns its length where it is of one of the senders, or why
/// there is none: Device where the socket failed, TooManyTurns where it was interrupted a million
/// times. Its bytes are at the front of the buffer then.
#[tactic(auto, using(crate::proofs::Hearing::handed_over_later))]
pub(crate) fn try_receive<S: DatagramIn>(
    socket: &mut S,
    senders: &Senders,
    buffer: &mut [u8],
) -> Received
    ensures { IsHandedOver S.brings S.waits (senders_of senders.now) socket.old result buffer.new
        socket.new }
{
    for _ in 0..MAX_TURNS {
        match receive_once(socket, senders, buffer) {
            Ok(received) => return received,
            Err(ReceiveStop::Interrupted) => {}
            Err(ReceiveStop::NoneYet) => return Received::NoneYet,
            Err(ReceiveStop::Failed) => return Received::Failed(SourceFault::Device),
        }
    }
    Received::Failed(SourceFault::TooManyTurns)
}

/// Memory with room for this many bytes: this one, where it has it, else some that is asked for.
pub(crate) fn with_room(alloc: Global, used: Vec<u8>, room: usize) -> Result<Vec<u8>, AllocError>
    ensures { IfOk result (λ memory. room ≤ vec_capacity memory) }
{
    if used.capacity() >= room {
        Ok(used)
    } else {
        Vec::with_capacity(alloc, room)
    }
}

/// A datagram of these bytes, in memory that has room for them.
pub(crate) fn datagram_of(memory: Vec<u8>, bytes: &[u8]) -> Datagram
    requires { length bytes.now ≤ vec_capacity memory }
    ensures { bytes_of result ≡ bytes.now }
{
    let mut memory = memory;
    memory.clear();
    match memory.extend_from_slice(bytes) {
        Ok(()) => Datagram::new(memory),
        Err(_) => Datagram::new(memory),
    }
}
