//! The sockets that lines are received by.
//!
//! What the network brings can't be known, so the trait speaks of a socket by relations between its
//! states, with laws. Of a socket of the system they say nothing.
ghost use Rattle.std.specs.Prelude.{◌≡◌, ◌≤◌, List, ℕ, IfOk, OnErr, length, take};
ghost use Rattle.std.specs.declared.net.socket_addr.SocketAddr.{SocketAddr};
ghost use Rattle.udp_lines.specs.Sockets.{BringsFromSome};

use std::io::ErrorKind;
use std::net::{SocketAddr, UdpSocket};
use std::time::Duration;

/// How many times a datagram is asked for, or sent, at most.
pub const MAX_TURNS: u32 = 1_000_000;

/// Why a call of a socket brought no datagram.
#[derive(Clone, Copy, Debug, PartialEq, Eq)]
pub enum ReceiveStop {
    /// The call was broken off. It may be made again.
    Interrupted,
    /// None came in time.
    NoneYet,
    /// The socket failed.
    Failed,
}

/// A socket of datagrams.
pub trait DatagramIn {
    /// One call brought a datagram of these bytes, which came from this address.
    ghost brings: { Self → SocketAddr → List ℕ → Self → Type 0 };

    /// Calls brought none.
    ghost waits: { Self → Self → Type 0 };

    /// Waits a while for a datagram, puts it at the front of the buffer, and returns how many bytes
    /// it has and from which address it came.
    fn receive(&mut self, buffer: &mut [u8]) -> Result<(usize, SocketAddr), ReceiveStop>
        ensures count { IfOk result (λ came. came.0 ≤ length buffer.new) }
        ensures brings { IfOk result
            (λ came. brings self.old came.1 (take came.0 buffer.new) self.new) }
        ensures waits { OnErr result (waits self.old self.new) };

    /// Waits a while for a datagram from any address, puts it at the front of the buffer, and
    /// returns how many bytes it has. A socket that has no body of its own for it lets the address
    /// go.
    fn receive_any(&mut self, buffer: &mut [u8]) -> Result<usize, ReceiveStop>
        ensures count { IfOk result (λ count. count ≤ length buffer.new) }
        ensures brings { IfOk result
            (λ count. BringsFromSome brings self.old (take count buffer.new) self.new) }
        ensures waits { OnErr result (waits self.old self.new) }
    {
        match self.receive(buffer) {
            Ok((count, _from)) => Ok(count),
            Err(stop) => Err(stop),
        }
    }

    /// Sends the bytes to this address as one datagram, and returns whether that could be done. A
    /// call that was interrupted is made again, a million times at most.
    fn send_datagram(&self, bytes: &[u8], to: SocketAddr) -> bool;

    /// Has each call of `receive` wait so long from now on.
    fn wait_each(&self, time: Duration);

    /// No calls bring none.
    ghost waits_not: { (s : Self) → waits s s };

    /// Calls after calls bring none.
    ghost waits_more: { (s t u : Self) → waits s t → waits t u → waits s u };
}

/// Why a call of a system's socket brought none, by the kind of its error.
fn stop_of(kind: ErrorKind) -> ReceiveStop {
    match kind {
        ErrorKind::Interrupted => ReceiveStop::Interrupted,
        ErrorKind::WouldBlock => ReceiveStop::NoneYet,
        _ => ReceiveStop::Failed,
    }
}

impl DatagramIn for UdpSocket {
    ghost brings = { λ _ _ _ _. Unit {0} };

    ghost waits = { λ _ _. Unit {0} };

    ghost waits_not = { λ _. tt };

    ghost waits_more = { λ _ _ _ _ _. tt };

    fn receive(&mut self, buffer: &mut [u8]) -> Result<(usize, SocketAddr), ReceiveStop> {
        match self.recv_from(buffer) {
            // A socket of both versions shows a sender of version four by a mapped address.
            Ok((count, from)) => {
                Ok((
                    count,
                    SocketAddr::new(from.ip().to_canonical(), from.port()),
                ))
            }
            Err(error) => Err(stop_of(error.kind())),
        }
    }

    fn receive_any(&mut self, buffer: &mut [u8]) -> Result<usize, ReceiveStop> {
        match self.recv(buffer) {
            Ok(count) => Ok(count),
            Err(error) => Err(stop_of(error.kind())),
        }
    }

    fn send_datagram(&self, bytes: &[u8], to: SocketAddr) -> bool {
        for _ in 0..MAX_TURNS {
            match self.send_to(bytes, to) {
                Ok(_) => return true,
                Err(error) if error.kind() == ErrorKind::Interrupted => {}
                Err(_) => return false,
            }
        }
        false
    }

    fn wait_each(&self, time: Duration) {
        let _ = self.set_read_timeout(Some(time));
    }
}
