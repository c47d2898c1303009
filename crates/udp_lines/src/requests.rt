//! How a line's requests leave.
ghost use Rattle.std.specs.Prelude.{◌≡◌};
ghost use Rattle.udp_lines.specs.Pace.{may_send, present_after};

use crate::datagram_in::DatagramIn;
use std::net::{SocketAddr, UdpSocket};

/// The most requests that a line sends in a second.
const MOST: u32 = 100;

/// How a line's requests leave.
#[derive(Drop)]
pub enum Requests {
    /// Not at all: they are dropped.
    Dropped,
    /// From the line's own socket, to this address.
    FromLine(SocketAddr),
    /// From this socket, to this address.
    From(UdpSocket, SocketAddr),
}

impl Requests {
    /// Whether they are dropped.
    pub(crate) fn are_dropped(&self) -> bool {
        matches!(self, Requests::Dropped)
    }

    /// Sends the bytes of a request, and returns whether that could be done. `own` is the line's
    /// own socket.
    pub(crate) fn send<S: DatagramIn>(&self, own: &S, bytes: &[u8]) -> bool {
        match self {
            Requests::Dropped => false,
            Requests::FromLine(to) => own.send_datagram(bytes, *to),
            Requests::From(socket, to) => socket.send_datagram(bytes, *to),
        }
    }
}

/// How many requests a line has sent in the present second.
#[derive(Clone, Copy, Debug)]
pub(crate) struct RequestPace {
    /// When that second began, in milliseconds, and how many requests were sent in it.
    present: Option<(u64, u32)>,
}

impl RequestPace {
    /// No request was sent.
    pub(crate) fn new() -> RequestPace {
        RequestPace { present: None }
    }

    /// Counts a request at this moment, in milliseconds, and returns whether it may be sent: it is
    /// one of the first 100 of a second, which begins with its first one.
    pub(crate) fn may_send(&mut self, now_ms: u64) -> bool
        ensures sent { result ≡ may_send self.old.present now_ms }
        ensures after { self.new.present ≡ present_after self.old.present now_ms }
    {
        let (begun_ms, sent) = match self.present {
            Some((begun_ms, sent)) if now_ms.saturating_sub(begun_ms) < 1_000 => (begun_ms, sent),
            _ => (now_ms, 0),
        };
        if sent >= MOST {
            return false;
        }
        self.present = Some((begun_ms, sent + 1));
        true
    }
}
