//! The line that a datagram goes to.
ghost use Rattle.std.specs.Prelude.{◌≡◌, ◌⊎◌, IfSome, IfNone, IsTrue, ◌↔◌};
ghost use Rattle.packet_capture.specs.Datagrams.{datagram_content};
ghost use Rattle.line_captures.specs.Lines.{IsZeros, Takes, GoesTo, GoesToNone};

use packet_capture::{Address, UdpDatagram};
use run_settings::CapturedLine;

fn is_zeros(address: &Address) -> bool
    ensures { IsTrue result ↔ IsZeros address.now }
{
    match address {
        Address::V4([a, b, c, d]) => *a == 0 && *b == 0 && *c == 0 && *d == 0,
        Address::V6(bytes) => *bytes == [0; 16],
    }
}

/// Whether two addresses of IPv6 are the same. One is passed by value, so that a datagram's address
/// needn't lie in memory.
#[inline(never)]
fn is_same_ipv6(one: &[u8; 16], other: [u8; 16]) -> bool
    ensures { IsTrue result ↔ (one.now ≡ other) }
{
    *one == other
}

/// Whether two addresses are the same. Those of IPv4 are compared as numbers, which takes one step.
#[inline(always)]
fn are_same_address(one: &Address, other: &Address) -> bool
    ensures { IsTrue result ↔ (one.now ≡ other.now) }
{
    match (one, other) {
        (Address::V4([a, b, c, d]), Address::V4([e, f, g, h])) => {
            u32::from_be_bytes([*a, *b, *c, *d]) == u32::from_be_bytes([*e, *f, *g, *h])
        }
        (Address::V6(one), Address::V6(other)) => is_same_ipv6(one, *other),
        _ => false,
    }
}

/// Whether the line takes the datagram.
// As a call for each line that is looked at it took some 20 instructions.
#[inline(always)]
fn takes(line: &CapturedLine, datagram: &UdpDatagram<'_>) -> bool
    ensures { IsTrue result ↔ Takes line.now (datagram_content datagram.now) }
{
    line.port == datagram.port
        && (are_same_address(&line.address, &datagram.address) || is_zeros(&line.address))
}

/// The line of the list that a datagram goes to: the first that takes it, or `None`.
#[inline(always)]
pub(crate) fn line_to(lines: &[CapturedLine], datagram: &UdpDatagram<'_>) -> Option<CapturedLine>
    ensures some { IfSome result (GoesTo lines.now (datagram_content datagram.now)) }
    ensures none { IfNone result (GoesToNone lines.now (datagram_content datagram.now)) }
{
    for line in lines {
        if takes(line, datagram) {
            return Some(*line);
        }
    }
    None
}
