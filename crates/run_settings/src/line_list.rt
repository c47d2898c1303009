//! Lists of lines by their addresses.
ghost use Rattle.std.specs.Prelude.{◌≡◌, ℕ, ◌*◌, ◌<◌, ◌≤◌, ◌++◌, IfOk, IsTrue, OnOk, ◌↔◌, length, true, false, vec_len};
ghost use Rattle.run_settings.specs.Lists.{address_of, captured_line_at, line_of_place, lines_from, AreSame, HasSame, AreApart, AreOfVenues};

use crate::captured_line::CapturedLine;
use feed_types::{LineId, VenueId};
use packet_capture::Address;
use std::alloc::{AllocError, Global};
use std::net::{IpAddr, SocketAddr};

fn address_of(ip: IpAddr) -> Address
    ensures { result ≡ address_of ip }
{
    match ip {
        IpAddr::V4(ip) => Address::V4(ip.octets()),
        IpAddr::V6(ip) => Address::V6(ip.octets()),
    }
}

/// The line at a place of the list.
fn captured_line_at(place: usize, address: SocketAddr) -> CapturedLine
    requires { place < 32 }
    ensures { result ≡ captured_line_at place address }
{
    let Some(venue) = VenueId::from_index(place / 2) else {
        unreachable!();
    };
    CapturedLine {
        address: address_of(address.ip()),
        port: address.port(),
        venue,
        line: if place % 2 == 0 { LineId::A } else { LineId::B },
    }
}

/// Appends the line at a place of the list, where one is there.
fn push_line(
    lines: &mut Vec<CapturedLine>,
    place: usize,
    address: Option<SocketAddr>,
) -> Result<(), AllocError>
    requires { place < 32 }
    ensures { OnOk result (lines.new.items ≡ lines.old.items ++ line_of_place place address) }
{
    if let Some(address) = address {
        lines.push(captured_line_at(place, address))?;
    }
    Ok(())
}

/// Returns the lines that receive at the addresses: two for each venue, line A's and then line B's,
/// venue 0's first. One without an address isn't among them.
pub fn lines_at(
    alloc: Global,
    addresses: &[Option<SocketAddr>],
) -> Result<Vec<CapturedLine>, AllocError>
    requires { length addresses.now ≤ 32 }
    ensures lines { IfOk result (λ lines. lines.items ≡ lines_from 0 addresses.now) }
    ensures venues { IfOk result (λ lines. (venues : ℕ)
        → length addresses.now ≤ 2 * venues → AreOfVenues venues lines.items) }
{
    let mut lines = Vec::with_capacity(alloc, addresses.len())?;
    let mut place = 0;
    for address in addresses {
        push_line(&mut lines, place, *address)?;
        place += 1;
    }
    Ok(lines)
}

fn are_same(one: &CapturedLine, other: &CapturedLine) -> bool
    ensures { IsTrue result ↔ AreSame one.now other.now }
{
    one.address == other.address && one.port == other.port
}

/// Whether one of the lines has the address and port of another line.
fn has_same(lines: &[CapturedLine], line: &CapturedLine) -> bool
    ensures found { result ≡ true → HasSame lines.now line.now }
    ensures not_found { result ≡ false → HasSame lines.now line.now → ⊥ }
{
    for other in lines {
        if are_same(other, line) {
            return true;
        }
    }
    false
}

/// Returns whether no two lines are of one address and port.
pub fn are_apart(lines: &[CapturedLine]) -> bool
    ensures { IsTrue result ↔ AreApart lines.now }
{
    let mut place = 0;
    while place < lines.len() {
        if has_same(&lines[..place], &lines[place]) {
            return false;
        }
        place += 1;
    }
    true
}
