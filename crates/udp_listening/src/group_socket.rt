//! Sockets at the addresses of multicast groups, which several programs of a machine may have.
ghost use Rattle.std.specs.Prelude.{◌≤◌};

use libc::net as c;
use os::FromRawFd;
use std::net::{SocketAddr, UdpSocket};
use std::os::fd::AsRawFd;

/// The bytes of an address of version four, and of version six, as the system's calls take it.
const V4_BYTES: u32 = 16;

const V6_BYTES: u32 = 28;

/// Returns the address as the system's calls take it, and how many of the bytes count.
fn raw_address(address: SocketAddr) -> ([u8; c::_SS_SIZE], u32)
    ensures { result.1 ≤ 128 }
{
    let mut raw = [0u8; c::_SS_SIZE];
    raw[2..4].copy_from_slice(&address.port().to_be_bytes());
    match address {
        SocketAddr::V4(address) => {
            raw[..2].copy_from_slice(&(c::AF_INET as u16).to_ne_bytes());
            raw[4..8].copy_from_slice(&address.ip().octets());
            (raw, V4_BYTES)
        }
        SocketAddr::V6(address) => {
            raw[..2].copy_from_slice(&(c::AF_INET6 as u16).to_ne_bytes());
            raw[4..8].copy_from_slice(&address.flowinfo().to_ne_bytes());
            raw[8..24].copy_from_slice(&address.ip().octets());
            raw[24..28].copy_from_slice(&address.scope_id().to_ne_bytes());
            (raw, V6_BYTES)
        }
    }
}

/// Returns a new socket of the address's version, if the system gives one.
fn unbound(address: SocketAddr) -> Option<UdpSocket> {
    let kind = c::SOCK_DGRAM | c::SOCK_CLOEXEC;
    let fd = match address {
        SocketAddr::V4(_) => unsafe { c::socket(c::AF_INET, kind, 0) },
        SocketAddr::V6(_) => unsafe { c::socket(c::AF_INET6, kind, 0) },
    };
    if fd < 0 {
        return None;
    }
    Some(unsafe { UdpSocket::from_raw_fd(fd) })
}

/// Has the socket share its address with those of other programs that have it share theirs.
fn share(socket: &UdpSocket) -> bool {
    let mut value = [0u8; 16];
    value[..4].copy_from_slice(&1u32.to_ne_bytes());
    let fd = socket.as_raw_fd();
    unsafe { c::setsockopt(fd, c::SOL_SOCKET, c::SO_REUSEADDR, &value, 4) >= 0 }
}

/// Returns a socket at the group's address, where each program that has such a socket receives all
/// that comes to the group. None where the system refuses it.
pub fn open_shared(group: SocketAddr) -> Option<UdpSocket> {
    let socket = unbound(group)?;
    let (raw, bytes) = raw_address(group);
    if share(&socket) && unsafe { c::bind(socket.as_raw_fd(), &raw, bytes) } >= 0 {
        Some(socket)
    } else {
        None
    }
}
