//! The buffers of the lines' sockets, in which the system keeps what has come until it is read.

use crate::listen_sockets::BoundLine;
use libc::net as c;
use std::alloc::{AllocError, Global};
use std::net::UdpSocket;
use std::os::fd::AsRawFd;

/// Asks for a buffer of this many bytes. Where the system's own limit is lower, it gives that.
fn ask_for(socket: &UdpSocket, bytes: u32) {
    let mut value = [0u8; 16];
    value[..4].copy_from_slice(&bytes.to_ne_bytes());
    let fd = socket.as_raw_fd();
    let _ = unsafe { c::setsockopt(fd, c::SOL_SOCKET, c::SO_RCVBUF, &value, 4) };
}

/// How many bytes the socket's buffer has, as they are asked for: the system reports twice as many,
/// since it keeps a half for its own account of what has come. None where it doesn't report any.
fn size_of(socket: &UdpSocket) -> Option<u32> {
    let mut value = [0u8; 16];
    let mut len = 16u32;
    let fd = socket.as_raw_fd();
    let status = unsafe { c::getsockopt(fd, c::SOL_SOCKET, c::SO_RCVBUF, &mut value, &mut len) };
    if status < 0 {
        return None;
    }
    Some(u32::from_ne_bytes([value[0], value[1], value[2], value[3]]) / 2)
}

/// Asks for a buffer of this many bytes at each socket, and returns the line that says how many the
/// smallest one has then.
pub fn enlarge(alloc: Global, lines: &[BoundLine], bytes: u32) -> Result<String, AllocError> {
    let mut least = u32::MAX;
    for bound in lines {
        ask_for(&bound.socket, bytes);
        least = least.min(size_of(&bound.socket).unwrap_or(0));
    }
    if least < bytes {
        return format!(in alloc;
            "nbbo: socket buffers of {least} bytes: the system allows no more (net.core.rmem_max)\n"
        );
    }
    format!(in alloc; "nbbo: socket buffers of {least} bytes\n")
}
