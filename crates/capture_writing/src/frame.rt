//! The head of a frame: what stands before the bytes of a datagram in a savefile.
ghost use Rattle.std.specs.Prelude.{◌≡◌, ◌≤◌, ◌++◌, length};
ghost use Rattle.capture_writing.specs.Checksums.{checksum_of, datagram_checksum_of};
ghost use Rattle.capture_writing.specs.Frames as frames;

use crate::checksum::{add_words, checksum, datagram_checksum};
use crate::destination::Destination;
use crate::fields::{file_u32, packet_u16};
use crate::time::CaptureTime;

/// The number of bytes of a head: a packet record's 16, and the headers of Ethernet (14), IPv4 (20)
/// and UDP (8).
pub const FRAME_HEAD: usize = 58;

/// The most bytes of a datagram of IPv4.
pub const MOST_BYTES: usize = 65_507;

/// Returns the Ethernet address of an address: a group's, or one of this project's own making.
#[inline(always)]
fn link_address(address: [u8; 4]) -> [u8; 6]
    ensures { result ≡ frames.link_address address }
{
    let [a, b, c, d] = address;
    if a / 16 == 14 {
        [1, 0, 0x5e, b % 128, c, d]
    } else {
        [2, 0, a, b, c, d]
    }
}

/// Returns the checksum of the IPv4 header before a datagram: of the words of its constant fields,
/// its length and the addresses.
#[inline(always)]
fn header_checksum(to: &Destination, datagram: &[u8]) -> u16
    requires { length datagram.now ≤ 65507 }
    ensures { result ≡ checksum_of (frames.header_sum to.now datagram.now) }
{
    let [a, b, c, d] = to.address;
    let constant: u32 = 0x4500 + 0x4000 + 0x0111 + 0xc000 + 0x0201;
    let len = 28 + datagram.len() as u32;
    let high = u32::from(a) * 256 + u32::from(b);
    let low = u32::from(c) * 256 + u32::from(d);
    checksum(constant + len + high + low)
}

/// Returns the checksum of a datagram: of the words of the addresses, the protocol and the length,
/// and of its header and bytes.
#[inline(always)]
fn sum_of_datagram(to: &Destination, datagram: &[u8]) -> u16
    requires { length datagram.now ≤ 65507 }
    ensures { result ≡ datagram_checksum_of (frames.datagram_sum to.now datagram.now) }
{
    let [a, b, c, d] = to.address;
    let constant: u32 = 0xc000 + 0x0201 + 17;
    let len = 8 + datagram.len() as u32;
    let high = u32::from(a) * 256 + u32::from(b);
    let low = u32::from(c) * 256 + u32::from(d);
    let before = constant + high + low + 2 * len + 2 * u32::from(to.port);
    datagram_checksum(add_words(before, datagram))
}

/// Returns what stands in a savefile before the bytes of `datagram`, which goes to `to`, at `time`:
/// the head of its packet record, and the headers of Ethernet, IPv4 and UDP, with the lengths and
/// checksums. The datagram has at most [`MOST_BYTES`] bytes.
pub fn frame_head(to: &Destination, time: CaptureTime, datagram: &[u8]) -> [u8; FRAME_HEAD]
    requires { length datagram.now ≤ 65507 }
    ensures { result ++ datagram.now ≡ frames.datagram_record_bytes
        (record { to = to.now; time = time; bytes = datagram.now }) }
{
    let len = datagram.len();
    let [s0, s1, s2, s3] = file_u32(time.seconds());
    let [n0, n1, n2, n3] = file_u32(time.parts());
    let [l0, l1, l2, l3] = file_u32(42 + len as u32);
    let [e0, e1, e2, e3, e4, e5] = link_address(to.address);
    let [t0, t1] = packet_u16(28 + len as u16);
    let [c0, c1] = packet_u16(header_checksum(to, datagram));
    let [a, b, c, d] = to.address;
    let [p0, p1] = packet_u16(to.port);
    let [u0, u1] = packet_u16(8 + len as u16);
    let [k0, k1] = packet_u16(sum_of_datagram(to, datagram));
    [
        s0, s1, s2, s3, n0, n1, n2, n3, l0, l1, l2, l3, l0, l1, l2, l3, // the packet record
        e0, e1, e2, e3, e4, e5, 2, 0, 192, 0, 2, 1, 8, 0, // Ethernet
        69, 0, t0, t1, 0, 0, 64, 0, 1, 17, c0, c1, 192, 0, 2, 1, a, b, c, d, // IPv4
        p0, p1, p0, p1, u0, u1, k0, k1, // UDP
    ]
}
