//! The datagram that a frame carries.
ghost use Rattle.std.specs.Prelude.{◌≤◌, IfSome, IfOk, IfErr, length};
ghost use Rattle.packet_capture.specs.Datagrams.{CarriesDatagram, datagram_content};
ghost use Rattle.packet_capture.specs.FrameFaults.{HasFrameFault};

use crate::fault::FrameFault;
use crate::link::{LinkType, plain_packet, read_link};
use crate::packet::{read_packet, read_plain_packet};

/// An IP address, with its bytes in the order of a packet.
#[derive(Clone, Copy, Debug, PartialEq, Eq, Hash)]
pub enum Address {
    V4([u8; 4]),
    V6([u8; 16]),
}

/// A UDP datagram, which borrows its bytes from the frame.
#[derive(Clone, Copy, Debug, PartialEq, Eq)]
pub struct UdpDatagram<'a> {
    /// The address that it is sent to: one machine, or a group.
    pub address: Address,
    /// The port that it is sent to.
    pub port: u16,
    /// Its content, up to 65,507 bytes in IPv4 and 65,527 in IPv6, without the UDP header.
    pub bytes: &'a [u8],
}

/// Returns the UDP datagram that a frame carries, or the first fault that fits.
///
/// `link` is the number of the frame's link type. `UnknownLink` where it isn't one of
/// [`LinkType`]; `ShortFrame` where the frame ends before its IP packet; `NotIp` where it carries
/// another protocol; and then, of the packet: `ShortFrame` where the frame ends within the IP
/// header, `BadIpHeader`, `NotUdp`, `Fragment` (of IPv4, or the extension header of IPv6),
/// `ExtensionHeader` (any other of IPv6), `ShortFrame` where the frame ends before the packet, and
/// `BadUdpLength`. No other fault comes.
///
/// What follows the packet in the frame, or the datagram in the packet, is not read. No checksum is
/// looked at: a card that computes them leaves them wrong in what it sends. The sources are the
/// registry of link-layer header types of tcpdump.org, IEEE 802.1Q, RFC 791, RFC 8200 and RFC 768.
#[inline(always)]
pub fn read_datagram(link: u16, frame: &[u8]) -> Result<UdpDatagram<'_>, FrameFault>
    ensures carried { IfOk result (λ d. CarriesDatagram link frame.now (datagram_content d)) }
    ensures short { IfOk result (λ d. length d.bytes.now ≤ 65527) }
    ensures fault { IfErr result (HasFrameFault link frame.now) }
{
    if let Some(datagram) = read_plain_datagram(link, frame) {
        return Ok(datagram);
    }
    let Some(link) = LinkType::from_number(link) else {
        return Err(FrameFault::UnknownLink);
    };
    match read_link(link, frame) {
        Ok((version, packet)) => read_packet(version, packet),
        Err(fault) => Err(fault),
    }
}

/// Returns the UDP datagram that an Ethernet frame carries in IPv4, with no tag and no option
/// before it, as the frames of most feeds do; and `None` of any other frame, which
/// [`read_datagram`] may read.
#[inline(always)]
pub fn read_plain_datagram(link: u16, frame: &[u8]) -> Option<UdpDatagram<'_>>
    ensures carried { IfSome result (λ d. CarriesDatagram link frame.now (datagram_content d)) }
    ensures short { IfSome result (λ d. length d.bytes.now ≤ 65527) }
{
    let link = LinkType::from_number(link)?;
    read_plain_packet(plain_packet(link, frame)?)
}
