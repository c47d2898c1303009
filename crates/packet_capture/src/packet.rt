//! IP packets and the UDP datagrams in them.
ghost use Rattle.std.specs.Prelude.{◌≡◌, ◌≤◌, ◌<◌, ◌/◌, None, true, IfSome, IfNone, IfOk, IfErr, IsTrue, ◌↔◌, length, slice_index};
ghost use Rattle.packet_capture.specs.declared.fields.ByteOrder.TheVariants.{Big};
ghost use Rattle.packet_capture.specs.declared.link.IpVersion.TheVariants.{V4};
ghost use Rattle.packet_capture.specs.Fields.{u16_in};
ghost use Rattle.packet_capture.specs.Packets.{IsIp, IsUdp, version_number, least_len, header_len, packet_len, obstacle_in, destination_in, segment_in, is_extension};
ghost use Rattle.packet_capture.specs.Datagrams.{HasUdp, datagram_content, datagram_in};
ghost use Rattle.packet_capture.specs.FrameFaults.{HasPacketFault};

use crate::datagram::{Address, UdpDatagram};
use crate::fault::FrameFault;
use crate::fields::{ByteOrder, read_u16};
use crate::link::IpVersion;

#[inline(always)]
fn least_len(version: IpVersion) -> usize
    ensures { result ≡ least_len version }
{
    match version {
        IpVersion::V4 => 20,
        IpVersion::V6 => 40,
    }
}

#[inline(always)]
fn header_len(version: IpVersion, packet: &[u8]) -> usize
    requires { least_len version ≤ length packet.now }
    ensures value { result ≡ header_len version packet.now }
    ensures small { result ≤ 60 }
{
    match version {
        IpVersion::V4 => usize::from(packet[0] % 16) * 4,
        IpVersion::V6 => 40,
    }
}

#[inline(always)]
fn packet_len(version: IpVersion, packet: &[u8]) -> usize
    requires { least_len version ≤ length packet.now }
    ensures { result ≡ packet_len version packet.now }
{
    match version {
        IpVersion::V4 => usize::from(read_u16(ByteOrder::Big, packet, 2)),
        IpVersion::V6 => 40 + usize::from(read_u16(ByteOrder::Big, packet, 4)),
    }
}

#[inline(always)]
fn version_number(version: IpVersion) -> u8
    ensures { result ≡ version_number version }
{
    match version {
        IpVersion::V4 => 4,
        IpVersion::V6 => 6,
    }
}

/// Whether a header is there, of this version, and its lengths agree.
#[inline(always)]
fn is_ip(version: IpVersion, packet: &[u8]) -> bool
    requires { least_len version ≤ length packet.now }
    ensures { IsTrue result ↔ IsIp version packet.now }
{
    let header = header_len(version, packet);
    packet[0] / 16 == version_number(version)
        && least_len(version) <= header
        && header <= packet_len(version, packet)
}

fn is_extension(next: u8) -> bool
    ensures { result ≡ is_extension next }
{
    matches!(next, 0 | 43 | 50 | 51 | 60 | 135 | 139 | 140)
}

/// Why the packet has no whole UDP datagram, if so.
#[inline(always)]
fn obstacle_in(version: IpVersion, packet: &[u8]) -> Option<FrameFault>
    requires { least_len version ≤ length packet.now }
    ensures { result ≡ obstacle_in version packet.now }
{
    match version {
        IpVersion::V4 => {
            if packet[9] != 17 {
                Some(FrameFault::NotUdp)
            } else if read_u16(ByteOrder::Big, packet, 6) % 16384 != 0 {
                Some(FrameFault::Fragment)
            } else {
                None
            }
        }
        IpVersion::V6 => match packet[6] {
            17 => None,
            44 => Some(FrameFault::Fragment),
            next => Some(if is_extension(next) {
                FrameFault::ExtensionHeader
            } else {
                FrameFault::NotUdp
            }),
        },
    }
}

#[inline(always)]
fn destination_in(version: IpVersion, packet: &[u8]) -> Address
    requires { least_len version ≤ length packet.now }
    ensures { result ≡ destination_in version packet.now }
{
    match version {
        IpVersion::V4 => { Address::V4([packet[16], packet[17], packet[18], packet[19]]) }
        IpVersion::V6 => {
            let mut bytes = [0; 16];
            bytes.copy_from_slice(&packet[24..40]);
            Address::V6(bytes)
        }
    }
}

/// The number of bytes of the UDP datagram with its header, or `None` where that is bad.
#[inline(always)]
fn udp_len(segment: &[u8]) -> Option<usize>
    ensures found { IfSome result (λ len. len ≡ u16_in Big segment.now 4) }
    ensures whole { IfSome result (λ _. IsUdp segment.now) }
    ensures short { IfSome result (λ len. len ≤ 65535) }
    ensures bad { IfNone result (IsUdp segment.now → ⊥) }
{
    if segment.len() < 8 {
        return None;
    }
    let len = usize::from(read_u16(ByteOrder::Big, segment, 4));
    if len < 8 || segment.len() < len {
        return None;
    }
    Some(len)
}

/// The first byte of an IPv4 header without options: its version, and its length in words.
const PLAIN_HEADER: u8 = 0x45;

/// The number of bytes of an IPv4 header without options and of a UDP header.
pub(crate) const PLAIN_HEADERS: usize = 28;

/// Whether a packet of IPv4 has no options, is of UDP and no fragment, with all its headers there.
#[inline(always)]
fn is_plain(packet: &[u8]) -> bool
    ensures there { result ≡ true → 28 ≤ length packet.now }
    ensures number { result ≡ true → slice_index packet.now 0 / 16 ≡ 4 }
    ensures header { result ≡ true → header_len V4 packet.now ≡ 20 }
    ensures clear { result ≡ true → obstacle_in V4 packet.now ≡ None }
{
    packet.len() >= PLAIN_HEADERS
        && packet[0] == PLAIN_HEADER
        && packet[9] == 17
        && read_u16(ByteOrder::Big, packet, 6) % 16384 == 0
}

/// Returns the datagram of a packet of IPv4 without options, or `None` where it has some, or no
/// whole datagram.
#[inline(always)]
pub(crate) fn read_plain_packet(packet: &[u8]) -> Option<UdpDatagram<'_>>
    ensures whole { IfSome result (λ _. HasUdp V4 packet.now) }
    ensures value { IfSome result (λ d. datagram_content d ≡ datagram_in V4 packet.now) }
    ensures short { IfSome result (λ d. length d.bytes.now ≤ 65527) }
{
    if !is_plain(packet) {
        return None;
    }
    let end = packet_len(IpVersion::V4, packet);
    if end < PLAIN_HEADERS || packet.len() < end {
        return None;
    }
    let udp = &packet[header_len(IpVersion::V4, packet)..end];
    let len = udp_len(udp)?;
    Some(UdpDatagram {
        address: destination_in(IpVersion::V4, packet),
        port: read_u16(ByteOrder::Big, udp, 2),
        bytes: &udp[8..len],
    })
}

/// Returns the datagram of a packet of this version, or the first fault that fits.
#[inline(always)]
pub(crate) fn read_packet(version: IpVersion, packet: &[u8]) -> Result<UdpDatagram<'_>, FrameFault>
    ensures whole { IfOk result (λ _. HasUdp version packet.now) }
    ensures value { IfOk result (λ d. datagram_content d ≡ datagram_in version packet.now) }
    ensures short { IfOk result (λ d. length d.bytes.now ≤ 65527) }
    ensures fault { IfErr result (HasPacketFault version packet.now) }
{
    if packet.len() < least_len(version) {
        return Err(FrameFault::ShortFrame);
    }
    if !is_ip(version, packet) {
        return Err(FrameFault::BadIpHeader);
    }
    if let Some(fault) = obstacle_in(version, packet) {
        return Err(fault);
    }
    let end = packet_len(version, packet);
    if packet.len() < end {
        return Err(FrameFault::ShortFrame);
    }
    let segment = &packet[header_len(version, packet)..end];
    let Some(len) = udp_len(segment) else {
        return Err(FrameFault::BadUdpLength);
    };
    Ok(UdpDatagram {
        address: destination_in(version, packet),
        port: read_u16(ByteOrder::Big, segment, 2),
        bytes: &segment[8..len],
    })
}
