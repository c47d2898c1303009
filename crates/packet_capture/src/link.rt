//! The headers of the link layer.
ghost use Rattle.std.specs.Prelude.{◌≡◌, ◌+◌, ◌≤◌, ◌<◌, ◌⊎◌, Some, None, IfSome, IfNone, IfOk, IfErr, true, length, drop};
ghost use Rattle.packet_capture.specs.declared.fault.FrameFault.TheVariants.{NotIp, ShortFrame};
ghost use Rattle.packet_capture.specs.declared.fields.ByteOrder.TheVariants.{Big};
ghost use Rattle.packet_capture.specs.declared.link.IpVersion.TheVariants.{V4};
ghost use Rattle.packet_capture.specs.Fields.{u16_in};
ghost use Rattle.packet_capture.specs.Datagrams.{HasPacket};
ghost use Rattle.packet_capture.specs.FrameFaults.{HasLinkFault};
ghost use Rattle.packet_capture.specs.Links.{number_of, is_tag, by_ether_type, by_family, by_first_byte, by_header, tagged, version_in, packet_in};

use crate::fault::FrameFault;
use crate::fields::{ByteOrder, read_u16, read_u32};
use crate::packet::PLAIN_HEADERS;

/// The link type of a frame: what is before its IP packet.
#[derive(Clone, Copy, Debug, PartialEq, Eq, Hash)]
pub enum LinkType {
    /// Number 0, of a loopback interface: the address family in four bytes, in the byte order of
    /// the machine.
    Null,
    /// Number 1: two addresses, any number of VLAN tags, and the EtherType.
    Ethernet,
    /// Number 101: an IP packet of either version.
    Raw,
    /// Number 108: the address family in four bytes, the highest first.
    Loop,
    /// Number 113: 14 bytes, any number of VLAN tags, and the EtherType.
    LinuxCooked,
    /// Number 228: an IPv4 packet.
    Ipv4,
    /// Number 229: an IPv6 packet.
    Ipv6,
    /// Number 276: 20 bytes, of which the first two are the EtherType. Where that is a VLAN tag's,
    /// tags follow, of which each ends with the EtherType of what follows it.
    LinuxCooked2,
}

/// The version of an IP packet.
#[derive(Clone, Copy, Debug, PartialEq, Eq, Hash)]
pub enum IpVersion {
    V4,
    V6,
}

/// The header of a frame up to its content.
#[derive(Clone, Copy, Debug, PartialEq, Eq)]
struct TypedHeader {
    /// The offset of the EtherType of the content.
    type_at: usize,
    /// Its number of bytes.
    len: usize,
}

/// The header of an Ethernet frame without tags.
const ETHERNET: TypedHeader = TypedHeader {
    type_at: 12,
    len: 14,
};

/// Linux's cooked header without tags.
const COOKED: TypedHeader = TypedHeader {
    type_at: 14,
    len: 16,
};

/// The second version of Linux's cooked header, without tags.
const COOKED_2: TypedHeader = TypedHeader {
    type_at: 0,
    len: 20,
};

impl LinkType {
    /// Returns the link type of this number, or `None` where it isn't one that is read.
    #[inline(always)]
    pub fn from_number(number: u16) -> Option<LinkType>
        ensures found { IfSome result (λ link. number ≡ number_of link) }
        ensures other { IfNone result ((link : LinkType) → number ≡ number_of link → ⊥) }
    {
        match number {
            0 => Some(LinkType::Null),
            1 => Some(LinkType::Ethernet),
            101 => Some(LinkType::Raw),
            108 => Some(LinkType::Loop),
            113 => Some(LinkType::LinuxCooked),
            228 => Some(LinkType::Ipv4),
            229 => Some(LinkType::Ipv6),
            276 => Some(LinkType::LinuxCooked2),
            _ => None,
        }
    }
}

#[inline(always)]
fn is_tag(ether_type: u16) -> bool
    ensures { result ≡ is_tag ether_type }
{
    ether_type == 0x8100 || ether_type == 0x88a8 || ether_type == 0x9100
}

#[inline(always)]
fn by_ether_type(ether_type: u16) -> Option<IpVersion>
    ensures { result ≡ by_ether_type ether_type }
{
    match ether_type {
        0x0800 => Some(IpVersion::V4),
        0x86dd => Some(IpVersion::V6),
        _ => None,
    }
}

#[inline(always)]
fn by_family(family: u32) -> Option<IpVersion>
    ensures { result ≡ by_family family }
{
    match family {
        2 => Some(IpVersion::V4),
        24 | 28 | 30 => Some(IpVersion::V6),
        _ => None,
    }
}

#[inline(always)]
fn by_first_byte(byte: u8) -> Option<IpVersion>
    ensures { result ≡ by_first_byte byte }
{
    match byte / 16 {
        4 => Some(IpVersion::V4),
        6 => Some(IpVersion::V6),
        _ => None,
    }
}

/// The header with its VLAN tags, or `None` where the frame ends before its content.
fn tagged(bare: TypedHeader, frame: &[u8]) -> Option<TypedHeader>
    requires some { 0 < bare.len }
    requires within { bare.type_at + 2 ≤ bare.len }
    ensures found { IfSome result (λ h. h ≡ tagged bare frame.now) }
    ensures typed { IfSome result (λ h. h.type_at + 2 ≤ h.len) }
    ensures whole { IfSome result (λ h. h.len ≤ length frame.now) }
    ensures cut { IfNone result (length frame.now < (tagged bare frame.now).len) }
{
    let mut header = bare;
    'tags: loop {
        if frame.len() < header.len {
            return None;
        }
        if !is_tag(read_u16(ByteOrder::Big, frame, header.type_at)) {
            return Some(header);
        }
        header = TypedHeader {
            type_at: header.len + 2,
            len: header.len + 4,
        };
    }
}

/// The version by a family that is read in either byte order.
#[inline(always)]
fn by_null_family(frame: &[u8]) -> Option<IpVersion>
    requires { 4 ≤ length frame.now }
    ensures { result ≡ version_in LinkType.Null frame.now }
{
    match by_family(read_u32(ByteOrder::Little, frame, 0)) {
        Some(version) => Some(version),
        None => by_family(read_u32(ByteOrder::Big, frame, 0)),
    }
}

/// The version that the first byte says, if there is one.
#[inline(always)]
fn by_start(frame: &[u8]) -> Option<IpVersion>
    ensures { result ≡ version_in LinkType.Raw frame.now }
{
    match frame {
        [first, ..] => by_first_byte(*first),
        [] => None,
    }
}

/// The packet after a header of this length, of this version, or `NotIp` where there is none.
#[inline(always)]
fn packet_after(
    len: usize,
    version: Option<IpVersion>,
    frame: &[u8],
) -> Result<(IpVersion, &[u8]), FrameFault>
    requires { len ≤ length frame.now }
    ensures found { IfOk result (λ r. version ≡ Some r.0) }
    ensures packet { IfOk result (λ r. r.1.now ≡ drop len frame.now) }
    ensures none { IfErr result (λ f. version ≡ None) }
    ensures fault { IfErr result (λ f. f ≡ NotIp) }
{
    match version {
        Some(version) => Ok((version, &frame[len..])),
        None => Err(FrameFault::NotIp),
    }
}

/// The packet after a header with its VLAN tags, or why there is none.
#[inline(always)]
fn read_tagged(bare: TypedHeader, frame: &[u8]) -> Result<(IpVersion, &[u8]), FrameFault>
    requires some { 0 < bare.len }
    requires within { bare.type_at + 2 ≤ bare.len }
    ensures there { IfOk result (λ r. (tagged bare frame.now).len ≤ length frame.now) }
    ensures version { IfOk result (λ r. by_header bare frame.now ≡ Some r.0) }
    ensures packet { IfOk result (λ r. r.1.now ≡ drop (tagged bare frame.now).len frame.now) }
    ensures fault { IfErr result (λ f.
        ((length frame.now < (tagged bare frame.now).len) × (f ≡ ShortFrame))
        ⊎ (((tagged bare frame.now).len ≤ length frame.now)
        × (by_header bare frame.now ≡ None) × (f ≡ NotIp))) }
{
    match tagged(bare, frame) {
        Some(header) => {
            let version = by_ether_type(read_u16(ByteOrder::Big, frame, header.type_at));
            packet_after(header.len, version, frame)
        }
        None => Err(FrameFault::ShortFrame),
    }
}

/// The number of bytes of an Ethernet frame without tags up to a UDP datagram's content, where no
/// option stands before it.
const PLAIN_FRAME: usize = ETHERNET.len + PLAIN_HEADERS;

/// Whether an Ethernet frame carries an IPv4 packet, with no tag before its EtherType, and has the
/// bytes of a UDP datagram's headers.
#[inline(always)]
fn is_plain(frame: &[u8]) -> bool
    ensures there { result ≡ true → 14 ≤ length frame.now }
    ensures kind { result ≡ true → u16_in Big frame.now 12 ≡ 2048 }
{
    frame.len() >= PLAIN_FRAME && read_u16(ByteOrder::Big, frame, 12) == 0x0800
}

/// Returns the packet of an Ethernet frame that carries IPv4 with no tag before its EtherType, if
/// it has the bytes of a UDP datagram's headers.
#[inline(always)]
pub(crate) fn plain_packet(link: LinkType, frame: &[u8]) -> Option<&[u8]>
    ensures found { IfSome result (λ _. HasPacket link frame.now V4) }
    ensures packet { IfSome result (λ r. r.now ≡ packet_in link frame.now) }
{
    match link {
        LinkType::Ethernet if is_plain(frame) => Some(&frame[14..]),
        _ => None,
    }
}

/// Returns the IP packet that a frame carries, with its version, or `ShortFrame` where the frame
/// ends before it, or `NotIp`.
pub(crate) fn read_link(link: LinkType, frame: &[u8]) -> Result<(IpVersion, &[u8]), FrameFault>
    ensures found { IfOk result (λ r. HasPacket link frame.now r.0) }
    ensures packet { IfOk result (λ r. r.1.now ≡ packet_in link frame.now) }
    ensures fault { IfErr result (HasLinkFault link frame.now) }
{
    match link {
        LinkType::Ethernet => read_tagged(ETHERNET, frame),
        LinkType::LinuxCooked => read_tagged(COOKED, frame),
        LinkType::LinuxCooked2 => read_tagged(COOKED_2, frame),
        LinkType::Null if frame.len() < 4 => Err(FrameFault::ShortFrame),
        LinkType::Null => packet_after(4, by_null_family(frame), frame),
        LinkType::Loop if frame.len() < 4 => Err(FrameFault::ShortFrame),
        LinkType::Loop => packet_after(4, by_family(read_u32(ByteOrder::Big, frame, 0)), frame),
        LinkType::Raw => packet_after(0, by_start(frame), frame),
        LinkType::Ipv4 => packet_after(0, Some(IpVersion::V4), frame),
        LinkType::Ipv6 => packet_after(0, Some(IpVersion::V6), frame),
    }
}
