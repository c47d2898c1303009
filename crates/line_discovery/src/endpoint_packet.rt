//! A datagram as it is counted.
ghost use Rattle.std.specs.Prelude.{◌≡◌, IsTrue, ◌↔◌, count_by};
ghost use Rattle.message_forms.specs.Payloads.{is_itch, is_own};
ghost use Rattle.packet_capture.specs.Datagrams.{datagram_content};
ghost use Rattle.line_discovery.specs.Sightings.{is_printable_name, line_key, numbers_of, other_sighting, packet_sighting, sighting_times};

use crate::line_key::LineKey;
use crate::span::Span;
use feed_types::SessionName;
use message_forms::{is_itch, is_own};
use mold_packet::Packet;
use packet_capture::UdpDatagram;

/// A datagram as it is counted.
#[derive(Clone, Copy, Debug, PartialEq, Eq)]
pub struct EndpointPacket {
    pub key: LineKey,
    /// How many messages it has, 0 where it is no packet.
    pub messages: u64,
    /// How many of these have one of the three forms of this project's own messages.
    pub own: u64,
    /// How many have one of the forms of TotalView-ITCH 5.0.
    pub itch: u64,
    /// How many bytes it has, without the UDP header.
    pub bytes: u64,
    /// The numbers of its first and its last message, or `None` where it has none.
    pub numbers: Option<Span>,
    /// The time of its frame, in nanoseconds from 1970 on, or `None` where that isn't known.
    pub times: Option<Span>,
}

/// Whether all bytes of a name are printable ASCII, as those of a session that can be named.
pub(crate) fn is_printable_name(name: &SessionName) -> bool
    ensures { result ≡ is_printable_name name.now }
{
    name.iter().all(|b| b' ' <= *b && *b <= b'~')
}

/// The numbers of the first and the last message of a packet.
fn numbers_of(packet: &Packet<'_>) -> Option<Span>
    ensures { result ≡ numbers_of packet.now }
{
    if packet.count() == 0 {
        return None;
    }
    Some(Span {
        low: packet.number(),
        high: packet.last_number(),
    })
}

/// A time as a span.
fn sighting_times(time: Option<u64>) -> Option<Span>
    ensures { result ≡ sighting_times time }
{
    match time {
        Some(time) => Some(Span {
            low: time,
            high: time,
        }),
        None => None,
    }
}

/// How many messages of a packet have a form of this project's.
fn own_in(packet: &Packet<'_>) -> u64
    ensures { result ≡ count_by is_own packet.now.messages }
{
    packet.messages().filter(|message| is_own(message)).count() as u64
}

/// How many have a form of the standard.
fn itch_in(packet: &Packet<'_>) -> u64
    ensures { result ≡ count_by is_itch packet.now.messages }
{
    packet.messages().filter(|message| is_itch(message)).count() as u64
}

/// A datagram that is a packet, and came at this time.
pub(crate) fn packet_sighting(
    datagram: &UdpDatagram<'_>,
    time: Option<u64>,
    packet: &Packet<'_>,
) -> EndpointPacket
    ensures { result ≡ packet_sighting (datagram_content datagram.now) time packet.now }
{
    EndpointPacket {
        key: LineKey {
            address: datagram.address,
            port: datagram.port,
            session: Some(packet.session()),
        },
        messages: u64::from(packet.count()),
        own: own_in(packet),
        itch: itch_in(packet),
        bytes: datagram.bytes.len() as u64,
        numbers: numbers_of(packet),
        times: sighting_times(time),
    }
}

/// A datagram that is no packet, and came at this time.
pub(crate) fn other_sighting(datagram: &UdpDatagram<'_>, time: Option<u64>) -> EndpointPacket
    ensures { result ≡ other_sighting (datagram_content datagram.now) time }
{
    EndpointPacket {
        key: LineKey {
            address: datagram.address,
            port: datagram.port,
            session: None,
        },
        messages: 0,
        own: 0,
        itch: 0,
        bytes: datagram.bytes.len() as u64,
        numbers: None,
        times: sighting_times(time),
    }
}
