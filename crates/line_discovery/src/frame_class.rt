//! The fate of a frame in a survey.
ghost use Rattle.packet_capture.specs.Datagrams.{datagram_content};
ghost use Rattle.packet_capture.specs.Frames.{frame_of};
ghost use Rattle.line_discovery.specs.Sightings.{HasFate, IsShown};

use crate::endpoint_packet::{EndpointPacket, is_printable_name, other_sighting, packet_sighting};
use mold_packet::read_packet;
use packet_capture::{Frame, FrameFault, UdpDatagram, read_datagram};

/// The fate of a frame in a survey.
#[derive(Clone, Copy, Debug, PartialEq, Eq)]
pub enum FrameClass {
    /// It carries a packet of a session whose name is printable.
    Packet(EndpointPacket),
    /// It carries another datagram.
    Other(EndpointPacket),
    /// It carries no UDP datagram, which is this fault.
    NoDatagram(FrameFault),
}

/// What a datagram shows that came at this time.
fn shown(datagram: &UdpDatagram<'_>, time: Option<u64>) -> FrameClass
    ensures { IsShown (datagram_content datagram.now) time result }
{
    match read_packet(datagram.bytes) {
        Ok(packet) if is_printable_name(&packet.session()) => {
            FrameClass::Packet(packet_sighting(datagram, time, &packet))
        }
        _ => FrameClass::Other(other_sighting(datagram, time)),
    }
}

/// Returns the fate of a frame.
pub(crate) fn fate_of(frame: &Frame<'_>) -> FrameClass
    ensures { HasFate (frame_of frame.now) result }
{
    match read_datagram(frame.link, frame.bytes) {
        Ok(datagram) => shown(&datagram, frame.time),
        Err(fault) => FrameClass::NoDatagram(fault),
    }
}
