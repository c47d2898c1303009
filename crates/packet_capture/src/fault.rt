//! The faults of captures, and of frames.
ghost use Rattle.std.specs.Prelude.{◌≡◌};
ghost use Rattle.packet_capture.specs.Faults.{capture_code};
ghost use Rattle.packet_capture.specs.FrameFaults.{frame_code};

use thiserror::Error;

/// Why bytes are no packet capture, or none that is read.
#[derive(Clone, Copy, Debug, PartialEq, Eq, Hash, Error)]
pub enum CaptureFault {
    /// The first four bytes begin no savefile and no section.
    #[error("not a packet capture")]
    NotCapture = 40,
    /// A savefile's version isn't 2.4, or a section's is neither 1.0 nor 1.2.
    #[error("the capture's version is not known")]
    UnknownVersion = 41,
    /// A frame or a block of more than 1,048,576 bytes.
    #[error("a frame or a block is longer than 1048576 bytes")]
    TooLong = 42,
    /// A section whose header doesn't show its byte order.
    #[error("a section has no byte-order magic")]
    BadByteOrder = 43,
    /// A block's length is below 12 or not a multiple of 4.
    #[error("a block's length is bad")]
    BadBlockLength = 44,
    /// The length at the end of a block differs from the one at its front.
    #[error("a block's two lengths differ")]
    LengthsDiffer = 45,
    /// A block is shorter than its fields.
    #[error("a block is too short for its fields")]
    ShortBlock = 46,
    /// A packet of an interface that the section hasn't described.
    #[error("a packet's interface is not known")]
    UnknownInterface = 47,
    /// A frame is longer than its block.
    #[error("a frame runs past its block")]
    FramePastBlock = 48,
    /// An option of an interface runs past its block.
    #[error("an option runs past its block")]
    OptionPastBlock = 49,
    /// A section has more than 256 interfaces.
    #[error("a section has more than 256 interfaces")]
    TooManyInterfaces = 50,
}

impl CaptureFault {
    /// The code of the fault: 40 to 50.
    pub fn code(self) -> u8
        ensures { result ≡ capture_code self }
    {
        self as u8
    }
}

/// Why a frame carries no UDP datagram, or none that is read.
#[derive(Clone, Copy, Debug, PartialEq, Eq, Hash, Error)]
pub enum FrameFault {
    /// The link type isn't one of [`LinkType`](crate::LinkType).
    #[error("the link type is not known")]
    UnknownLink = 52,
    /// The frame carries no IP packet.
    #[error("no IP packet")]
    NotIp = 53,
    /// The frame ends before its packet does.
    #[error("the frame is cut")]
    ShortFrame = 54,
    /// An IP header whose version or lengths are wrong.
    #[error("the IP header is bad")]
    BadIpHeader = 55,
    /// The packet is of another protocol.
    #[error("no UDP datagram")]
    NotUdp = 56,
    /// The packet is a fragment of a datagram.
    #[error("a fragment")]
    Fragment = 57,
    /// The packet has an extension header of IPv6.
    #[error("an extension header")]
    ExtensionHeader = 58,
    /// The datagram's length is below 8 or more than is there.
    #[error("the UDP length is bad")]
    BadUdpLength = 59,
}

impl FrameFault {
    /// The code of the fault: 52 to 59.
    pub fn code(self) -> u8
        ensures { result ≡ frame_code self }
    {
        self as u8
    }
}
