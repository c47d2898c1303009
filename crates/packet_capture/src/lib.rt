//! Packet captures, as tcpdump, dumpcap and capture cards write them: savefiles (pcap) and pcapng
//! files, and the UDP datagrams in their frames. No call takes memory: a frame borrows its bytes
//! from the capture's, and a datagram from its frame's.
//!
//! [`CaptureReader::next_piece`] reads a capture piece by piece, whatever bytes come: exactly the
//! header, packet record or block at the front, the frame in it, and what it says of frames that
//! were dropped, or exactly why none is read (`specs/Captures.antt`, `specs/DropReports.antt`).
//! [`read_datagram`] returns exactly the datagram that a frame carries, or
//! its first fault (`specs/Datagrams.antt`, `specs/FrameFaults.antt`). Both definitions follow the
//! offsets that the formats' documents give.
//!
//! The laws [`told_once`] and [`one_datagram`] say that either call has one right answer, and
//! [`one_reading`] that a capture has one list of frames. [`read_as_bytes_come`] says that more
//! bytes change nothing of a piece or a fault. [`savefiles_read_back`], [`sections_read_back`] and
//! [`frames_read_back`] tie the definitions to captures as they are written, which
//! `specs/Written.antt`, `specs/WrittenSections.antt` and `specs/WrittenFrames.antt` state apart.
//!
//! Begin at [`CaptureReader`] and [`read_datagram`], which name their sources.
#![tactic(auto)]

mod block;
mod content;
mod datagram;
mod drop_report;
mod fault;
mod fields;
mod frame;
mod interface;
mod laws;
mod link;
mod packet;
mod reader;
mod savefile;
mod stop;

pub use datagram::{Address, UdpDatagram, read_datagram, read_plain_datagram};
pub use drop_report::DropReport;
pub use fault::{CaptureFault, FrameFault};
pub use fields::ByteOrder;
pub use frame::Frame;
pub use laws::{
    frames_read_back, one_datagram, one_reading, read_as_bytes_come, savefiles_read_back,
    sections_read_back, told_once,
};
pub use link::{IpVersion, LinkType};
pub use reader::{CaptureReader, Piece};
pub use stop::NoPiece;
