//! Packet captures as they are written: a savefile (pcap) of UDP datagrams in IPv4 and Ethernet,
//! with times in nanoseconds. No call takes memory: heads are arrays of constant length, which a
//! caller writes before the bytes of each datagram.
//!
//! Contract: [`file_header`] returns exactly the header of the file, and [`frame_head`] exactly
//! what stands before the bytes of a datagram, to that address and port at that time, with the
//! lengths and checksums of its packet (`specs/Frames.antt`, over the definitions of what is
//! written that `packet_capture` has). The law [`captures_read_back`] says that the file is a
//! capture of these frames at these times, and that each frame carries its datagram; and
//! [`checksums_hold`] that each checksum is the one that a receiver expects.
//!
//! Begin at [`frame_head`].
#![tactic(auto)]

mod checksum;
mod destination;
mod fields;
mod frame;
mod header;
mod laws;
mod time;

pub use destination::Destination;
pub use frame::{FRAME_HEAD, MOST_BYTES, frame_head};
pub use header::file_header;
pub use laws::{captures_read_back, checksums_hold};
pub use time::CaptureTime;
