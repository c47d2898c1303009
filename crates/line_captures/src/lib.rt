//! Packet captures (pcap or pcapng) as a format of records: those of the datagrams that a capture
//! has for some lines, each at the time of its frame.
//!
//! A [`PacketFormat`] is a format of `capture_records`: a replay reads its records one by one, and
//! nothing is copied or allocated. A [`CapturedLine`] is an address and port with the venue and the
//! line whose datagrams go there.
//!
//! Contract: what it read are whole pieces, and their records are those of their frames, in file
//! order, each frame's datagram for the first line that takes it, at the frame's own time, and
//! nothing else; each frame is counted once, by what became of it, which [`each_frame_is_counted`]
//! says, too; and so are frames that were dropped before, as the capture says itself
//! (`specs/PacketFormats.antt`, over `specs/Records.antt`, `specs/Lines.antt`, `specs/Counts.antt`
//! and `specs/DropCounts.antt`). A [`BadPiece`] says why no piece is read, and with which bytes
//! what stands there begins. [`convert`] writes the records of any format in the project's own
//! (`specs/Conversions.antt`).
//!
//! Begin at `packet_format.rt`.
#![tactic(auto)]

mod bad_piece;
mod captured_line;
mod conversion;
mod drop_counts;
mod frame_counts;
mod laws;
mod packet_format;
mod piece_step;
mod progress;

pub use bad_piece::{BadPiece, start_of};
pub use conversion::convert;
pub use drop_counts::{DropCounts, DroppedFrames};
pub use frame_counts::FrameCounts;
pub use laws::each_frame_is_counted;
pub use packet_format::PacketFormat;
pub use progress::Progress;
