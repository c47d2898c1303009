//! MoldUDP64 packets and requests, read from datagrams and written into buffers. No call takes
//! memory: a packet that was read borrows its messages from the datagram.
//!
//! One relation, `Spells` of `specs/Content.antt`, states which bytes encode a packet, and both
//! directions keep it. [`read_packet`] returns exactly the packet that the bytes spell, or exactly
//! the first fault that fits, for any bytes. [`write_packet`] leaves a spelling in the first bytes
//! of a buffer, and nothing where it doesn't fit; [`write_header`] and [`write_block`] leave a part
//! of one. By the law [`one_reading`] there is no other answer, and by [`reads_back`] what was
//! written reads back. `SpellsRequest` of `specs/Request.antt` states the same of requests, both
//! ways.
//!
//! Begin at [`read_packet`], which has the layout, and then [`Packet`], its readers. The standard
//! is Nasdaq's MoldUDP64 Protocol Specification 1.00.
#![tactic(auto)]

mod blocks;
mod body;
mod fault;
mod header;
mod laws;
mod packet;
mod reading;
mod request;
mod writing;

pub use blocks::Messages;
pub use body::Body;
pub use fault::PacketFault;
pub use header::{END_COUNT, HEADER_LEN, write_header};
pub use laws::{bytes_read_or_have_a_fault, one_reading, one_request, reads_back};
pub use packet::{Kind, Packet};
pub use reading::read_packet;
pub use request::{Request, read_request, write_request};
pub use writing::{write_block, write_packet};
