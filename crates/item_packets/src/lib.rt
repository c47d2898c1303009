//! Items of a session, in a row, as the packets that carry them.
//!
//! Contract: a [`PackingRoom`] packs what a venue's normaliser puts out into datagrams of the
//! session, each item once, in order, with its number, and the end last (`Carry`, `ArePacked`). The
//! law [`packets_carry_on`] says that what calls pack one after another carries what they were
//! given, one after the other.
//!
//! Begin at `specs/Carried.antt`; `item_row.rt` has the parts of a row, `item_packet.rt` the packet
//! of its first items, `packing.rt` all of them.
#![tactic(auto)]

mod item_packet;
mod item_row;
mod laws;
mod packing;

pub use item_packet::{WrittenItems, write_items};
pub use item_row::{end_number, first_number, messages_before_end};
pub use laws::packets_carry_on;
pub use packing::PackingRoom;
