//! The messages of venues: quotations of two versions, and halts of a symbol.
//!
//! A message is three things at most: its first byte names a form, the form has one length, and
//! each field is at a fixed offset. Every byte string has exactly one item, so reading never fails,
//! and no call takes memory.
//!
//! Contract: [`read_item`] returns `item_of` of the bytes, for every byte string, and what a writer
//! wrote is the item that it was given. Begin at `specs/Payload.antt`, which is the table of the
//! three forms; `specs/Written.antt` has the bytes as the writers spell them. Crates above cite
//! `item_of` and never look into it.
#![tactic(auto)]

mod form;
mod laws;
mod reading;
mod writing;

pub use laws::no_message_is_the_end;
pub use reading::{peek_symbol_bytes, read_item};
pub use writing::{fits_v1, write_halt, write_quote, write_quote2};
