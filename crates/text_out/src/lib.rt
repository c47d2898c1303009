//! Devices that are read from and written to, and a text that waits to be written.
//!
//! A program reads and writes through two traits, [`CaptureIn`] and [`TextOut`], whose laws say
//! what a call does (`specs/Devices.antt`). `memory.rt` has devices over memory, `system.rt` over
//! the standard streams. [`write_all`] writes a whole text, and [`write_stderr`] writes one on
//! standard error (`specs/StandardError.antt`).
//!
//! A [`LineBuffer`] is a text that grows by lines. Its parts are appended ([`put_bytes`] and the
//! others of `parts.rt`, `specs/Pages.antt`), or placed in the room after the text, where a whole
//! line has room (`fields.rt`, `specs/Placing.antt`).
//!
//! Reports and pages, which are written once, are a `Vec` that grows by [`TextPart`]s, labels and
//! numbers ([`put_parts`], `specs/TextParts.antt`). Rows of a replay are put by `parts.rt`, which
//! stores into room that was made for a whole row: the special way for speed.
//!
//! Begin with `devices.rt`, then `page.rt`.
#![tactic(auto)]

mod count;
mod devices;
mod digit_tables;
mod fields;
mod memory;
mod output;
mod page;
mod parts;
mod standard_error;
mod system;
mod text_parts;

pub use count::Count;
pub use devices::{CaptureIn, ReadStop, TextOut, WriteStop};
pub use fields::{
    place, place_field, place_name, place_number, place_price, place_short_field, place_venue,
    place_word,
};
pub use memory::{MemoryIn, MemoryOut};
pub use output::write_all;
pub use page::LineBuffer;
pub use parts::{put_bytes, put_name, put_number, put_price};
pub use standard_error::{write_number, write_stderr};
pub use system::{StreamIn, StreamOut};
pub use text_parts::{
    LabelledNumber, NumberStyle, TextPart, put_digits, put_filled, put_labelled, put_parts, spaces,
};
