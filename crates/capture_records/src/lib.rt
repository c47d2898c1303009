//! From the bytes of a capture to its records.
//!
//! A capture is a list of records, one after the other: a datagram as it came on a line of a venue,
//! the name of a venue's next session, a number below which what a venue lacks is given up, or a
//! declaration of self-help. A format reads them ([`RecordFormat`], `specs/Formats.antt`): the
//! project's own is [`OwnFormat`] (`specs/Capture.antt`), and other crates have others.
//!
//! The contract is that of [`parse_record`]: exactly the record that begins the bytes, how many
//! bytes are wanted for one, or that none begins them. [`one_reading`] says that a capture has one
//! reading.
//!
//! Begin with `capture.rt`, then `record_format.rt`; `read_buffer.rt` has the bytes that were read.
#![tactic(auto)]

mod capture;
mod laws;
mod own_format;
mod read_buffer;
mod record_format;

pub use capture::{Parse, Record, parse_record};
pub use laws::one_reading;
pub use own_format::OwnFormat;
pub use read_buffer::{ReadBuffer, ReadStep};
pub use record_format::{CAPTURE_ROOM, RecordFormat, Step, is_complete};
