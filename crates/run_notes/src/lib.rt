//! What standard error has at the end of a run of any command: which symbols never came, or never
//! had a best ([`AbsentList`], [`write_absent`]), which messages are missing
//! ([`write_named_gaps`]), what venues in ITCH gave up and why their books failed
//! ([`write_unquoted`], [`write_book_fault`]), and the names of sessions and venues
//! ([`write_session_name`], [`write_venue_name`]).
//!
//! Contract: the symbols that are left are those of which no item came, or no change of the
//! national best (`specs/AbsentSymbols.antt`); what is said of them, of messages that are missing
//! (`specs/NamedGaps.antt`), of venues in ITCH (`specs/ItchNotes.antt`), and of a session's name is
//! exactly a text of them (`specs/SessionNames.antt`).
//!
//! Begin with `absent_symbols.rt`.
#![tactic(auto)]

mod absent_list;
mod absent_report;
mod absent_symbols;
mod itch_notes;
mod named_gaps;
mod session_name;
mod venue_name;

pub use absent_list::AbsentList;
pub use absent_report::write_absent;
pub use absent_symbols::AbsentSymbols;
pub use itch_notes::{write_book_fault, write_unquoted};
pub use named_gaps::{write_named_gaps, write_named_venue};
pub use session_name::write_session_name;
pub use venue_name::write_venue_name;
