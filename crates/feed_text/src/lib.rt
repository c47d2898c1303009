//! From the records of a capture to the events that a replay tells a sink.
//!
//! A format reads the records of a capture (`capture_records`). They emit events
//! (`specs/Emitted.antt`), by the arbiter's definitions over everything that came to the record's
//! venue before. The events make a journal (`specs/ReplayEvents.antt`): each item that is taken is
//! an entry, and each declaration that changes something.
//!
//! A sink (`event_sinks`) is told each event at the time of its record, after it the national bests
//! that its entry changes, and at the end a last event of each venue (`specs/Told.antt`).
//!
//! The contract is that of [`replay::replay_events`], for any format and sink: where it answers Ok,
//! what was read is a whole capture that has room in the journal, and the sink took what is told of
//! it and nothing else. Each fault comes only when its cause did. JournalFull says exactly where
//! the journal was full: the sink took what is told up to there. After the other faults it took
//! what the records read tell, or failed within that (`specs/EventReplays.antt`).
//! [`replay::replay`] is the same from the own format to text (`specs/Replays.antt`).
//!
//! `laws.rt` says that one list of events is told of a capture.
//!
//! Begin with `replay.rt`, then `specs/EventReplays.antt` and `specs/Told.antt`; `venue.rt` has a
//! venue, `replay_sink.rt` the journal and the sink of all venues.
#![tactic(auto)]

mod fault;
mod joining;
mod laws;
mod overdue;
mod put_in;
mod renewing;
pub mod replay;
mod replay_sink;
mod run;
mod skipping;
mod standing_gap;
mod standing_gaps;
mod venue;
mod venues;

pub use fault::ReplayFault;
pub use laws::{every_capture_tells, items_are_the_streams, one_telling, what_is_put_in_is_made};
pub use standing_gap::StandingGap;
