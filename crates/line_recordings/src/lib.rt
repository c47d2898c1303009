//! Recordings of what live lines brought.
//!
//! A line's thread hands each datagram that its venue took to a [`RecordSender`], with its place in
//! the venue's order; so does who skips messages. One thread takes them from the other end, puts
//! those of a venue into that order, and writes them as records of the own format, which a replay
//! reads. No end waits for the other: what finds no room is counted as lost.
//!
//! Contract: what comes of a venue is put on a page, each as one record past the places that were
//! put of the venue before, or counted as left out (`specs/Recordings.antt`); what a sender takes
//! is what it was given, or is counted (`specs/Placed.antt`). How soon it is written, tests show.
//!
//! Begin with `record_sender.rt`, then `venue_records.rt` and `recording.rt`.
#![tactic(auto)]

mod placed;
mod record_kind;
mod record_sender;
mod record_source;
mod recording;
mod recording_state;
mod recording_thread;
mod skip_records;
mod venue_records;

pub use placed::Placed;
pub use record_kind::RecordKind;
pub use record_sender::{RecordSender, hand_over, recorder_pair};
pub use record_source::RecordSource;
pub use recording::Recording;
pub use recording_state::RecordingState;
pub use recording_thread::write_recording;
pub use skip_records::SkipRecords;
pub use venue_records::{Taken, VenueRecords};
