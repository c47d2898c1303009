//! One venue's lines in ITCH, as the items of this project's own messages.
//!
//! A [`VenueNormaliser`] is given the packets of a venue's lines. Its arbiter puts their messages
//! in sequence, each once; its book keeps the orders that they leave; and each message becomes one
//! item with its number: the quotation that it changed, a halt, or Other. [`MessageForm`] has the
//! bytes of an item. A gap that is given up ends what is put out of the session.
//!
//! A session that is joined in the middle misses its orders, unless a [`Snapshot`] brings them:
//! [`VenueNormaliser::resume`] begins with these, at the snapshot's number.
//!
//! Contract: for every list of packets and skips that the normaliser fits (`FitsOpened`), a call
//! puts out what they make (`PutsOutFrom`). Begin at `specs/Outputs.antt`, which has the item of
//! each message, then `specs/Brought.antt`, which has the messages by their numbers;
//! `specs/Snapshots.antt` has what a snapshot is.
#![tactic(auto)]

mod end_number;
mod fault;
mod laws;
mod message_form;
mod message_slot;
mod message_slots;
mod normaliser;
mod normaliser_settings;
mod opening;
mod putting_out;
mod resume_fault;
mod snapshot;
mod snapshot_fault;

pub use end_number::EndNumber;
pub use fault::NormaliserFault;
pub use laws::{
    bytes_are_one_snapshot, nothing_is_put_out_of_nothing, what_a_snapshot_shows_is_put_out,
    what_is_put_out_is_the_session,
};
pub use message_form::MessageForm;
pub use normaliser::VenueNormaliser;
pub use normaliser_settings::NormaliserSettings;
pub use resume_fault::ResumeFault;
pub use snapshot::{Snapshot, read_snapshot};
pub use snapshot_fault::SnapshotFault;
