//! The venues of a live feed: what a venue's lock guards, the sections under that lock, and what
//! its lines show.
//!
//! A venue's lock guards the venue's arbiter, the sending end of its lane and the counts of its
//! lines, a [`VenueCell`], and which seats were handed out ([`LockedVenue`]). A line has a
//! [`LineSeat`], which counts what it brought, too ([`LineCounts`]), and a [`LineSource`], which
//! brings it. [`VenueLocks`] are the venues of a feed; each of their calls takes one lock.
//!
//! Contract: whenever a lock is free, what it guards is a part of a world of the event machine
//! (`feed_core`), and each section under it is one of the machine's events, or several
//! (`specs/Sections.antt`). Begin at `specs/Cells.antt`, and at `cell.rt` for the code.
#![tactic(auto)]

mod accepted_packet;
mod calls;
mod cell;
mod counted_line;
mod counted_lines;
mod datagram;
mod faults;
mod joining;
mod laws;
mod line_counts;
mod locked_venue;
mod locks;
mod looked;
mod next_sessions;
mod seat;
mod source;
mod start;
mod starting;
mod status;
mod timing;
mod venue_reading;

pub use cell::VenueCell;
pub use counted_lines::CountedLines;
pub use datagram::Datagram;
pub use faults::{FeedFault, GapFault, RenewalFault, TakeFault};
pub use laws::{
    packets_of_the_sessions_are_accepted, sent_items_are_the_sessions,
    sent_items_are_the_sessions_parts, sent_items_skip_nothing,
};
pub use line_counts::LineCounts;
pub use locked_venue::LockedVenue;
pub use locks::{VenueLock, VenueLocks};
pub use looked::Looked;
pub use next_sessions::NextSessions;
pub use seat::LineSeat;
pub use source::{LineSource, SourceFault};
pub use start::VenueStart;
pub use starting::new_starts;
pub use status::VenueStatus;
