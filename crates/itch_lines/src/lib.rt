//! Live lines of venues that send TotalView-ITCH 5.0.
//!
//! An [`ItchLine`] wraps the source of a line's datagrams. Each datagram goes to the venue's
//! normaliser, under a lock that all lines of the venue share ([`VenueShare`]), and the line brings
//! the packets of this project's own messages that carry what is put out then. The lines of a venue
//! bring what was made in the order in which it was made, one datagram at a time: so the feed's
//! arbiter is never given one before its turn. A line asks for what is missing by itself, and
//! gives up gaps by its rules ([`ItchRules`]); what a venue has come to, [`ItchVenueEnd`] has. A
//! [`FeedLine`] is the line of a venue of either kind.
//!
//! Contract: whenever the lock is free there are packets and skips that the normaliser was given
//! (`HasBeenGiven`), and each section under it brings what they make of the session more, each item
//! once, in order, with its number (`MakesOfDatagram`, `BringsSkip`). A line has brought exactly
//! what sections that the lock may see have made of its source's datagrams, in order, but for what
//! waits (`HandsOnMade`).
//!
//! Begin at `specs/Sections.antt`, then `specs/Lines.antt`; `itch_cell.rt` has the sections,
//! `itch_line.rt` a line.
#![tactic(auto)]

mod feed_line;
mod itch_cell;
mod itch_line;
mod itch_rules;
mod itch_status;
mod itch_venue;
mod source_end;
mod status_source;
mod venue_end;
mod venue_share;

pub use feed_line::FeedLine;
pub use itch_line::ItchLine;
pub use itch_rules::ItchRules;
pub use itch_status::ItchStatus;
pub use source_end::SourceEnd;
pub use status_source::StatusSource;
pub use venue_end::{GivenUp, ItchVenueEnd, given_up_messages};
pub use venue_share::VenueShare;
