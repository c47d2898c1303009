//! Lines of a live feed that are received by UDP.
//!
//! A [`UdpLine`] is a source of `venue_lines`: it brings the datagrams that its socket receives of
//! its senders, and sends requests. How far it is it marks in its [`LineProgress`], at which
//! another thread may look; what a venue's lines know of one another is in its [`VenueMarks`].
//!
//! Contract: a line brings exactly what its socket brings, but for datagrams of other senders and
//! those whose numbers or ends aren't plausible, which are counted, one that is held still among
//! them; up to an end of session that by
//! its rule ends it, to its count of datagrams, or to a fault (`specs/UdpLines.antt`,
//! `specs/Brought.antt`, `specs/Plausible.antt`). What a socket brings, what another line's numbers
//! do, and that a line's time ends it, tests show.
//!
//! A datagram is plausible if the number of the last message that it announces is at most
//! `most_ahead` past the highest one that any of its venue's lines has brought, or if it is the
//! third in a row of its line that isn't and these agree: none is below the one before it, or more
//! than `most_ahead` past it. Before any line of the venue has brought a number the first one that
//! isn't is held, and comes with the second that agrees, so that a session is joined far on without
//! a loss. So one wrong number does nothing; three in a row that agree are believed, and at the
//! start two. An end of the line's session is handed on once another line has brought it, or this
//! one three times in a row. Where no end ends a line, none is handed on.
//!
//! Begin with `udp_line.rt`, then `intake.rt`, `number_check.rt` and `datagram_in.rt`.
#![tactic(auto)]

mod datagram_in;
mod intake;
mod line_ends;
mod line_progress;
mod line_socket;
mod line_use;
mod number_check;
mod requests;
mod session_mark;
mod udp_line;
mod venue_marks;

pub use datagram_in::{DatagramIn, ReceiveStop};
pub use line_progress::LineProgress;
pub use line_use::LineUse;
pub use requests::Requests;
pub use udp_line::{UdpLine, UdpLineSettings, millis};
pub use venue_marks::VenueMarks;
