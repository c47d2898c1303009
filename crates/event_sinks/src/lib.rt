//! The events of a replay, the sinks that take them, and the rows of one.
//!
//! A sink is given each event at the time of its record ([`EventSink`], `specs/SinkEvents.antt`).
//! What a sink prints waits in a [`TextPage`] (`specs/TextPages.antt`). [`TextSink`] writes the
//! line of each event (`specs/EventLines.antt`).
//!
//! A replay ends as [`Replayed`] says. The gaps of its venues then are a list of [`VenueGap`],
//! which [`write_venue_gaps`] writes on standard error (`specs/VenueGapTexts.antt`).
//!
//! Begin with `event.rt` and `event_sink.rt`; `lines.rt` has the lines.
#![tactic(auto)]

mod event;
mod event_sink;
mod lines;
mod replay_stop;
mod text_page;
mod text_sink;
mod venue_gap;
mod venue_gap_texts;

pub use event::ReplayedEvent;
pub use event_sink::{EventSink, SinkStop};
pub use lines::{put_change, put_venue};
pub use replay_stop::{ReplayStop, Replayed};
pub use text_page::TextPage;
pub use text_sink::TextSink;
pub use venue_gap::VenueGap;
pub use venue_gap_texts::{write_missing, write_venue_gaps};
