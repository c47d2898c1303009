//! The reference machine that a feed is proved against, and the headline: what a whole feed does,
//! as one list of events.
//!
//! [`run`] takes a list of events (packets that come on lines, items that are pushed and consumed,
//! notices that are offered and dequeued, ..) and returns their outcomes and what the feed then
//! holds as a [`World`]. It has no threads: a running feed does the same events, each in one
//! section under one lock or as one step of a queue.
//!
//! Contract: what is shown is that of the one run over the events (`specs/Runs.antt`), and the
//! headline holds of it (`specs/Headline.antt`, law [`headline`]). Begin at `specs/Worlds.antt`,
//! `specs/OneStep.antt` for what an event does (its steps are those of `feed_steps`), and at
//! `running.rt` for the code.
#![tactic(auto)]

mod journaling;
mod lane;
mod laws;
mod machine;
mod offering;
mod running;
mod venue;
mod world;

pub use feed_steps::{Done, Event};
pub use journal_book::{ConfigFault, CoreFault};
pub use laws::{
    a_notice_is_dequeued, every_list_of_events_has_a_run, headline, items_come_once,
    items_without_skips, no_refused_skip_stands, one_run, skips_are_events,
};
pub use running::run;
pub use world::World;
