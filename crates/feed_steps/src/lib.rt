//! The events of a feed and what each does, and the name of a feed, by which its lanes are known.
//!
//! The reference machine (`feed_core`) runs over these events; the two halves of a live feed
//! (`venue_lines`, `hub_lanes`) say by the same steps what is done in a section under a lock.
//!
//! Contract: an [`Event`] and its outcome [`Done`] are plain values; `specs/Steps.antt` says what
//! an event does on its part of the world, the part that in a running feed is under one lock or at
//! one end of a lane. A [`FeedName`] has no calls: its lanes and its setting are those of
//! `specs/Lanes.antt`. What the lines may carry is said in the words of `specs/Premises.antt`.
//! Begin at `specs/Steps.antt`.
#![tactic(auto)]

mod event;
mod feed_name;
mod unsent;

pub use event::{Done, Event};
pub use feed_name::FeedName;
pub use unsent::Unsent;
