//! How the threads of a live feed wake each other, and the times of what they hand on.
//!
//! [`Wakeups`] has where each thread sleeps that finds nothing to do, who waits for room in a
//! subscriber's lane, and whether runs are to end. [`FeedTimes`] has the times of the datagrams
//! that brought the items, beside the items, in slots that are known by a number.
//!
//! Contract: none, but that every call returns and takes no place or slot past the last. Who is
//! woken, and which time a change has, tests show.
//!
//! Begin with `wakeups.rt`.
#![tactic(auto)]

mod times;
mod wakeups;

pub use times::{FeedTimes, NotedTimes};
pub use wakeups::Wakeups;
