//! A bounded queue from one thread to another that remembers what went through it.
//!
//! A lane has two ends. Its [`Sender`] and its [`Receiver`] show, in statements alone, which lane
//! they are of, its tag and capacity, and the list of what was sent or received through them. A
//! [`LaneRule`] says which lists may be sent under a tag; the feed's two are [`VenueItems`] and
//! [`RisingNotices`].
//!
//! Contract: at every moment what was received, then what is inside, is what was sent (`Keeps` in
//! `specs/Lane.antt`). Begin at `sender.rt` and `receiver.rt`; `steps.rt` lists the eight kinds of
//! step that a lane is made of. At run time an end is a pointer to the queue and the tag.
//!
//! Calls that take a handle may spin while the other end is in the middle of its own call;
//! [`Receiver::try_pop`] takes none. A lane that has carried 2^62 items carries no more: its calls
//! wait for ever, and `try_pop` finds nothing.
#![tactic(auto)]

mod fault;
mod known;
mod laws;
mod making;
mod receiver;
mod rule;
mod rules;
mod sender;
mod settled;
mod steps;

pub use fault::LaneFault;
pub use laws::{notice_numbers_rise, venue_items_are_in_sequence, venue_numbers_count_up};
pub use making::lane;
pub use receiver::Receiver;
pub use rule::LaneRule;
pub use rules::{RisingNotices, VenueItems};
pub use sender::Sender;
pub use settled::{Settled, settle};
