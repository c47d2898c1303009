//! The consolidator of a live feed: what its lock guards, and the sections under that lock.
//!
//! The lock guards the journal, the receiving ends of the venues' lanes and the sending ends of the
//! subscribers', [`ConsolidatorState`]. The subscribers' filters stand beside it (`live_feed`) and
//! are lent to each call: this crate stores no closure.
//!
//! Contract: whenever the lock is free, what it guards is a part of a world of the event machine
//! (`feed_core`), and each section under it is one of the machine's events, or several
//! (`specs/Sections.antt`, `specs/Batches.antt`, `specs/Offers.antt`, `specs/Turns.antt`). Begin at
//! `specs/Hubs.antt`, and at `journal_and_lanes.rt` for the code.
#![tactic(auto)]

mod calls;
mod hub_reading;
mod journal_and_lanes;
mod laws;
mod spare;
mod spares;
mod turn;

pub use calls::{Offered, consume_next, consume_some, offer_each, offer_some};
pub use hub_reading::national_in;
pub use journal_and_lanes::ConsolidatorState;
pub use laws::journaled_items_are_the_sessions;
pub use spare::SpareLane;
pub use spares::new_spares;
pub use turn::{Consolidated, take_turn};

// What a feed's own threads call, and no program.
#[doc(hidden)]
pub use turn::without_waiting;
