//! The journal: its entries, the numbered changes of the national best that they make, and a cursor
//! for each subscriber.
//!
//! A [`Consolidator`] keeps a [`Journal`] and the subscribers' filters. The journal alone holds no
//! closure: whoever keeps the filters elsewhere holds the two side by side. It stands on a
//! [`NumberedBook`], which has no subscribers and keeps no entry, for whoever writes what happens
//! elsewhere.
//!
//! Contract: the entries are what was recorded and declared, the changes are `changes_of` the
//! entries (`specs/Changes.antt`), a definition over the whole list, and a subscriber is offered
//! the changes that meet its terms, in order, from the first one of the journal on. Begin at
//! `journal.rt`.
#![tactic(auto)]

mod config_fault;
mod configured;
mod consolidator;
mod cursor;
mod fault;
mod item_counts;
mod journal;
mod laws;
mod notices;
mod numbered_book;
mod room;
mod search;
mod slowest;

pub use config_fault::{ConfigFault, CoreFault};
pub use configured::{new_journal, new_keeping_journal};
pub use consolidator::Consolidator;
pub use cursor::{Cursor, Unfinished};
pub use fault::JournalFault;
pub use journal::Journal;
pub use laws::{changes_grow_at_their_end, wanted_grow_at_their_end, wanted_numbers_rise};
pub use numbered_book::{EntryChanges, NumberedBook};
