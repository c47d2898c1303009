//! The messages of TotalView-ITCH 5.0, as far as they say something of a venue's displayed orders.
//!
//! A message is three things at most: its first byte names a form, the form has one length, and
//! each field is at a fixed offset. Every byte string has exactly one event, so reading never
//! fails, and no call takes memory. The forms that say nothing of orders, and all else, are
//! [`OrderEvent::Other`].
//!
//! Contract: [`read_event`] returns `order_event_of` of the bytes, for every byte string, and what
//! a writer wrote is the event that it was given. Begin at `specs/Events.antt`, which is the table
//! of the forms; crates above cite `order_event_of` and never look into it.
#![tactic(auto)]

mod event;
mod form;
mod laws;
mod reading;
mod writing;

pub use event::{HaltKind, NewOrder, OrderEvent, Replacement};
pub use laws::{no_form_is_a_quotation, silent_forms_say_nothing};
pub use reading::read_event;
pub use writing::{
    write_add, write_attributed_add, write_cancel, write_delete, write_directory, write_executed,
    write_executed_at, write_operational_halt, write_replace, write_trading_action,
};
