//! Which payload messages are of, by their forms: TotalView-ITCH 5.0 or this project's own.
//!
//! A form is a type, the first byte, and a length, and the two payloads have none in common. So
//! what a session sends shows which one it is, whatever the fields say.
//!
//! Contract: [`is_own`], [`is_itch`] and [`itch_place`], the place of a message's form among the
//! standard's, are exact by the tables of `specs/Payloads.antt`. Messages
//! look like this project's own where one of them is of such a form, and else like ITCH where one
//! is of its forms (`look_with`); [`look_after`] is that of the messages of any datagram. The law
//! [`a_quotation_is_an_own_message`] says that what looks like ITCH quotes nothing.
//!
//! Begin at `payload.rt`.
#![tactic(auto)]

mod forms;
mod laws;
mod payload;

pub use forms::{is_itch, is_own, itch_place};
pub use laws::a_quotation_is_an_own_message;
pub use payload::{Payload, look_after, look_with};
