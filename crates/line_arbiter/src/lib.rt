//! Puts the messages of one venue's redundant lines in sequence, each once.
//!
//! An [`Arbiter`] is given the packets of lines A, B and Recovery in the order in which they came.
//! It holds what is past the last item sent in a window of fixed size, and returns the items in
//! sequence: messages up to the first gap, and End where it follows. A [`Pacer`] says when to ask
//! for what is missing.
//!
//! The calls of an arbiter, in groups:
//!
//! - take a packet: `take`;
//! - take a packet that needs no place in the window: `is_next` and `take_next`;
//! - take items out: `take_ready`, or `next_ready` and `advance`;
//! - read the cursors, and what to ask for: `status`, `gap`, `wins` and `all_wins`;
//! - read the session, and begin the next one: `venue`, `session`, `ordinal` and `renew`;
//! - give up what is missing: `skip_to`.
//!
//! Contract: for every list of packets that the arbiter was given in the present session, its
//! answers, cursors and items are those that `specs/Outcomes.antt` and `specs/Streams.antt` define
//! over that list. Begin at `arbiter.rt`, then `in_order.rt`; `laws.rt` says what follows for a
//! session's messages. `specs/Lib.antt` separates what a reader of the contracts has to know from
//! what private clauses alone cite.
#![tactic(auto)]

mod arbiter;
mod faults;
mod in_order;
mod intake;
mod laws;
mod marks;
mod outcome;
mod pacer;
mod taking;
mod window;
mod wins;

pub use arbiter::{Arbiter, ArbiterStatus};
pub use faults::{ArbiterFault, RenewFault, SkipFault};
pub use laws::{
    a_genuine_stream_is_the_session, a_renewal_comes_when_all_is_sent, a_session_is_its_messages,
    a_session_without_skips_is_one_part, a_stream_only_grows, answered_skips_could_be_made,
    answers_go_on, every_packet_has_an_answer, every_renewal_has_an_answer,
    every_skip_has_an_answer, items_sent_are_counted, known_is_the_greatest_heard_of,
    no_genuine_packet_is_refused, one_outcome, one_renewal, one_skip,
    packets_of_sessions_are_genuine, streams_are_in_sequence, the_front_is_the_first_gap,
    the_gap_is_what_is_missing, the_stream_is_the_session, what_is_taken_stays_genuine,
};
pub use outcome::{LineFault, Outcome};
pub use pacer::Pacer;
