//! How many messages of each type of TotalView-ITCH 5.0 came on each line of each venue.
//!
//! A [`TypeSurvey`] is a format of captures over another one. It has no records: the messages of
//! each datagram that the other one reads, of whichever session, it only counts, by venue, line and
//! type. A type is a form of the standard, a letter and a length, by the table of `message_forms`;
//! all else is of the type `other`.
//!
//! Contract: each count has gone up by the number of messages of its type in the datagrams that
//! were read in the span (`specs/TypeCounts.antt`, `specs/TypeSurveys.antt`), and
//! [`TypeSurvey::text`] is exactly the rows of the counts that aren't 0 (`specs/TypeTexts.antt`).
//!
//! `specs/LineMessages.antt` says which messages a capture's records bring, by venue and line; the
//! crates above use it, too.
//!
//! Begin at `survey.rt`, then `counts.rt`.
#![tactic(auto)]

mod counts;
mod rows;
mod survey;
mod types;

pub use counts::TypeCounts;
pub use survey::TypeSurvey;
