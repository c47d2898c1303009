//! The vocabulary of the feed, which every other crate uses in the same words.
//!
//! Plain `Copy` values without memory: venues, lines and subscribers, symbols, quotations and the
//! items of a session, the national best and its notices, and the trait [`Genuine`], which says
//! what a venue's lines may carry. Each value keeps its range by its type, so no other crate tests
//! it again.
//!
//! Contract: what `new`, `from_index`, `from_field` and `from_text` accept is exactly what `specs/`
//! allows, and each reader returns it. Begin at `item.rt` for what flows, and at `genuine.rt` with
//! `specs/Sequence.antt` for the order in which it flows.
#![tactic(auto)]

mod config;
mod front;
mod genuine;
mod ids;
mod item;
mod journal;
mod laws;
mod limits;
mod line;
mod missing_range;
mod national;
mod past;
mod per_line;
mod price;
mod session_name;
mod symbol;

pub use config::FeedConfig;
pub use front::drop_front;
pub use genuine::{Anything, Genuine};
pub use ids::{SubscriberId, VenueId};
pub use item::{Item, Numbered, Quote};
pub use journal::{Entry, Notice};
pub use laws::{every_prefix_is_in_sequence, one_more_in_sequence, sequence_is_of_the_sessions};
pub use limits::{MAX_LANE, MAX_SESSIONS, MAX_SUBSCRIBERS, MAX_SYMBOLS, MAX_VENUES, MAX_WINDOW};
pub use line::{LineId, Side};
pub use missing_range::MissingRange;
pub use national::{Best, National, NationalState};
pub use past::Past;
pub use per_line::PerLine;
pub use price::Price;
pub use session_name::{SessionName, is_same_name};
pub use symbol::SymbolName;
