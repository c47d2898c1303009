//! The displayed orders of one venue, and the protected quotations that they make.
//!
//! An [`OrderBook`] is given the messages of a session one by one. It keeps the live orders of its
//! symbols, the shares that they show at each price, the round lots and the halts, and returns the
//! quotation that a message changed.
//!
//! Contract: for every list of events that the book fits, it fits one more after
//! [`apply`](OrderBook::apply), which returns exactly the quotation or the halt that differs then.
//! Begin at `specs/Orders.antt`, which has the live orders as a fold over the messages, and
//! `specs/Bests.antt`, which has the protected side of a symbol.
#![tactic(auto)]

mod book;
mod buckets;
mod fault;
mod laws;
mod level;
mod levels;
mod oddity;
mod order;
mod order_map;
mod order_table;
mod orders;
mod row;
mod slot;
mod step;
mod symbol_places;

pub use book::OrderBook;
pub use fault::BookFault;
pub use laws::{one_best, ranks_follow_prices};
pub use level::Level;
pub use oddity::{Oddities, Oddity};
pub use order::{Order, book_rank};
pub use row::SymbolRow;
pub use symbol_places::MOST_SYMBOLS;
