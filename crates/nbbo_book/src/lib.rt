//! The national best bid and offer of each configured symbol, over up to 16 venues.
//!
//! A [`Book`] is given the journal's entries one by one. It keeps each venue's protected sides,
//! ranks those that are eligible by price, size and time, and says which symbols' national best an
//! entry changed.
//!
//! Contract: for every list of entries that the book fits, the changes that `apply` appends, the
//! national best and the ranks are those that `specs/Changes.antt` and `specs/Nationals.antt`
//! compute from the whole list. Begin at `book.rt`; `laws.rt` says what the definitions mean.
#![tactic(auto)]

mod book;
mod book_side;
mod change;
mod fault;
mod laws;
mod ranks;
mod row;
mod side_quote;
mod steps;
mod symbol_cache;
mod table;
mod venue_side;
mod venue_sides;
mod venues;

pub use book::Book;
pub use change::Change;
pub use fault::BookFault;
pub use laws::{age_is_the_first, any_two_rank, one_best, same_is_equal};
pub use table::are_distinct;
