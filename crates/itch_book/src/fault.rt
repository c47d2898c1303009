//! The reasons why a book isn't made, or ends.

use std::alloc::AllocError;
use thiserror::Error;

/// Why a book isn't made, or why it can't go on. After a fault of a message the book is to be
/// dropped, since a replace may have taken the old order out.
#[derive(Clone, Copy, Debug, PartialEq, Eq, Error)]
pub enum BookFault {
    /// The memory for it was refused.
    #[error("no memory for the order book")]
    NoMemory,
    /// A book has at most 65,536 symbols.
    #[error("there are more than 65,536 symbols")]
    TooManySymbols,
    /// A symbol is listed twice.
    #[error("a symbol is there twice")]
    DuplicateSymbol,
    /// There are as many live orders as the book may have.
    #[error("there are more live orders than the book may have")]
    TooManyOrders,
    /// A price would show more than 2^63 shares.
    #[error("a price would show more than 2^63 shares")]
    TooManyShares,
}

impl From<AllocError> for BookFault {
    ghost use Rattle.std.specs.Prelude.{◌≡◌};
    ghost use Rattle.itch_book.specs.declared.fault.BookFault.TheVariants.{NoMemory};

    ghost from_gives = { λ _ fault. fault ≡ NoMemory };

    fn from(_error: AllocError) -> BookFault {
        BookFault::NoMemory
    }
}
