//! The faults of making a book.

ghost use Rattle.std.specs.Prelude.{◌≡◌};
ghost use Rattle.nbbo_book.specs.Codes.{book_fault_code};

use thiserror::Error;

/// Why there is no book.
#[derive(Clone, Copy, Debug, PartialEq, Eq, Hash, Error)]
pub enum BookFault {
    /// A book has 1 to 16 venues.
    #[error("the number of venues isn't between 1 and 16")]
    BadVenueCount,
    /// A book has at most 4,096 symbols.
    #[error("there are more than 4,096 symbols")]
    TooManySymbols,
    /// A symbol is configured twice.
    #[error("a symbol is there twice")]
    DuplicateSymbol,
    /// The memory for the symbols or for what is kept of them was refused.
    #[error("no memory for the book")]
    NoMemory,
}

impl BookFault {
    /// The code of the fault: 12 or 14 to 16.
    pub fn code(self) -> u8
        ensures { result ≡ book_fault_code self }
    {
        match self {
            BookFault::NoMemory => 12,
            BookFault::BadVenueCount => 14,
            BookFault::DuplicateSymbol => 15,
            BookFault::TooManySymbols => 16,
        }
    }
}
