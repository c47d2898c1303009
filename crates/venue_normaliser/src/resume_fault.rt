//! The reasons why a session doesn't begin at a snapshot.

use itch_book::BookFault;
use thiserror::Error;

/// Why a session doesn't begin at a snapshot.
#[derive(Clone, Copy, Debug, PartialEq, Eq, Error)]
pub enum ResumeFault {
    /// Memory was refused, or the book has no room for the orders.
    #[error("{0}")]
    Book(BookFault),
    /// There are fewer numbers before the snapshot's own than quotations and halts that it shows,
    /// each of which some message of the session made.
    #[error("it shows more than the messages before its number can")]
    TooFewNumbers,
    /// Something of the session has come.
    #[error("the session has begun")]
    HasBegun,
}

impl From<BookFault> for ResumeFault {
    ghost use Rattle.std.specs.Prelude.{◌≡◌};
    ghost use Rattle.venue_normaliser.specs.declared.resume_fault.ResumeFault.TheVariants.{Book};

    ghost from_gives = { λ fault e. e ≡ Book fault };

    fn from(fault: BookFault) -> ResumeFault {
        ResumeFault::Book(fault)
    }
}
