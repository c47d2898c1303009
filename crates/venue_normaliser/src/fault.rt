//! The reasons why a normaliser isn't made.

use itch_book::BookFault;
use thiserror::Error;

/// Why a normaliser isn't made.
#[derive(Clone, Copy, Debug, PartialEq, Eq, Error)]
pub enum NormaliserFault {
    /// A window has 1 to 65,535 messages.
    #[error("the window isn't between 1 and 65,535 messages")]
    BadWindow,
    /// The book isn't made, or the memory of the window was refused.
    #[error("{0}")]
    Book(BookFault),
}
