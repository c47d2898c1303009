//! The refusals of a journal.

ghost use Rattle.std.specs.Prelude.{◌≡◌};
ghost use Rattle.journal_book.specs.Codes.{journal_fault_code};

use thiserror::Error;

/// Why a journal refuses a call. A refused call changes nothing.
#[derive(Clone, Copy, Debug, PartialEq, Eq, Hash, Error)]
pub enum JournalFault {
    /// The memory for an entry, its changes or a subscriber was refused.
    #[error("no memory for the journal")]
    NoMemory,
    /// The journal has as many entries as it holds.
    #[error("the journal is full")]
    JournalFull,
    /// The venue isn't below the number of venues.
    #[error("there is no such venue")]
    UnknownVenue,
    /// The venue's self-help is on already, or off already.
    #[error("self-help is so already")]
    AlreadySo,
    /// There are 32 subscribers.
    #[error("there are 32 subscribers")]
    TooManySubscribers,
    /// A subscriber is behind by more changes than it may be.
    #[error("a subscriber is too far behind")]
    SubscriberBehind,
    /// Not all changes are kept, and there is one already.
    #[error("the first change may be gone")]
    TooLate,
}

impl JournalFault {
    /// The code of the fault: 12, 17 to 20, 51 or 64.
    pub fn code(self) -> u8
        ensures { result ≡ journal_fault_code self }
    {
        match self {
            JournalFault::NoMemory => 12,
            JournalFault::JournalFull => 17,
            JournalFault::UnknownVenue => 18,
            JournalFault::AlreadySo => 19,
            JournalFault::TooManySubscribers => 20,
            JournalFault::SubscriberBehind => 51,
            JournalFault::TooLate => 64,
        }
    }
}
