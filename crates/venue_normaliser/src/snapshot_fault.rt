//! The reasons why bytes are no snapshot.

use thiserror::Error;

/// Why bytes are no snapshot, and the first byte of what is wrong, counted from 0.
#[derive(Clone, Copy, Debug, PartialEq, Eq, Error)]
pub enum SnapshotFault {
    /// A message, or its length, is cut.
    #[error("a message is cut at byte {byte}")]
    Cut { byte: usize },
    /// The bytes end without an End of Snapshot.
    #[error("it ends without an End of Snapshot, message G, at byte {byte}")]
    NoEnd { byte: usize },
    /// A message takes something from an order, or is of no form of the standard.
    #[error("no message of a snapshot at byte {byte}")]
    NotOfSnapshot { byte: usize },
    /// An End of Snapshot has no number of 1 to 4,294,967,295.
    #[error("no number from 1 to 4,294,967,295 in the End of Snapshot at byte {byte}")]
    BadNumber { byte: usize },
    /// Bytes follow the End of Snapshot.
    #[error("more bytes after the End of Snapshot, at byte {byte}")]
    AfterEnd { byte: usize },
}
