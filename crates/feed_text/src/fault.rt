//! The faults of a replay.

use thiserror::Error;

/// Why a replay ended early.
#[derive(Clone, Copy, Debug, PartialEq, Eq, Error)]
pub enum ReplayFault {
    /// A call of the reader failed.
    #[error("read failed")]
    ReadFailed,
    /// A call of the writer failed, was interrupted, or would take nothing.
    #[error("write failed")]
    WriteFailed,
    /// Four bytes begin no record where a record should begin.
    #[error("bad record")]
    BadRecord,
    /// The input ends within a record.
    #[error("short record")]
    ShortRecord,
    /// All calls of the reader that are allowed were made, and none showed the end.
    #[error("too many turns")]
    TooManyTurns,
    /// The journal is full, and a record needs one more entry.
    #[error("journal full")]
    JournalFull,
    /// Memory was refused.
    #[error("no memory")]
    NoMemory,
}
