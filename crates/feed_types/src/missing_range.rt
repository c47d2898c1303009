//! Messages that are missing.

/// Messages of a session that are missing in a row.
#[derive(Clone, Copy, Debug, PartialEq, Eq)]
pub struct MissingRange {
    /// The number of the first of them.
    pub first: u64,
    /// How many are missing, from that one on.
    pub count: u64,
}
