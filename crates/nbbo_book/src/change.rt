//! The changes that an entry makes.

use feed_types::{National, SymbolName};

/// A change of one symbol's national best.
#[derive(Clone, Copy, Debug, PartialEq, Eq, Hash)]
pub struct Change {
    /// The position of the entry that made the change.
    pub position: u64,
    pub symbol: SymbolName,
    /// The national best after that entry.
    pub national: National,
}
