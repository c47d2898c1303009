//! The reasons why nothing was pushed.

/// Why nothing was pushed. The refused call has changed nothing.
#[derive(Clone, Copy, Debug, PartialEq, Eq, Hash)]
pub enum Unsent {
    /// There is nothing to push now.
    Nothing,
    /// The lane took nothing: as many items were pushed to it before as it has room for.
    LaneFull,
}
