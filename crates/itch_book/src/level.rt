//! The shares at one price.

/// A rank of a book side, and shares: those that are shown at it, or of a best, those at it and all
/// better ones in whole round lots. A greater rank is a better price.
#[derive(Clone, Copy, Debug, PartialEq, Eq)]
pub struct Level {
    pub rank: u32,
    pub shares: u64,
}
