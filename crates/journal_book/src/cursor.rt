//! The cursor of a subscriber, and a search for it that isn't at its end.

use filter_terms::Terms;

/// A subscriber's terms, and how many of the journal's changes were looked at for it.
#[derive(Drop)]
pub struct Cursor {
    pub terms: Terms,
    pub seen: usize,
}

/// Further changes have to be looked at for the subscriber, to which nothing was offered.
#[derive(Clone, Copy, Debug, PartialEq, Eq, Hash)]
pub struct Unfinished;
