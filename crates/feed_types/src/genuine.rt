//! What the lines of the venues may carry.

ghost use Rattle.std.specs.Prelude.{ℕ, List};
ghost use Rattle.feed_types.specs.declared.item.Item.{Item};

/// What the lines of the venues may carry, in statements alone: it has no calls and costs nothing.
///
/// A venue is its number, and its sessions are counted from 1, the ordinal. A program picks
/// [`Anything`]; a caller that speaks of what was really sent picks a type whose members name it.
pub trait Genuine {
    /// The venue's session of this ordinal has this name of ten bytes.
    ghost sessions: { ℕ → ℕ → List ℕ → Type 0 };

    /// In the venue's session of this ordinal, the message of this number may read as this item.
    ghost carries: { ℕ → ℕ → ℕ → Item → Type 0 };

    /// The venue's session of this ordinal may end with this end number, one more than that of its
    /// last message.
    ghost ends: { ℕ → ℕ → ℕ → Type 0 };
}

/// Lines that may carry anything, under any session name.
#[derive(Clone, Copy, Debug)]
pub struct Anything;

impl Genuine for Anything {
    ghost sessions = { λ _ _ _. Unit {0} };

    ghost carries = { λ _ _ _ _. Unit {0} };

    ghost ends = { λ _ _ _. Unit {0} };
}
