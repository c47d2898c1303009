//! The rules of lanes: which lists may be sent.

/// Which lists may be sent under a tag, in statements alone: it has no calls and costs nothing.
///
/// Where a list may be sent, so may each prefix of it. So what a lane's receiver has received at
/// any moment obeys the rule, too.
pub trait LaneRule<T> {
    ghost use Rattle.std.specs.Prelude.{ℕ, List, [], ◌++◌};

    /// Under this tag the list may be sent, its first item first.
    ghost may_send: { ℕ → List T → Type 0 };

    /// The empty list may be sent under each tag.
    ghost empty: { (tag : ℕ) → may_send tag [] };

    /// Each prefix of a list that may be sent may be sent.
    ghost prefix: { (tag : ℕ) (xs ys : List T) → may_send tag (xs ++ ys) → may_send tag xs };
}
