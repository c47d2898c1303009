//! Laws of the definitions.

ghost use Rattle.std.specs.Prelude.{◌≡◌, ℕ, List, [], ◌∷◌, ◌++◌};
ghost use Rattle.feed_types.specs.declared.item.Numbered.{Numbered};
ghost use Rattle.feed_types.specs.Prefix.{IsPrefix};
ghost use Rattle.feed_types.specs.Sequence.{first_place, place_after, place_after_all, HasPlace, MayCarry, IsInSequence, SkipsNothing};
ghost use Rattle.feed_types.specs.Sessions.{Session, Names, whole_sessions};

use crate::genuine::Genuine;

/// Items in sequence are so at every moment: each prefix of them obeys the rule.
pub fn every_prefix_is_in_sequence<G: Genuine>()
    ensures { (venue : ℕ) (xs ys : List Numbered) → IsInSequence G.carries G.ends venue (xs ++ ys) →
        IsInSequence G.carries G.ends venue xs }
{}

/// One more item keeps the rule where it has the number of its place and may be carried there, and
/// the place that follows is the one after it.
pub fn one_more_in_sequence<G: Genuine>()
    ensures rule { (venue : ℕ) (xs : List Numbered) (x : Numbered) →
        IsInSequence G.carries G.ends venue xs →
        HasPlace (place_after_all first_place xs).number x.number x.item →
        MayCarry G.carries G.ends venue (place_after_all first_place xs) x.item →
        IsInSequence G.carries G.ends venue (xs ++ x ∷ []) }
    ensures place { (xs : List Numbered) (x : Numbered) →
        place_after_all first_place (xs ++ x ∷ [])
        ≡ place_after (place_after_all first_place xs) x }
{}

/// Where the lines carry exactly these sessions, items in sequence that skip nothing are the first
/// of the sessions' items, session by session, each session's End after its items.
pub fn sequence_is_of_the_sessions<G: Genuine>()
    ensures { (venue : ℕ) (all : List Session) (xs : List Numbered) →
        Names G.sessions G.carries G.ends venue all →
        IsInSequence G.carries G.ends venue xs →
        SkipsNothing xs →
        IsPrefix xs (whole_sessions all) }
{}
