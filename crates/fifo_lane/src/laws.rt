//! Laws of the feed's two rules.

ghost use Rattle.std.specs.Prelude.{◌≡◌, ◌≢◌, ◌↔◌, ◌<◌, ◌+◌, ℕ, List, ◌∷◌, ◌++◌};
ghost use Rattle.feed_types.specs.declared.item.Item.TheVariants.{End, Skipped};
ghost use Rattle.feed_types.specs.declared.item.Numbered.{Numbered};
ghost use Rattle.feed_types.specs.declared.journal.Notice.{Notice};
ghost use Rattle.feed_types.specs.Sequence.{IsInSequence};

use crate::rule::LaneRule;
use crate::rules::{RisingNotices, VenueItems};
use feed_types::{Genuine, Notice, Numbered};

/// A venue's lane carries exactly what the rule of a venue's items allows.
pub fn venue_items_are_in_sequence<G: Genuine>()
    ensures { (venue : ℕ) (items : List Numbered) →
        (⟦<VenueItems<G> as LaneRule<Numbered>>⟧.may_send venue items
        ↔ IsInSequence G.carries G.ends venue items) }
{}

/// The numbers that a venue's lane carries begin with 1 and go up by one, but for Skipped, whose
/// number may be greater; after End comes number 1 again.
pub fn venue_numbers_count_up<G: Genuine>()
    ensures first { (venue : ℕ) (x : Numbered) (xs : List Numbered) →
        ⟦<VenueItems<G> as LaneRule<Numbered>>⟧.may_send venue (x ∷ xs) →
        x.item ≢ Skipped → x.number ≡ 1 }
    ensures next { (venue : ℕ) (xs : List Numbered) (x y : Numbered) (ys : List Numbered) →
        ⟦<VenueItems<G> as LaneRule<Numbered>>⟧.may_send venue (xs ++ x ∷ y ∷ ys) →
        x.item ≢ End → y.item ≢ Skipped → y.number ≡ x.number + 1 }
    ensures after_end { (venue : ℕ) (xs : List Numbered) (x y : Numbered) (ys : List Numbered) →
        ⟦<VenueItems<G> as LaneRule<Numbered>>⟧.may_send venue (xs ++ x ∷ y ∷ ys) →
        x.item ≡ End → y.item ≢ Skipped → y.number ≡ 1 }
    ensures rises { (venue : ℕ) (xs : List Numbered) (x y : Numbered) (ys : List Numbered) →
        ⟦<VenueItems<G> as LaneRule<Numbered>>⟧.may_send venue (xs ++ x ∷ y ∷ ys) →
        x.item ≢ End → x.number < y.number }
{}

/// Of the notices that a subscriber's lane carries, each has a greater number than all before it.
pub fn notice_numbers_rise()
    ensures { (id : ℕ) (xs ys zs : List Notice) (x y : Notice) →
        ⟦<RisingNotices as LaneRule<Notice>>⟧.may_send id (xs ++ x ∷ ys ++ y ∷ zs) →
        x.number < y.number }
{}
