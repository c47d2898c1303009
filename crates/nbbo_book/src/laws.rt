//! Laws of the definitions, to compare with the regulation.

ghost use Rattle.std.specs.Prelude.{◌≡◌, ◌≢◌, ◌↔◌, ◌⊎◌, ℕ, ◌≤◌, List, length, take, Some, None, IsTrue};
ghost use Rattle.feed_types.specs.declared.journal.Entry.{Entry};
ghost use Rattle.feed_types.specs.declared.line.Side.{Side};
ghost use Rattle.feed_types.specs.declared.national.Best.{Best};
ghost use Rattle.feed_types.specs.declared.national.National.{National};
ghost use Rattle.nbbo_book.specs.Sides.{side_of, age_of};
ghost use Rattle.nbbo_book.specs.Eligible.{IsEligible};
ghost use Rattle.nbbo_book.specs.Nationals.{Beats, IsBest, best_of};
ghost use Rattle.nbbo_book.specs.Changes.{is_same_national};

/// The best law: the best of a side is the eligible one that beats every other one. There is at
/// most one, and none only where none is eligible.
pub fn one_best()
    ensures best { (entries : List Entry) (symbol : List ℕ) (side : Side) (x : Best) →
        (best_of entries symbol side ≡ Some x) ↔ IsBest entries symbol side x }
    ensures none { (entries : List Entry) (symbol : List ℕ) (side : Side) →
        (best_of entries symbol side ≡ None) ↔ ((x : Best) → ¬ IsEligible entries symbol side x) }
{}

/// Of two eligible sides of different venues one ranks before the other, and not the other way
/// round.
pub fn any_two_rank()
    ensures either { (entries : List Entry) (symbol : List ℕ) (side : Side) (x y : Best) →
        IsEligible entries symbol side x → IsEligible entries symbol side y → y.venue ≢ x.venue →
        Beats entries symbol side x y ⊎ Beats entries symbol side y x }
    ensures one_way { (entries : List Entry) (symbol : List ℕ) (side : Side) (x y : Best) →
        Beats entries symbol side x y → ¬ Beats entries symbol side y x }
{}

/// The age of a venue's side is the first position from which on every prefix of the entries has
/// the same side.
pub fn age_is_the_first()
    ensures within { (entries : List Entry) (venue : ℕ) (symbol : List ℕ) (side : Side) →
        age_of entries venue symbol side ≤ length entries }
    ensures from_then_on { (entries : List Entry) (venue : ℕ) (symbol : List ℕ) (side : Side) →
        (n : ℕ) → age_of entries venue symbol side ≤ n → n ≤ length entries →
        side_of (take n entries) venue symbol side ≡ side_of entries venue symbol side }
    ensures from_no_earlier { (entries : List Entry) (venue : ℕ) (symbol : List ℕ) (side : Side) →
        (p : ℕ) → p ≤ length entries →
        ((n : ℕ) → p ≤ n → n ≤ length entries →
        side_of (take n entries) venue symbol side ≡ side_of entries venue symbol side) →
        age_of entries venue symbol side ≤ p }
{}

/// Two national bests are the same exactly where they are equal.
pub fn same_is_equal()
    ensures { (x y : National) → IsTrue (is_same_national x y) ↔ (x ≡ y) }
{}
