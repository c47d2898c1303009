//! Laws of the definitions of changes and of what is wanted.

ghost use Rattle.std.specs.Prelude.{ℕ, ◌<◌, List, ◌++◌, AllPairs};
ghost use Rattle.feed_types.specs.declared.journal.Entry.{Entry};
ghost use Rattle.feed_types.specs.declared.journal.Notice.{Notice};
ghost use Rattle.feed_types.specs.Prefix.{IsPrefix};
ghost use Rattle.filter_terms.specs.declared.terms.Terms.{Terms};
ghost use Rattle.journal_book.specs.Changes.{changes_of, RisesPast};
ghost use Rattle.journal_book.specs.Wanted.{wanted_of};

/// More entries add changes at the end: the earlier ones keep their numbers and places.
pub fn changes_grow_at_their_end()
    ensures { (symbols : List (List ℕ)) (entries more : List Entry)
        → IsPrefix (changes_of symbols entries) (changes_of symbols (entries ++ more)) }
{}

/// The same holds of the changes that a subscriber asked for: what was offered of them stays a
/// prefix.
pub fn wanted_grow_at_their_end()
    ensures { (symbols : List (List ℕ)) (terms : Terms) (entries more : List Entry)
        (offered : List Notice)
        → IsPrefix offered (wanted_of symbols terms entries)
        → IsPrefix offered (wanted_of symbols terms (entries ++ more)) }
{}

/// The numbers of what a subscriber asked for rise strictly, from 1 on at least.
pub fn wanted_numbers_rise()
    ensures past { (symbols : List (List ℕ)) (terms : Terms) (entries : List Entry)
        → RisesPast 0 (wanted_of symbols terms entries) }
    ensures pairs { (symbols : List (List ℕ)) (terms : Terms) (entries : List Entry)
        → AllPairs (λ x y. x.number < y.number) (wanted_of symbols terms entries) }
{}
