//! Laws of the definitions.

ghost use Rattle.std.specs.Prelude.{◌≡◌, ℕ, ◌<◌, ◌↔◌, ◌^◌, Option};
ghost use Rattle.feed_types.specs.declared.line.Side.TheVariants.{Bid, Offer};
ghost use Rattle.itch_book.specs.declared.level.Level.{Level};
ghost use Rattle.itch_book.specs.Bests.{IsBestOf};
ghost use Rattle.itch_book.specs.Orders.{book_rank, book_side};

/// A book side has one best.
pub fn one_best()
    ensures { (lot : ℕ) (depth : ℕ → ℕ) (a b : Option Level)
        → IsBestOf lot depth a → IsBestOf lot depth b → a ≡ b }
{}

/// Of bids a higher price ranks higher, of offers a lower one.
pub fn ranks_follow_prices()
    ensures bids { (place price other : ℕ)
        → (book_rank (book_side place Bid) price < book_rank (book_side place Bid) other)
        ↔ (price < other) }
    ensures offers { (place price other : ℕ) → price < 2 ^ 32 → other < 2 ^ 32
        → (book_rank (book_side place Offer) price < book_rank (book_side place Offer) other)
        ↔ (other < price) }
{}
