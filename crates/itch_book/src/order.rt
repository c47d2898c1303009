//! An order.

ghost use Rattle.std.specs.Prelude.{◌≡◌};
ghost use Rattle.itch_book.specs.Orders.{book_rank};

/// A live order: its book side, its price's rank there, and how many of its shares are left.
///
/// A book side is a side of a symbol by number: of the symbol at place p the bids are 2p, and the
/// offers 2p + 1.
#[derive(Clone, Copy, Debug, PartialEq, Eq)]
pub struct Order {
    pub side: u32,
    pub rank: u32,
    pub shares: u32,
}

/// Returns a price's rank on a book side, or the price of a rank: of bids, which have even numbers,
/// the price itself, and of offers what is left up to the greatest price. So on both a better price
/// has a greater rank.
#[inline(always)]
pub fn book_rank(side: u32, price: u32) -> u32
    ensures { result ≡ book_rank side price }
{
    if side % 2 == 0 {
        price
    } else {
        u32::MAX - price
    }
}
