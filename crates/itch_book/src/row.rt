//! What the book keeps of a symbol beside its orders.

ghost use Rattle.std.specs.Prelude.{◌≡◌, ◌+◌, ◌*◌, ◌≤◌};
ghost use Rattle.itch_book.specs.Rows.{Tells, shows_halt, shown_price, shown_size, showing, with_lot, with_halt};

use crate::level::Level;
use crate::order::book_rank;
use feed_types::{Item, Quote};
use itch_messages::HaltKind;

/// The quotation that a symbol shows, its round lot, and whether it is halted.
#[derive(Clone, Copy, Debug)]
pub struct SymbolRow {
    pub quote: Quote,
    pub lot: u32,
    pub trading_halt: bool,
    pub operational_halt: bool,
}

/// Returns the price of a best, 0 where there is none.
#[inline(always)]
fn price_of(side: u32, best: &Option<Level>) -> u32
    ensures { result ≡ shown_price side best.now }
{
    match best {
        Some(level) => book_rank(side, level.rank),
        None => 0,
    }
}

/// Returns the size of a best, 0 where there is none.
#[inline(always)]
fn size_of(best: &Option<Level>) -> u64
    ensures { result ≡ shown_size best.now }
{
    match best {
        Some(level) => level.shares,
        None => 0,
    }
}

impl SymbolRow {
    /// Returns whether the symbol is halted by either kind of halt.
    fn is_halted(&self) -> bool
        ensures { result ≡ shows_halt self.now }
    {
        self.trading_halt || self.operational_halt
    }

    /// Shows the best of a book side of the symbol. Returns the quotation, where it differs then.
    #[inline(always)]
    pub(crate) fn show(&mut self, side: u32, best: &Option<Level>) -> Item
        ensures row { self.new ≡ showing side best.now self.old }
        ensures told { Tells self.old self.new result }
    {
        let price = price_of(side, best);
        let size = size_of(best);
        if side % 2 == 0 {
            if self.quote.bid_price == price && self.quote.bid_size == size {
                return Item::Other;
            }
            self.quote.bid_price = price;
            self.quote.bid_size = size;
        } else {
            if self.quote.offer_price == price && self.quote.offer_size == size {
                return Item::Other;
            }
            self.quote.offer_price = price;
            self.quote.offer_size = size;
        }
        Item::Quote(self.quote)
    }

    /// Takes another round lot, with the bests that it makes. Returns the quotation, where it
    /// differs then.
    pub(crate) fn show_lot(
        &mut self,
        place: u32,
        lot: u32,
        bid: &Option<Level>,
        offer: &Option<Level>,
    ) -> Item
        requires { place ≤ 65535 }
        ensures row { self.new ≡ showing (place * 2 + 1) offer.now
            (showing (place * 2) bid.now (with_lot lot self.old)) }
        ensures told { Tells self.old self.new result }
    {
        let before = self.quote;
        self.lot = lot;
        let _bid = self.show(place * 2, bid);
        let _offer = self.show(place * 2 + 1, offer);
        if self.quote == before {
            Item::Other
        } else {
            Item::Quote(self.quote)
        }
    }

    /// Takes another state of a kind of halt. Returns the halt or its end, where the symbol is
    /// halted by either then, and wasn't, or the other way round.
    pub(crate) fn show_halt(&mut self, kind: HaltKind, halted: bool) -> Item
        ensures row { self.new ≡ with_halt kind halted self.old }
        ensures told { Tells self.old self.new result }
    {
        let before = self.is_halted();
        match kind {
            HaltKind::Trading => self.trading_halt = halted,
            HaltKind::Operational => self.operational_halt = halted,
        }
        let after = self.is_halted();
        if before == after {
            Item::Other
        } else {
            Item::Halt {
                symbol: self.quote.symbol,
                halted: after,
            }
        }
    }
}
