//! The items of a venue's session, by their numbers.

use crate::symbol::SymbolName;

/// A venue's quotation of one symbol, both sides at once. Prices are in ten-thousandths of a
/// dollar, sizes in shares. A side whose price or size is 0 isn't there.
///
/// The fields are in an order that needs 40 bytes, since a journal keeps many, and has the symbol
/// and a flag where a halt has them.
#[derive(Clone, Copy, Debug, PartialEq, Eq, Hash)]
pub struct Quote {
    pub symbol: SymbolName,
    /// Whether the bid is an automated quotation. Only those are protected.
    pub bid_auto: bool,
    /// Whether the offer is an automated quotation.
    pub offer_auto: bool,
    pub bid_price: u32,
    pub bid_size: u64,
    pub offer_size: u64,
    pub offer_price: u32,
}

/// The content of one sequence number of a session.
#[derive(Clone, Copy, Debug, PartialEq, Eq, Hash)]
pub enum Item {
    Quote(Quote),
    /// The venue halts trading in the symbol, or trades it again.
    Halt { symbol: SymbolName, halted: bool },
    /// Any other message. It takes its number and changes no quotation.
    Other,
    /// The end of the session, which has the number after the last message's.
    End,
    /// The messages after the item before, up to and with this number, were given up: they didn't
    /// come.
    Skipped,
}

/// An item with its sequence number, from 1 on in each session.
#[derive(Clone, Copy, Debug, PartialEq, Eq, Hash)]
pub struct Numbered {
    pub number: u64,
    pub item: Item,
}
