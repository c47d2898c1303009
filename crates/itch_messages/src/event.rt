//! The content of a message, as far as it is of a venue's orders.

use feed_types::{Side, SymbolName};

/// The two kinds of halt, which are states of their own: the end of one doesn't end the other.
#[derive(Clone, Copy, Debug, PartialEq, Eq)]
pub enum HaltKind {
    /// Trading in the symbol is halted or paused, or it is quoted only, on all venues.
    Trading,
    /// The venue itself halts the symbol.
    Operational,
}

/// A new order, as it is displayed. The reference is the venue's number of the order, and the
/// locate its number of the symbol in the session. The price is in ten-thousandths of a dollar.
#[derive(Clone, Copy, Debug, PartialEq, Eq)]
pub struct NewOrder {
    pub symbol: SymbolName,
    pub reference: u64,
    pub shares: u32,
    pub price: u32,
    pub locate: u16,
    pub side: Side,
}

/// An order in the place of another, of the same symbol and side.
#[derive(Clone, Copy, Debug, PartialEq, Eq)]
pub struct Replacement {
    pub reference: u64,
    pub new_reference: u64,
    pub shares: u32,
    pub price: u32,
}

/// The content of a message, as far as it is of the orders that a venue displays.
#[derive(Clone, Copy, Debug, PartialEq, Eq)]
pub enum OrderEvent {
    /// A new order is displayed.
    Add(NewOrder),
    /// These shares of an order were executed or cancelled.
    Reduce {
        reference: u64,
        shares: u32,
    },
    /// An order was cancelled.
    Delete {
        reference: u64,
    },
    /// An order was cancelled, and another is displayed in its place.
    Replace(Replacement),
    /// The number of shares in a round lot of the symbol.
    RoundLot {
        symbol: SymbolName,
        shares: u32,
        locate: u16,
    },
    /// The symbol is halted, or trades again as far as this kind of halt is concerned.
    Halt {
        symbol: SymbolName,
        kind: HaltKind,
        halted: bool,
        locate: u16,
    },
    /// Any other message.
    Other,
}
