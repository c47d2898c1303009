//! Lines of a venue, and sides of the market.

use std::fmt;

/// The line on which a packet came. A venue sends the same packets on A and B; what a
/// retransmission server sends on request comes as Recovery.
#[derive(Clone, Copy, Debug, PartialEq, Eq, PartialOrd, Ord, Hash)]
pub enum LineId {
    A,
    B,
    Recovery,
}

impl LineId {
    ghost use Rattle.std.specs.Prelude.{◌≡◌};
    ghost use Rattle.feed_types.specs.Text.{line_letter};

    /// The letter of the line in captures and printed lines: A, B or R.
    pub const fn letter(self) -> u8
        ensures { result ≡ line_letter self }
    {
        match self {
            LineId::A => b'A',
            LineId::B => b'B',
            LineId::Recovery => b'R',
        }
    }
}

/// A side of the market: to buy or to sell.
#[derive(Clone, Copy, Debug, PartialEq, Eq, PartialOrd, Ord, Hash)]
pub enum Side {
    Bid,
    Offer,
}
