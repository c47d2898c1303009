//! Advice, and the limits on it.

use feed_types::VenueId;

/// The limits of a strategy.
#[derive(Clone, Copy, Debug, PartialEq, Eq, Hash)]
pub struct Limits {
    /// The largest size, in shares, of one order.
    pub max_size: u64,
}

/// The advice of a strategy on a notice. Prices are in ten-thousandths of a dollar, sizes in
/// shares.
#[derive(Clone, Copy, Debug, PartialEq, Eq, Hash)]
pub enum Advice {
    /// Do nothing.
    Hold,
    /// Buy from the offer of the venue.
    Buy {
        venue: VenueId,
        price: u32,
        size: u64,
    },
    /// Sell to the bid of the venue.
    Sell {
        venue: VenueId,
        price: u32,
        size: u64,
    },
}
