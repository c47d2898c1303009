//! The messages that changed no order, or took more than there was.

ghost use Rattle.std.specs.Prelude.{◌≡◌};
ghost use Rattle.itch_book.specs.Oddities.{oddities_after};

/// Why a message changed no order, or took more than there was.
#[derive(Clone, Copy, Debug, PartialEq, Eq)]
pub enum Oddity {
    /// A new order has the reference of a live one.
    LiveReference,
    /// A new order has no shares.
    NoShares,
    /// No live order has the reference.
    UnknownOrder,
    /// More shares are gone than were left, so that the order is.
    TooManyShares,
}

/// The numbers of odd messages, by their reasons. A number stays at 2^64 - 1 once it is there.
///
/// Orders of symbols that the book doesn't have aren't live in it, so that each message that is
/// about one of them is counted as of an unknown order.
#[derive(Clone, Copy, Debug, PartialEq, Eq)]
pub struct Oddities {
    pub live_references: u64,
    pub without_shares: u64,
    pub unknown_orders: u64,
    pub too_many_shares: u64,
}

pub(crate) const NO_ODDITIES: Oddities = Oddities {
    live_references: 0,
    without_shares: 0,
    unknown_orders: 0,
    too_many_shares: 0,
};

impl Oddities {
    /// Counts the oddity of a message, if it has one.
    #[inline(always)]
    pub(crate) fn count(&mut self, oddity: Option<Oddity>)
        ensures { self.new ≡ oddities_after self.old oddity }
    {
        match oddity {
            None => {}
            Some(Oddity::LiveReference) => {
                self.live_references = self.live_references.saturating_add(1);
            }
            Some(Oddity::NoShares) => self.without_shares = self.without_shares.saturating_add(1),
            Some(Oddity::UnknownOrder) => {
                self.unknown_orders = self.unknown_orders.saturating_add(1);
            }
            Some(Oddity::TooManyShares) => {
                self.too_many_shares = self.too_many_shares.saturating_add(1);
            }
        }
    }
}
