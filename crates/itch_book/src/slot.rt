//! A place for an order.

use crate::order::Order;

/// A place for an order, which is free where the order has no shares. The first place of each
/// bucket has the number of the bucket's orders for which it has no place.
#[derive(Clone, Copy, Debug)]
pub struct Slot {
    pub reference: u64,
    pub order: Order,
    pub beyond: u32,
}

pub(crate) const FREE: Slot = Slot {
    reference: 0,
    order: Order {
        side: 0,
        rank: 0,
        shares: 0,
    },
    beyond: 0,
};
