//! The live orders by their references.

ghost use Rattle.std.specs.Prelude.{◌≡◌, ℕ, ◌+◌, [], None, IfNone, IfOk, IsTrue, OnErr, is_some, nat_eq, not, sum_by, if◌then◌else◌};
ghost use Rattle.std.specs.Map.{values_of};
ghost use Rattle.std.specs.Option.{option_map, unwrap_or};
ghost use Rattle.itch_book.specs.declared.order.Order.{Order};
ghost use Rattle.itch_book.specs.Orders.{live_order};
ghost use Rattle.itch_book.specs.Slots.{IsPut, IsReduced};

use crate::buckets::Buckets;
use crate::fault::BookFault;
use crate::order::Order;
use std::alloc::{AllocError, Global};
use std::marker::Model;

/// The live orders by their references, and the most that there may be.
#[derive(Drop)]
pub(crate) struct OrderTable {
    buckets: Buckets,
    count: usize,
    most: usize,
}

impl Model for OrderTable {
    ghost use Rattle.std.specs.Prelude.{◌≡◌, List, ℕ, sum_by};
    ghost use Rattle.std.specs.Map.{values_of};
    ghost use Rattle.itch_book.specs.declared.order.Order.{Order};
    ghost use Rattle.itch_book.specs.Slots.{AreStored, stored_orders};

    ghost Value = { List (ℕ × Order) };

    ghost view = { λ t. stored_orders t.buckets.slots.items t.buckets.beyond };

    ghost invariant = { λ t. AreStored t.buckets.mask t.buckets.slots.items t.buckets.beyond
        × (t.count ≡ sum_by (λ _. 1)
        (values_of (stored_orders t.buckets.slots.items t.buckets.beyond))) };
}

impl OrderTable {
    /// Makes a table without orders, with memory for `most`, which is the most that there may be.
    pub(crate) fn new(alloc: Global, most: usize) -> Result<OrderTable, AllocError>
        ensures { IfOk result (λ t. t ≡ []) }
    {
        Ok(OrderTable {
            buckets: Buckets::new(alloc, most)?,
            count: 0,
            most,
        })
    }

    /// Returns the order of this reference.
    pub(crate) fn get(&self, reference: u64) -> Option<Order>
        ensures { result ≡ live_order self.now reference }
    {
        self.buckets.get(reference)
    }

    /// Puts an order in that has shares, unless there is one of its reference. Returns whether it
    /// did. Where that is refused nothing changes.
    #[inline(always)]
    pub(crate) fn put(&mut self, reference: u64, order: Order) -> Result<bool, BookFault>
        requires { order.shares ≡ 0 → ⊥ }
        ensures told { IfOk result (λ added.
            added ≡ not (is_some (live_order self.old reference))) }
        ensures put { IfOk result (λ added. IsTrue added
            → IsPut reference order self.old self.new) }
        ensures same { IfOk result (λ added. (IsTrue added → ⊥) → self.new ≡ self.old) }
        ensures refused { OnErr result (self.new ≡ self.old) }
    {
        if self.buckets.get(reference).is_some() {
            return Ok(false);
        }
        if self.count >= self.most {
            return Err(BookFault::TooManyOrders);
        }
        self.buckets.put(reference, order)?;
        self.count += 1;
        Ok(true)
    }

    /// Takes these shares of an order away, and where none is left the order. Returns the order as
    /// it was, if there was one.
    #[inline(always)]
    pub(crate) fn reduce(&mut self, reference: u64, shares: u32) -> Option<Order>
        ensures value { result ≡ live_order self.old reference }
        ensures reduced { IsReduced reference shares self.old self.new }
        ensures same { IfNone result (self.new ≡ self.old) }
    {
        let order = self.buckets.reduce(reference, shares)?;
        if order.shares <= shares {
            self.count -= 1;
        }
        Some(order)
    }

    /// Takes the order of this reference out. Returns it, if there was one.
    #[inline(always)]
    pub(crate) fn remove(&mut self, reference: u64) -> Option<Order>
        ensures value { result ≡ live_order self.old reference }
        ensures orders { (other : ℕ) → live_order self.new other
            ≡ (if nat_eq reference other then None else live_order self.old other) }
        ensures sums { (f : Order → ℕ) → sum_by f (values_of self.new)
            + unwrap_or (option_map f (live_order self.old reference)) 0
            ≡ sum_by f (values_of self.old) }
        ensures same { IfNone result (self.new ≡ self.old) }
    {
        self.reduce(reference, u32::MAX)
    }
}
