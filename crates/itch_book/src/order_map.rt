//! The live orders for which their bucket has no place.

ghost use Rattle.std.specs.Prelude.{◌≡◌, ℕ, ◌+◌, [], Some, None, IfOk, IsSome, OnOk, OnErr, nat_eq, sum_by, if◌then◌else◌};
ghost use Rattle.std.specs.Map.{keys_of, values_of};
ghost use Rattle.std.specs.Option.{option_map, unwrap_or};
ghost use Rattle.itch_book.specs.declared.order.Order.{Order};
ghost use Rattle.itch_book.specs.Orders.{live_order};

use crate::fault::BookFault;
use crate::order::Order;
use std::alloc::{AllocError, Global};
use std::collections::HashMap;
use std::marker::Model;

/// The live orders for which their bucket has no place, by their references.
#[derive(Drop)]
pub(crate) struct OrderMap {
    live: HashMap<u64, Order>,
}

impl Model for OrderMap {
    ghost use Rattle.std.specs.Prelude.{List, ℕ, nat_eq};
    ghost use Rattle.std.specs.List.{IsDistinct};
    ghost use Rattle.std.specs.Map.{keys_of};
    ghost use Rattle.itch_book.specs.declared.order.Order.{Order};

    ghost Value = { List (ℕ × Order) };

    ghost view = { λ m. m.live.entries };

    ghost invariant = { λ m. IsDistinct nat_eq (keys_of m.live.entries) };
}

impl OrderMap {
    /// Makes a map without orders, with memory for `room` of them.
    pub(crate) fn new(alloc: Global, room: usize) -> Result<OrderMap, AllocError>
        ensures { IfOk result (λ m. m ≡ []) }
    {
        Ok(OrderMap {
            live: HashMap::with_capacity(alloc, room)?,
        })
    }

    /// Returns the order of this reference.
    #[inline(always)]
    pub(crate) fn get(&self, reference: u64) -> Option<Order>
        ensures { result ≡ live_order self.now reference }
    {
        self.live.get(&reference).copied()
    }

    /// Puts an order in of a reference of which there is none. Where that is refused nothing
    /// changes.
    pub(crate) fn put(&mut self, reference: u64, order: Order) -> Result<(), BookFault>
        requires { live_order self.old reference ≡ None }
        ensures orders { OnOk result ((other : ℕ) → live_order self.new other
            ≡ (if nat_eq reference other then Some order else live_order self.old other)) }
        ensures sums { OnOk result ((f : Order → ℕ) → sum_by f (values_of self.new)
            ≡ sum_by f (values_of self.old) + f order) }
        ensures keys { OnOk result ((f : ℕ → ℕ) → sum_by f (keys_of self.new)
            ≡ sum_by f (keys_of self.old) + f reference) }
        ensures refused { OnErr result (self.new ≡ self.old) }
    {
        if let Err(_) = self.live.insert(reference, order) {
            return Err(BookFault::NoMemory);
        }
        Ok(())
    }

    /// Puts another order in the place of the one of this reference, of which there is one.
    pub(crate) fn set(&mut self, reference: u64, order: Order)
        requires { IsSome (live_order self.old reference) }
        ensures orders { (other : ℕ) → live_order self.new other
            ≡ (if nat_eq reference other then Some order else live_order self.old other) }
        ensures sums { (f : Order → ℕ) → sum_by f (values_of self.new)
            + unwrap_or (option_map f (live_order self.old reference)) 0
            ≡ sum_by f (values_of self.old) + f order }
        ensures keys { (f : ℕ → ℕ) → sum_by f (keys_of self.new) ≡ sum_by f (keys_of self.old) }
    {
        if let Err(_) = self.live.insert(reference, order) {
            unreachable!();
        }
    }

    /// Takes the order of this reference out, of which there is one.
    pub(crate) fn remove(&mut self, reference: u64)
        requires { IsSome (live_order self.old reference) }
        ensures orders { (other : ℕ) → live_order self.new other
            ≡ (if nat_eq reference other then None else live_order self.old other) }
        ensures sums { (f : Order → ℕ) → sum_by f (values_of self.new)
            + unwrap_or (option_map f (live_order self.old reference)) 0
            ≡ sum_by f (values_of self.old) }
        ensures keys { (f : ℕ → ℕ) → sum_by f (keys_of self.new) + f reference
            ≡ sum_by f (keys_of self.old) }
    {
        self.live.remove(&reference);
    }
}
