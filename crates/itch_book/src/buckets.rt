//! Orders in buckets of four places.

ghost use Rattle.std.specs.Prelude.{◌≡◌, ℕ, ◌+◌, ◌-◌, ◌*◌, ◌/◌, ◌^◌, ◌<◌, ◌≤◌, ◌++◌, [], MatchBool, MatchOption, Some, None, IfNone, IfOk, IfSome, OnErr, OnOk, ⊤, is_some, length, nat_eq, nat_le, slice_index_or, slice_set, if◌then◌else◌};
ghost use Rattle.itch_book.specs.Orders.{live_order};
ghost use Rattle.itch_book.specs.Slots.{AreHome, AreStored, IsFreeAt, IsHeldAt, IsPut, IsReduced, bucket_of, reduced_slot, stored_orders, with_beyond};

use crate::fault::BookFault;
use crate::order::Order;
use crate::order_map::OrderMap;
use crate::slot::{FREE, Slot};
use std::alloc::{AllocError, Global};

/// The places of a bucket.
const BUCKET_PLACES: usize = 4;

/// The most orders for which there are places.
const MOST_PLACES: usize = 1 << 40;

/// The places of the orders. A reference's low bits are its bucket, so that neighbours lie beside
/// one another; an order for which its bucket has no place is beyond it, in a map.
#[derive(Drop)]
pub(crate) struct Buckets {
    pub(crate) slots: Vec<Slot>,
    pub(crate) beyond: OrderMap,
    pub(crate) mask: u64,
}

/// Returns whether a place has the order of a reference.
#[inline(always)]
fn is_held_at(slots: &[Slot], at: usize, reference: u64) -> bool
    requires { at < length slots.now }
    ensures { MatchBool result (IsHeldAt slots.now at reference)
        (IsHeldAt slots.now at reference → ⊥) }
{
    slots[at].reference == reference && slots[at].order.shares != 0
}

/// Returns whether a place is free.
#[inline(always)]
fn is_free_at(slots: &[Slot], at: usize) -> bool
    requires { at < length slots.now }
    ensures { MatchBool result (IsFreeAt slots.now at) ⊤ }
{
    slots[at].order.shares == 0
}

/// Returns the first place of a reference's bucket.
#[inline(always)]
fn first_place(slots: &[Slot], mask: u64, reference: u64) -> usize
    requires { length slots.now ≡ (mask + 1) * 4 }
    ensures first { result ≡ bucket_of mask reference * 4 }
    ensures within { result + 4 ≤ length slots.now }
{
    // The places are for the prover alone.
    let _ = slots;
    (reference & mask) as usize * BUCKET_PLACES
}

/// Returns the place of the order of a reference, if it has one.
#[inline(always)]
fn place_of(slots: &[Slot], mask: u64, reference: u64) -> Option<usize>
    requires whole { length slots.now ≡ (mask + 1) * 4 }
    requires home { AreHome mask slots.now }
    ensures { MatchOption result ((k : ℕ) → IsHeldAt slots.now k reference → ⊥)
        (λ place. IsHeldAt slots.now place reference) }
{
    let first = first_place(slots, mask, reference);
    if is_held_at(slots, first, reference) {
        return Some(first);
    }
    if is_held_at(slots, first + 1, reference) {
        return Some(first + 1);
    }
    if is_held_at(slots, first + 2, reference) {
        return Some(first + 2);
    }
    if is_held_at(slots, first + 3, reference) {
        return Some(first + 3);
    }
    None
}

/// Returns a free place of a reference's bucket, if it has one.
#[inline(always)]
fn free_place(slots: &[Slot], mask: u64, reference: u64) -> Option<usize>
    requires { length slots.now ≡ (mask + 1) * 4 }
    ensures { MatchOption result ⊤ (λ place. IsFreeAt slots.now place
        × (place / 4 ≡ bucket_of mask reference)) }
{
    let first = first_place(slots, mask, reference);
    if is_free_at(slots, first) {
        return Some(first);
    }
    if is_free_at(slots, first + 1) {
        return Some(first + 1);
    }
    if is_free_at(slots, first + 2) {
        return Some(first + 2);
    }
    if is_free_at(slots, first + 3) {
        return Some(first + 3);
    }
    None
}

/// Puts an order into a place.
#[inline(always)]
fn fill(slots: &mut Vec<Slot>, at: usize, reference: u64, order: Order)
    requires { at < length slots.old.items }
    ensures { (d : Slot) → slots.new.items ≡ slice_set slots.old.items at (record {
      reference = reference;
      order = order;
      beyond = (slice_index_or slots.old.items at d).beyond;
    }) }
{
    slots[at] = Slot {
        reference,
        order,
        beyond: slots[at].beyond,
    };
}

/// Takes these shares of the order in a place away, all where there are no more. Returns it as it
/// was.
#[inline(always)]
fn reduce_at(slots: &mut Vec<Slot>, at: usize, shares: u32) -> Order
    requires { at < length slots.old.items }
    ensures value { (d : Slot) → result ≡ (slice_index_or slots.old.items at d).order }
    ensures slots { (d : Slot) → slots.new.items ≡ slice_set slots.old.items at
        (reduced_slot shares (slice_index_or slots.old.items at d)) }
{
    let Slot {
        reference,
        order,
        beyond,
    } = slots[at];
    let left = Order {
        side: order.side,
        rank: order.rank,
        shares: order.shares.saturating_sub(shares),
    };
    slots[at] = Slot {
        reference,
        order: left,
        beyond,
    };
    order
}

/// Sets how many orders of a bucket are beyond it, by its first place.
fn set_beyond(slots: &mut Vec<Slot>, first: usize, beyond: u32)
    requires { first < length slots.old.items }
    ensures { (d : Slot) → slots.new.items ≡ slice_set slots.old.items first
        (with_beyond beyond (slice_index_or slots.old.items first d)) }
{
    let Slot {
        reference,
        order,
        ..
    } = slots[first];
    slots[first] = Slot {
        reference,
        order,
        beyond,
    };
}

/// Returns the number of buckets for the most orders that there may be, a power of two. So there
/// are one to two places an order.
fn bucket_count(most: usize) -> usize
    ensures some { 1 ≤ result }
    ensures few { result ≤ 2 ^ 40 }
{
    most.min(MOST_PLACES)
        .div_ceil(BUCKET_PLACES)
        .max(1)
        .next_power_of_two()
}

impl Buckets {
    /// Makes buckets without orders, with places for `most`.
    pub(crate) fn new(alloc: Global, most: usize) -> Result<Buckets, AllocError>
        ensures stored { IfOk result (λ b. AreStored b.mask b.slots.items b.beyond) }
        ensures none { IfOk result (λ b. stored_orders b.slots.items b.beyond ≡ []) }
    {
        let buckets = bucket_count(most);
        Ok(Buckets {
            slots: vec![in alloc; FREE; buckets * BUCKET_PLACES]?,
            beyond: OrderMap::new(alloc, most / 32)?,
            mask: buckets as u64 - 1,
        })
    }

    /// Returns the order of this reference.
    pub(crate) fn get(&self, reference: u64) -> Option<Order>
        requires { AreStored self.now.mask self.now.slots.items self.now.beyond }
        ensures { result ≡ live_order (stored_orders self.now.slots.items self.now.beyond)
            reference }
    {
        let slots = self.slots.as_slice();
        if let Some(at) = place_of(slots, self.mask, reference) {
            return Some(slots[at].order);
        }
        if slots[first_place(slots, self.mask, reference)].beyond == 0 {
            return None;
        }
        self.beyond.get(reference)
    }

    /// Puts an order in that has shares, of a reference of which there is none.
    #[inline(always)]
    pub(crate) fn put(&mut self, reference: u64, order: Order) -> Result<(), BookFault>
        requires stored { AreStored self.old.mask self.old.slots.items self.old.beyond }
        requires some { order.shares ≡ 0 → ⊥ }
        requires none { live_order (stored_orders self.old.slots.items self.old.beyond) reference
            ≡ None }
        ensures stored { AreStored self.new.mask self.new.slots.items self.new.beyond }
        ensures put { OnOk result (IsPut reference order
            (stored_orders self.old.slots.items self.old.beyond)
            (stored_orders self.new.slots.items self.new.beyond)) }
        ensures refused { OnErr result (stored_orders self.new.slots.items self.new.beyond
            ≡ stored_orders self.old.slots.items self.old.beyond) }
    {
        match free_place(self.slots.as_slice(), self.mask, reference) {
            Some(at) => {
                fill(&mut self.slots, at, reference, order);
                Ok(())
            }
            None => self.put_beyond(reference, order),
        }
    }

    /// Puts an order in whose bucket has no place for it.
    #[inline(never)]
    fn put_beyond(&mut self, reference: u64, order: Order) -> Result<(), BookFault>
        requires stored { AreStored self.old.mask self.old.slots.items self.old.beyond }
        requires none { live_order (stored_orders self.old.slots.items self.old.beyond) reference
            ≡ None }
        ensures stored { AreStored self.new.mask self.new.slots.items self.new.beyond }
        ensures put { OnOk result (IsPut reference order
            (stored_orders self.old.slots.items self.old.beyond)
            (stored_orders self.new.slots.items self.new.beyond)) }
        ensures refused { OnErr result (stored_orders self.new.slots.items self.new.beyond
            ≡ stored_orders self.old.slots.items self.old.beyond) }
    {
        let first = first_place(self.slots.as_slice(), self.mask, reference);
        let Some(beyond) = self.slots[first].beyond.checked_add(1) else {
            return Err(BookFault::NoMemory);
        };
        self.beyond.put(reference, order)?;
        set_beyond(&mut self.slots, first, beyond);
        Ok(())
    }

    /// Takes these shares of an order away, and where none is left the order. Returns the order as
    /// it was, if there was one.
    #[inline(always)]
    pub(crate) fn reduce(&mut self, reference: u64, shares: u32) -> Option<Order>
        requires { AreStored self.old.mask self.old.slots.items self.old.beyond }
        ensures stored { AreStored self.new.mask self.new.slots.items self.new.beyond }
        ensures value { result ≡ live_order
            (stored_orders self.old.slots.items self.old.beyond) reference }
        ensures reduced { IsReduced reference shares
            (stored_orders self.old.slots.items self.old.beyond)
            (stored_orders self.new.slots.items self.new.beyond) }
        ensures same { IfNone result (stored_orders self.new.slots.items self.new.beyond
            ≡ stored_orders self.old.slots.items self.old.beyond) }
    {
        match place_of(self.slots.as_slice(), self.mask, reference) {
            Some(at) => Some(reduce_at(&mut self.slots, at, shares)),
            None => self.reduce_beyond(reference, shares),
        }
    }

    /// Takes these shares of an order away that has no place.
    #[inline(never)]
    fn reduce_beyond(&mut self, reference: u64, shares: u32) -> Option<Order>
        requires stored { AreStored self.old.mask self.old.slots.items self.old.beyond }
        requires apart { (k : ℕ) → IsHeldAt self.old.slots.items k reference → ⊥ }
        ensures stored { AreStored self.new.mask self.new.slots.items self.new.beyond }
        ensures value { result ≡ live_order
            (stored_orders self.old.slots.items self.old.beyond) reference }
        ensures reduced { IsReduced reference shares
            (stored_orders self.old.slots.items self.old.beyond)
            (stored_orders self.new.slots.items self.new.beyond) }
        ensures same { IfNone result (stored_orders self.new.slots.items self.new.beyond
            ≡ stored_orders self.old.slots.items self.old.beyond) }
    {
        let first = first_place(self.slots.as_slice(), self.mask, reference);
        let beyond = self.slots[first].beyond;
        if beyond == 0 {
            return None;
        }
        let order = self.beyond.get(reference)?;
        if order.shares <= shares {
            self.beyond.remove(reference);
            set_beyond(&mut self.slots, first, beyond - 1);
        } else {
            let left = Order {
                side: order.side,
                rank: order.rank,
                shares: order.shares - shares,
            };
            self.beyond.set(reference, left);
        }
        Some(order)
    }
}
