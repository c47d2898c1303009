//! The live orders, and the levels that they make.

ghost use Rattle.std.specs.Prelude.{◌≡◌, ℕ, ◌<◌, ◌≤◌, [], List, IfOk, OnOk, IfSome, IsSome, Some, length, replicate};
ghost use Rattle.itch_book.specs.declared.order.Order.{Order};
ghost use Rattle.itch_book.specs.Bests.{IsBestOf, depth};
ghost use Rattle.itch_book.specs.Inside.{Holds};
ghost use Rattle.itch_book.specs.Oddities.{add_oddity, less_oddity, gone_oddity, other_oddity};
ghost use Rattle.itch_book.specs.Orders.{live_order, with_order, without_order, with_less, with_other};

use crate::fault::BookFault;
use crate::level::Level;
use crate::levels::{LevelFault, Levels};
use crate::oddity::Oddity;
use crate::order::{Order, book_rank};
use crate::order_table::OrderTable;
use crate::step::Step;
use itch_messages::Replacement;
use std::alloc::{AllocError, Global};
use std::marker::Model;

/// The live orders by their references, and for each book side how many shares they show at each
/// rank.
#[derive(Drop)]
pub(crate) struct Orders {
    table: OrderTable,
    sides: Vec<Levels>,
}

impl Model for Orders {
    ghost use Rattle.itch_book.specs.Inside.{OrdersState, AreKept};

    ghost Value = { OrdersState };

    ghost view = { λ o. record { table = o.table; sides = o.sides.items } };

    ghost invariant = { λ o. AreKept (record { table = o.table; sides = o.sides.items }) };
}

/// Makes this many book sides without levels.
fn empty_sides(alloc: Global, count: usize) -> Result<Vec<Levels>, AllocError>
    ensures { IfOk result (λ sides. sides.items ≡ replicate count []) }
{
    let mut sides = Vec::with_capacity(alloc, count)?;
    for _ in 0..count {
        sides.push(Levels::new(alloc))?;
    }
    Ok(sides)
}

/// Returns the fault of a book whose level can't have more shares.
fn book_fault(fault: LevelFault) -> BookFault {
    match fault {
        LevelFault::NoMemory => BookFault::NoMemory,
        LevelFault::TooManyShares => BookFault::TooManyShares,
    }
}

impl Orders {
    /// Makes no orders, over this many book sides, with memory for `most`, which is the most that
    /// there may be.
    pub(crate) fn new(alloc: Global, sides: usize, most: usize) -> Result<Orders, AllocError>
        ensures none { IfOk result (λ o. o.table ≡ []) }
        ensures sides { IfOk result (λ o. length o.sides ≡ sides) }
    {
        let table = OrderTable::new(alloc, most)?;
        let sides = empty_sides(alloc, sides)?;
        Ok(Orders { table, sides })
    }

    /// Adds an order, unless there is one of its reference or it has no shares. Returns which of
    /// these it is, if it is one.
    pub(crate) fn add(&mut self, reference: u64, order: Order) -> Result<Option<Oddity>, BookFault>
        requires { order.side < length self.old.sides }
        ensures orders { OnOk result ((orders : List (ℕ × Order)) → Holds self.old.table orders
            → Holds self.new.table (with_order reference order orders)) }
        ensures told { IfOk result (λ oddity.
            oddity ≡ add_oddity (live_order self.old.table reference) order.shares) }
        ensures others { OnOk result ((side r : ℕ) → (order.side ≡ side → ⊥)
            → depth self.new.table side r ≡ depth self.old.table side r) }
        ensures same { IfOk result (λ oddity. IsSome oddity → self.new.table ≡ self.old.table) }
        ensures sides { length self.new.sides ≡ length self.old.sides }
    {
        if order.shares == 0 {
            return Ok(Some(self.empty_oddity(reference)));
        }
        if !self.table.put(reference, order)? {
            return Ok(Some(Oddity::LiveReference));
        }
        let side = &mut self.sides[order.side as usize];
        if let Err(fault) = side.add(order.rank, order.shares) {
            let _added = self.table.remove(reference);
            return Err(book_fault(fault));
        }
        Ok(None)
    }

    /// Returns what is odd about a new order without shares.
    fn empty_oddity(&self, reference: u64) -> Oddity
        ensures { Some result ≡ add_oddity (live_order self.now.table reference) 0 }
    {
        if self.table.get(reference).is_some() {
            Oddity::LiveReference
        } else {
            Oddity::NoShares
        }
    }

    /// Takes the order of this reference out. Returns it, if there was one.
    fn remove(&mut self, reference: u64) -> Option<Order>
        ensures value { result ≡ live_order self.old.table reference }
        ensures orders { (orders : List (ℕ × Order)) → Holds self.old.table orders
            → Holds self.new.table (without_order reference orders) }
        ensures others { (side r : ℕ) → ((o : Order) → result ≡ Some o → o.side ≡ side → ⊥)
            → depth self.new.table side r ≡ depth self.old.table side r }
        ensures sides { length self.new.sides ≡ length self.old.sides }
        ensures within { IfSome result (λ o. o.side < length self.old.sides) }
    {
        let order = self.table.remove(reference)?;
        let side = &mut self.sides[order.side as usize];
        side.take(order.rank, order.shares);
        Some(order)
    }

    /// Takes these shares of an order away, and where none is left the order. Returns the order as
    /// it was, if there was one.
    fn reduce(&mut self, reference: u64, shares: u32) -> Option<Order>
        ensures value { result ≡ live_order self.old.table reference }
        ensures orders { (orders : List (ℕ × Order)) → Holds self.old.table orders
            → Holds self.new.table (with_less reference shares orders) }
        ensures others { (side r : ℕ) → ((o : Order) → result ≡ Some o → o.side ≡ side → ⊥)
            → depth self.new.table side r ≡ depth self.old.table side r }
        ensures sides { length self.new.sides ≡ length self.old.sides }
        ensures within { IfSome result (λ o. o.side < length self.old.sides) }
    {
        let order = self.table.reduce(reference, shares)?;
        let side = &mut self.sides[order.side as usize];
        side.take(order.rank, order.shares.min(shares));
        Some(order)
    }

    /// Takes these shares of an order away, and where none is left the order.
    pub(crate) fn take(&mut self, reference: u64, shares: u32) -> Step
        ensures orders { (orders : List (ℕ × Order)) → Holds self.old.table orders
            → Holds self.new.table (with_less reference shares orders) }
        ensures oddity { result.oddity ≡ less_oddity (live_order self.old.table reference) shares }
        ensures others { (side r : ℕ) → (result.side ≡ Some side → ⊥)
            → depth self.new.table side r ≡ depth self.old.table side r }
        ensures within { IfSome result.side (λ side. side < length self.old.sides) }
        ensures sides { length self.new.sides ≡ length self.old.sides }
    {
        match self.reduce(reference, shares) {
            None => Step {
                side: None,
                oddity: Some(Oddity::UnknownOrder),
            },
            Some(order) if order.shares < shares => Step {
                side: Some(order.side),
                oddity: Some(Oddity::TooManyShares),
            },
            Some(order) => Step {
                side: Some(order.side),
                oddity: None,
            },
        }
    }

    /// Takes an order out.
    pub(crate) fn delete(&mut self, reference: u64) -> Step
        ensures orders { (orders : List (ℕ × Order)) → Holds self.old.table orders
            → Holds self.new.table (without_order reference orders) }
        ensures oddity { result.oddity ≡ gone_oddity (live_order self.old.table reference) }
        ensures others { (side r : ℕ) → (result.side ≡ Some side → ⊥)
            → depth self.new.table side r ≡ depth self.old.table side r }
        ensures within { IfSome result.side (λ side. side < length self.old.sides) }
        ensures sides { length self.new.sides ≡ length self.old.sides }
    {
        match self.remove(reference) {
            None => Step {
                side: None,
                oddity: Some(Oddity::UnknownOrder),
            },
            Some(order) => Step {
                side: Some(order.side),
                oddity: None,
            },
        }
    }

    /// Puts another order in the place of one.
    pub(crate) fn replace(&mut self, other: &Replacement) -> Result<Step, BookFault>
        ensures orders { OnOk result ((orders : List (ℕ × Order)) → Holds self.old.table orders
            → Holds self.new.table (with_other other.now orders)) }
        ensures oddity { IfOk result (λ step. (orders : List (ℕ × Order))
            → Holds self.old.table orders
            → step.oddity ≡ other_oddity (live_order orders other.now.reference)
            (live_order (without_order other.now.reference orders) other.now.new_reference)
            other.now.shares) }
        ensures others { IfOk result (λ step. (side r : ℕ) → (step.side ≡ Some side → ⊥)
            → depth self.new.table side r ≡ depth self.old.table side r) }
        ensures within { IfOk result (λ step.
            IfSome step.side (λ side. side < length self.old.sides)) }
        ensures sides { length self.new.sides ≡ length self.old.sides }
    {
        let Some(order) = self.remove(other.reference) else {
            return Ok(Step {
                side: None,
                oddity: Some(Oddity::UnknownOrder),
            });
        };
        let new_order = Order {
            side: order.side,
            rank: book_rank(order.side, other.price),
            shares: other.shares,
        };
        let oddity = self.add(other.new_reference, new_order)?;
        Ok(Step {
            side: Some(order.side),
            oddity,
        })
    }

    /// Returns the best level of a side, if its orders reach a lot.
    pub(crate) fn best(&self, side: u32, lot: u32) -> Option<Level>
        requires side { side < length self.now.sides }
        requires lot { 1 ≤ lot }
        ensures { (orders : List (ℕ × Order)) → Holds self.now.table orders
            → IsBestOf lot (depth orders side) result }
    {
        self.sides[side as usize].best(lot)
    }
}
