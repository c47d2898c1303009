//! A lane of the machine: everything that was ever put in, and how much of it was taken out.

ghost use Rattle.std.specs.Prelude.{◌≡◌, ◌++◌, ◌∷◌, [], None, IfSome, OnOk, OnErr};
ghost use Rattle.feed_core.specs.Worlds.{empty_lane, inside, is_full as full_of};
ghost use Rattle.feed_core.specs.Steps.{next_out};

use std::alloc::{AllocError, Global};
use std::marker::Model;

/// Items in the order in which they were put in. Items that were taken out stay, before the others.
#[derive(Drop)]
pub(crate) struct Lane<T> {
    items: Vec<T>,
    taken: usize,
}

impl<T> Model for Lane<T> {
    ghost use Rattle.std.specs.Prelude.{◌≤◌, take, length};
    ghost use Rattle.feed_core.specs.Worlds.{Lane as LaneView};
    ghost use Rattle.feed_core.specs.LaneCode.{lane_code};

    ghost Value = { LaneView T };

    ghost coded = { lane_code T.code };

    ghost view = { λ l. record { sent = l.items.items; received = take l.taken l.items.items } };

    ghost invariant = { λ l. l.taken ≤ length l.items.items };
}

impl<T: Drop> Lane<T> {
    pub(crate) fn new(alloc: Global) -> Lane<T>
        ensures { result ≡ empty_lane }
    {
        Lane {
            items: Vec::new(alloc),
            taken: 0,
        }
    }

    /// Whether the lane holds `capacity` items or more.
    pub(crate) fn is_full(&self, capacity: u32) -> bool
        ensures { result ≡ full_of capacity self.now }
    {
        capacity as usize <= self.items.len() - self.taken
    }

    /// Puts an item in after the others. Fails where memory was refused.
    pub(crate) fn put(&mut self, item: T) -> Result<(), AllocError>
        ensures ok { OnOk result (self.new
            ≡ record self.old { sent = self.old.sent ++ item ∷ [] }) }
        ensures err { OnErr result (self.new ≡ self.old) }
    {
        match self.items.push(item) {
            Ok(()) => Ok(()),
            Err(_) => Err(AllocError),
        }
    }

    /// The items that were taken out.
    pub(crate) fn received(&self) -> &[T]
        ensures { result.now ≡ self.now.received }
    {
        &self.items.as_slice()[..self.taken]
    }

    /// The items that are inside.
    pub(crate) fn inside(&self) -> &[T]
        ensures { result.now ≡ inside self.now }
    {
        &self.items.as_slice()[self.taken..]
    }
}

impl<T: Copy + Drop> Lane<T> {
    /// Takes the next item out and returns it; none where the lane is empty.
    pub(crate) fn next(&mut self) -> Option<T>
        ensures next { result ≡ next_out self.old }
        ensures some { IfSome result (λ x. self.new
            ≡ record self.old { received = self.old.received ++ x ∷ [] }) }
        ensures none { result ≡ None → self.new ≡ self.old }
    {
        let next = self.items.get(self.taken).copied()?;
        self.taken += 1;
        Some(next)
    }
}
