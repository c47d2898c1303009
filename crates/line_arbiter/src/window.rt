//! A window: the messages that were taken and not yet sent on, in a circular buffer of places by
//! number, with a bitmap of the numbers that are held beside it.

ghost use Rattle.std.specs.Prelude.{◌≡◌, ℕ, ◌+◌, ◌-◌, ◌^◌, ◌<◌, ◌≤◌, ◌++◌, ◌∷◌, [], ◌⊎◌, None, Some, length, min, replicate, slice_set, nat_eq, if◌then◌else◌, IfOk, IsSome, IsTrue, MatchBool, is_some};
ghost use Rattle.std.specs.Option.{option_and_then, option_copied};
ghost use Rattle.line_arbiter.specs.Holding.{held_at, IsEmpty};
ghost use Rattle.line_arbiter.specs.Filling.{count_held, put_at, put_one, IsNextHeld};

use crate::marks::{first_number, has_mark, mark, no_marks, unmark};
use circular_buffer::HeapCircularBuffer;
use feed_types::{Item, Quote};
use std::alloc::{AllocError, Global};
use std::marker::Model;

/// Places for the numbers from `base_number + 1` on, at most as many as the window is wide. A place
/// holds the item of its number, or nothing; the last place holds one. The bitmap says of each of
/// the 65,536 numbers past the base whether it is held.
#[derive(Drop)]
pub(crate) struct Window {
    base_number: u64,
    held_items: u32,
    places: HeapCircularBuffer<Option<Item>>,
    marks: Vec<u64>,
}

impl Model for Window {
    ghost use Rattle.line_arbiter.specs.Holding.{Held};

    ghost Value = { Held };

    ghost use Rattle.line_arbiter.specs.Inside.{window_inside, IsWindow};

    ghost view = { window_inside };

    ghost invariant = { λ w. IsWindow w };
}

/// Returns the same item, copied part by part: a copy of the whole would be taken apart where it is
/// used, in pieces that overlap, and each wait for the one before it.
#[inline(always)]
fn copy_fields(item: &Item) -> Item
    ensures { result ≡ item.now }
{
    match item {
        Item::Quote(quote) => Item::Quote(Quote {
            symbol: quote.symbol,
            bid_auto: quote.bid_auto,
            offer_auto: quote.offer_auto,
            bid_price: quote.bid_price,
            bid_size: quote.bid_size,
            offer_size: quote.offer_size,
            offer_price: quote.offer_price,
        }),
        Item::Halt { symbol, halted } => Item::Halt {
            symbol: *symbol,
            halted: *halted,
        },
        Item::Other => Item::Other,
        Item::End => Item::End,
        Item::Skipped => Item::Skipped,
    }
}

/// Adds a place after the last one, for which there is room.
#[inline]
fn add_place(places: &mut HeapCircularBuffer<Option<Item>>, place: Option<Item>)
    requires { length places.old.items < places.old.capacity }
    ensures items { places.new.items ≡ places.old.items ++ place ∷ [] }
    ensures capacity { places.new.capacity ≡ places.old.capacity }
{
    places.push_back(place);
}

/// Adds empty places after the last one until there are `count`.
fn pad_to(places: &mut HeapCircularBuffer<Option<Item>>, count: usize)
    requires { count ≤ places.old.capacity }
    ensures items { places.new.items
        ≡ places.old.items ++ replicate (count - length places.old.items) None }
    ensures capacity { places.new.capacity ≡ places.old.capacity }
{
    while places.len() < count {
        add_place(places, None);
    }
}

/// Puts the item into an existing place.
#[inline]
fn fill(places: &mut HeapCircularBuffer<Option<Item>>, place: usize, item: Item)
    requires { place < length places.old.items }
    ensures items { places.new.items ≡ slice_set places.old.items place (Some item) }
    ensures capacity { places.new.capacity ≡ places.old.capacity }
{
    if let Some(found) = places.get_mut(place) {
        *found = Some(item);
    }
}

/// Puts the item into a place, with empty places before it where there are none.
#[inline(always)]
fn put(places: &mut HeapCircularBuffer<Option<Item>>, place: usize, item: Item)
    requires { place < places.old.capacity }
    ensures items { places.new.items ≡ put_at places.old.items place item }
    ensures capacity { places.new.capacity ≡ places.old.capacity }
{
    if place < places.len() {
        fill(places, place, item);
    } else {
        pad_to(places, place);
        add_place(places, Some(item));
    }
}

/// Returns whether the place holds an item.
#[inline]
fn is_held(place: &Option<Option<Item>>) -> bool
    ensures { result ≡ is_some (option_and_then (λ held. held) place.now) }
{
    matches!(place, Some(Some(_)))
}

/// Returns the item that the place holds.
#[inline(always)]
fn held_in(place: &Option<Option<Item>>) -> Option<Item>
    ensures { result ≡ option_and_then (λ held. held) place.now }
{
    match place {
        Some(held) => *held,
        None => None,
    }
}

/// Returns the count without the one that is gone, if one is.
#[inline(always)]
fn without_gone(count: u32, is_gone: bool) -> u32
    requires { (if is_gone then 1 else 0) ≤ count }
    ensures { count ≡ result + (if is_gone then 1 else 0) }
{
    if is_gone { count - 1 } else { count }
}

impl Window {
    /// Returns an empty window of `width` places. This alone takes memory, and writes no place.
    pub(crate) fn new(alloc: Global, width: u32) -> Result<Window, AllocError>
        requires some { 1 ≤ width }
        requires most { width ≤ 65535 }
        ensures base { IfOk result (λ w. w.base ≡ 0) }
        ensures width { IfOk result (λ w. w.width ≡ width) }
        ensures empty { IfOk result IsEmpty }
    {
        let places = HeapCircularBuffer::with_capacity(alloc, width as usize)?;
        let marks = no_marks(alloc)?;
        Ok(Window {
            base_number: 0,
            held_items: 0,
            places,
            marks,
        })
    }

    /// Returns the number after which the places begin.
    pub(crate) fn base(&self) -> u64
        ensures { result ≡ self.now.base }
    {
        self.base_number
    }

    /// Returns the greatest number of places.
    pub(crate) fn width(&self) -> u32
        ensures value { result ≡ self.now.width }
        ensures least { 1 ≤ result }
        ensures most { result ≤ 65535 }
    {
        self.places.capacity() as u32
    }

    /// Returns the number of places that hold an item.
    pub(crate) fn count(&self) -> u32
        ensures { result ≡ count_held self.now }
    {
        self.held_items
    }

    /// Returns the last number that has a place; where there is none, the base.
    #[inline]
    fn last(&self) -> u64
        ensures value { result ≡ self.now.base + length self.now.places }
        ensures small { result < 2 ^ 64 }
    {
        self.base_number + self.places.len() as u64
    }

    /// Lends the item that is held at the number.
    pub(crate) fn get(&self, number: u64) -> Option<&Item>
        ensures { option_copied result ≡ held_at self.now number }
    {
        if number <= self.base_number {
            return None;
        }
        let place = (number - self.base_number - 1) as usize;
        match self.places.get(place) {
            Some(Some(item)) => Some(item),
            Some(None) | None => None,
        }
    }

    /// Returns the item that is held at the first place.
    pub(crate) fn first(&self) -> Option<Item>
        ensures value { result ≡ held_at self.now (self.now.base + 1) }
        ensures small { IsSome result → self.now.base + 1 < 2 ^ 64 }
    {
        match self.places.front() {
            Some(Some(item)) => Some(copy_fields(item)),
            Some(None) | None => None,
        }
    }

    /// Returns whether nothing is held.
    #[inline]
    pub(crate) fn is_empty(&self) -> bool
        ensures { MatchBool result (IsEmpty self.now)
            ((m : ℕ) × IsSome (held_at self.now m)) }
    {
        self.places.is_empty()
    }

    /// Returns whether an item is held at the number or above it.
    pub(crate) fn holds_from(&self, number: u64) -> bool
        ensures { MatchBool result ((m : ℕ) × (number ≤ m) × IsSome (held_at self.now m))
            ((m : ℕ) → IsSome (held_at self.now m) → m < number) }
    {
        !self.places.is_empty() && number <= self.last()
    }

    /// Returns whether the number is past all places, so that nothing is held at it.
    #[inline(always)]
    #[tactic(auto, using(crate::proofs::Windows::above_last))]
    pub(crate) fn is_past_last(&self, number: u64) -> bool
        ensures past { IsTrue result → self.now.base < number }
        ensures free { IsTrue result → held_at self.now number ≡ None }
    {
        number > self.last()
    }

    /// Returns whether an item is held below the number.
    pub(crate) fn holds_below(&self, number: u64) -> bool
        ensures { MatchBool result ((m : ℕ) × (m < number) × IsSome (held_at self.now m))
            ((m : ℕ) → IsSome (held_at self.now m) → number ≤ m) }
    {
        match self.first_after(self.base_number) {
            Some(first) => first < number,
            None => false,
        }
    }

    /// Returns whether an item can be held at the number: it is past the base, and nothing is.
    pub(crate) fn can_hold(&self, number: u64) -> bool
        requires { number ≤ self.now.base + self.now.width }
        ensures { MatchBool result
            ((self.now.base < number) × (held_at self.now number ≡ None))
            ((number ≤ self.now.base) ⊎ IsSome (held_at self.now number)) }
    {
        number > self.base_number && !has_mark(self.marks.as_slice(), number)
    }

    /// Returns whether the number's place is the one after the last.
    #[inline(always)]
    pub(crate) fn is_next_place(&self, number: u64) -> bool
        requires { self.now.base < number }
        ensures { IsTrue result → number ≡ self.now.base + length self.now.places + 1 }
    {
        let place = (number - self.base_number - 1) as usize;
        place == self.places.len()
    }

    /// Holds the item at a number that is free.
    #[inline(always)]
    pub(crate) fn hold(&mut self, number: u64, item: Item)
        requires past { self.old.base < number }
        requires free { held_at self.old number ≡ None }
        requires within { number ≤ self.old.base + self.old.width }
        ensures held { (m : ℕ)
            → held_at self.new m ≡ put_one self.old.base number item (held_at self.old m) m }
        ensures base { self.new.base ≡ self.old.base }
        ensures width { self.new.width ≡ self.old.width }
    {
        let place = (number - self.base_number - 1) as usize;
        put(&mut self.places, place, item);
        mark(&mut self.marks, number);
        self.held_items += 1;
    }

    /// Goes past the first place, and returns what it held. The bit of its number is then that of
    /// the number 65,536 further.
    #[inline(always)]
    pub(crate) fn pass(&mut self) -> Option<Item>
        requires { held_at self.old (self.old.base + 1) ≡ None → self.old.base + 1 < 2 ^ 64 }
        ensures value { result ≡ held_at self.old (self.old.base + 1) }
        ensures base { self.new.base ≡ self.old.base + 1 }
        ensures width { self.new.width ≡ self.old.width }
        ensures held { (m : ℕ)
            → held_at self.new m
            ≡ (if nat_eq m (self.old.base + 1) then None else held_at self.old m) }
    {
        let first = self.places.pop_front();
        self.held_items = without_gone(self.held_items, is_held(&first));
        self.base_number += 1;
        unmark(&mut self.marks, self.base_number);
        held_in(&first)
    }

    /// Places the empty window after a number.
    pub(crate) fn move_to(&mut self, number: u64)
        requires { IsEmpty self.old }
        ensures base { self.new.base ≡ number }
        ensures width { self.new.width ≡ self.old.width }
        ensures empty { IsEmpty self.new }
    {
        self.base_number = number;
    }

    /// Holds Skipped at a number up to which nothing is held, and begins its places with it.
    pub(crate) fn give_up(&mut self, number: u64)
        requires past { self.old.base < number }
        requires free { (m : ℕ) → m ≤ number → held_at self.old m ≡ None }
        ensures base { self.new.base + 1 ≡ number }
        ensures width { self.new.width ≡ self.old.width }
        ensures held { (m : ℕ)
            → held_at self.new m
            ≡ (if nat_eq m number then Some Item.Skipped else held_at self.old m) }
    {
        // For the prover alone: there is a place.
        let _width = self.width();
        let before = number - 1;
        while self.base_number < before && !self.is_empty() {
            self.pass();
        }
        if self.base_number < before {
            self.move_to(before);
        }
        self.hold(number, Item::Skipped);
    }

    /// Returns the last number of the run of held numbers that goes on past `front`; `front` itself
    /// where the next number isn't held. It is a call of its own, as `first_after` is, so that the
    /// way of a packet that leaves a gap is short.
    #[inline(never)]
    pub(crate) fn run_end(&self, front: u64) -> u64
        ensures from { front ≤ result }
        ensures run { (m : ℕ) → front < m → m ≤ result → IsSome (held_at self.now m) }
        ensures stop { held_at self.now (result + 1) ≡ None }
    {
        let last = self.last();
        if front < self.base_number || front >= last {
            return front;
        }
        let end = first_number(self.marks.as_slice(), false, front + 1, last);
        if end < last { end - 1 } else { last }
    }

    /// Returns the greatest number that may have a place.
    pub(crate) fn reach(&self) -> u64
        ensures value { result ≡ min (self.now.base + self.now.width) 18446744073709551615 }
        ensures near { result ≤ self.now.base + 65535 }
    {
        self.base_number
            .saturating_add(self.places.capacity() as u64)
    }

    /// Returns the lowest number past `front` that is held, if any.
    #[inline(never)]
    pub(crate) fn first_after(&self, front: u64) -> Option<u64>
        requires { self.now.base ≤ front }
        ensures { IsNextHeld self.now front result }
    {
        let last = self.last();
        if front >= last {
            return None;
        }
        Some(first_number(self.marks.as_slice(), true, front + 1, last))
    }
}
