//! A packet's messages against a window, and into it.
//!
//! A packet of a single message is held at once, and compared only where it can't be; one of many
//! is compared first, so that nothing is held of it where one differs.

ghost use Rattle.std.specs.Prelude.{◌≡◌, ◌≢◌, ◌↔◌, ℕ, ◌+◌, ◌<◌, ◌≤◌, None, IsSome, IsTrue, length, MatchBool, false};
ghost use Rattle.quote_payload.specs.Payload.{item_of};
ghost use Rattle.line_arbiter.specs.Holding.{held_at};
ghost use Rattle.line_arbiter.specs.Filling.{put_one, put_all, fresh_to, IsHeldFrom, IsNextHeld};
ghost use Rattle.line_arbiter.specs.Comparing.{Compares, ComparesOne, AreThere, HoldsAll, TakesAll};

use crate::window::Window;
use feed_types::Item;
use mold_packet::Packet;
use quote_payload::read_item;

/// Returns whether the items differ. It is a call of its own, so that both are in memory and
/// symbols compare as words.
#[inline(never)]
fn differ(a: &Item, b: &Item) -> bool
    ensures { MatchBool result (a.now ≢ b.now) (a.now ≡ b.now) }
{
    a != b
}

/// The result of comparing a packet's messages with those that are held.
#[derive(Clone, Copy, Debug, PartialEq, Eq)]
pub(crate) enum Comparison {
    /// A held message reads otherwise.
    Differs,
    /// Each message was sent, or is held and reads the same.
    Repeats,
    /// The messages that are held read the same.
    Agrees,
}

/// Compares the message with the one that is held at the number. It is read only where one is.
fn compare_one(window: &Window, number: u64, message: &[u8]) -> Comparison
    ensures { ComparesOne window.now number (item_of message.now) result }
{
    match window.get(number) {
        Some(found) if differ(found, &read_item(message)) => match found {
            Item::Skipped => Comparison::Repeats,
            _ => Comparison::Differs,
        },
        Some(_) => Comparison::Repeats,
        None if number <= window.base() => Comparison::Repeats,
        None => Comparison::Agrees,
    }
}

/// Compares the packet's messages with those that are held, each with its own.
#[inline(never)]
fn compare_many(window: &Window, packet: &Packet<'_>) -> Comparison
    ensures { Compares window.now packet.now result }
{
    let first = packet.number();
    let mut all_there = true;
    for (i, message) in packet.messages().enumerate() {
        match compare_one(window, first + i as u64, message) {
            Comparison::Differs => return Comparison::Differs,
            Comparison::Repeats => {}
            Comparison::Agrees => all_there = false,
        }
    }
    if all_there {
        Comparison::Repeats
    } else {
        Comparison::Agrees
    }
}

/// Compares the packet's messages with those that are held. Where all held ones are below the
/// packet, as most often, its messages aren't walked.
#[inline(always)]
fn compare(window: &Window, packet: &Packet<'_>) -> Comparison
    requires { packet.now.number + length packet.now.messages
        ≤ window.now.base + window.now.width + 1 }
    ensures { Compares window.now packet.now result }
{
    if !window.holds_from(packet.number()) {
        Comparison::Agrees
    } else {
        compare_many(window, packet)
    }
}

/// Holds the message where its number is past the base and free, and returns whether it did.
#[inline(never)]
fn put(window: &mut Window, number: u64, message: &[u8]) -> bool
    requires { number ≤ window.old.base + window.old.width }
    ensures after { (m : ℕ) → held_at window.new m
        ≡ put_one window.old.base number (item_of message.now) (held_at window.old m) m }
    ensures told { IsTrue result ↔ ((window.old.base < number)
        × (held_at window.old number ≡ None)) }
    ensures base { window.new.base ≡ window.old.base }
    ensures width { window.new.width ≡ window.old.width }
    ensures same { result ≡ false → window.new ≡ window.old }
{
    if !window.can_hold(number) {
        return false;
    }
    window.hold(number, read_item(message));
    true
}

/// Holds the packet's messages past the base where nothing is held, and returns how many it held.
#[inline(never)]
fn fill_many(window: &mut Window, packet: &Packet<'_>) -> u16
    requires { packet.now.number + length packet.now.messages
        ≤ window.old.base + window.old.width + 1 }
    ensures after { (m : ℕ) → held_at window.new m
        ≡ put_all window.old.base packet.now (held_at window.old m) m }
    ensures count { result
        ≡ fresh_to (length packet.now.messages) window.old.base window.old packet.now }
    ensures base { window.new.base ≡ window.old.base }
    ensures width { window.new.width ≡ window.old.width }
{
    let first = packet.number();
    let mut count: u16 = 0;
    for (i, message) in packet.messages().enumerate() {
        let is_new = put(window, first + i as u64, message);
        count += u16::from(is_new);
    }
    count
}

/// The result of taking a packet's messages into a window.
#[derive(Clone, Copy, Debug, PartialEq, Eq)]
pub(crate) enum Intake {
    /// A held message reads otherwise; no further one is held.
    Differs,
    /// Each message was sent, or is held and reads the same.
    Repeats,
    /// This many messages are held that weren't before.
    Holds(u16),
}

/// Holds the message at a number past all places. A quotation in the next place is written there
/// field by field; anything else is rare.
#[inline(never)]
fn append(window: &mut Window, number: u64, message: &[u8])
    requires past { window.old.base < number }
    requires free { held_at window.old number ≡ None }
    requires within { number ≤ window.old.base + window.old.width }
    ensures after { (m : ℕ) → held_at window.new m
        ≡ put_one window.old.base number (item_of message.now) (held_at window.old m) m }
    ensures base { window.new.base ≡ window.old.base }
    ensures width { window.new.width ≡ window.old.width }
{
    match read_item(message) {
        Item::Quote(quote) if window.is_next_place(number) => {
            window.hold(number, Item::Quote(quote));
        }
        _ => {
            put(window, number, message);
        }
    }
}

/// Takes a packet of a single message: it is compared only where it can't be held.
#[inline(never)]
fn take_among(window: &mut Window, packet: &Packet<'_>) -> Intake
    requires one { length packet.now.messages ≡ 1 }
    requires within { packet.now.number ≤ window.old.base + window.old.width }
    ensures { TakesAll window.old window.new packet.now result }
{
    let number = packet.number();
    let Some(message) = packet.messages().next() else {
        return Intake::Repeats;
    };
    if window.can_hold(number) {
        window.hold(number, read_item(message));
        return Intake::Holds(1);
    }
    match compare_one(window, number, message) {
        Comparison::Differs => Intake::Differs,
        Comparison::Repeats | Comparison::Agrees => Intake::Repeats,
    }
}

/// Takes a packet of a single message, which most often is past all places.
#[inline(always)]
fn take_single(window: &mut Window, packet: &Packet<'_>) -> Intake
    requires one { length packet.now.messages ≡ 1 }
    requires within { packet.now.number ≤ window.old.base + window.old.width }
    ensures { TakesAll window.old window.new packet.now result }
{
    let number = packet.number();
    if window.is_past_last(number)
        && let Some(message) = packet.messages().next()
    {
        append(window, number, message);
        return Intake::Holds(1);
    }
    take_among(window, packet)
}

/// Takes a packet of any number of messages: they are compared first.
#[inline(never)]
fn take_many(window: &mut Window, packet: &Packet<'_>) -> Intake
    requires { packet.now.number + length packet.now.messages
        ≤ window.old.base + window.old.width + 1 }
    ensures { TakesAll window.old window.new packet.now result }
{
    match compare(window, packet) {
        Comparison::Differs => Intake::Differs,
        Comparison::Repeats => Intake::Repeats,
        Comparison::Agrees => Intake::Holds(fill_many(window, packet)),
    }
}

/// Holds the packet's messages past the base that aren't held, unless one that is reads otherwise.
#[inline(always)]
pub(crate) fn take_all(window: &mut Window, packet: &Packet<'_>) -> Intake
    requires { packet.now.number + length packet.now.messages
        ≤ window.old.base + window.old.width + 1 }
    ensures { TakesAll window.old window.new packet.now result }
{
    if packet.count() == 1 {
        take_single(window, packet)
    } else {
        take_many(window, packet)
    }
}

/// Returns the last number of the run of held numbers that goes on past `front`, where the newest
/// ones are `number` and greater ones.
#[inline(always)]
pub(crate) fn run_after(window: &Window, front: u64, number: u64) -> u64
    requires one { 1 ≤ number }
    requires stays { front + 1 < number → held_at window.now (front + 1) ≡ None }
    ensures from { front ≤ result }
    ensures run { (m : ℕ) → front < m → m ≤ result → IsSome (held_at window.now m) }
    ensures stop { held_at window.now (result + 1) ≡ None }
{
    if number - 1 > front {
        return front;
    }
    window.run_end(front)
}

/// Returns the lowest number past `front` that is held, once the front moved over a packet's
/// messages, from `number` on. `next_held` is the lowest that was held before.
#[inline(always)]
pub(crate) fn next_after(
    window: &Window,
    front: u64,
    next_held: Option<u64>,
    number: u64,
) -> Option<u64>
    requires { IsHeldFrom window.now front number next_held }
    ensures { IsNextHeld window.now front result }
{
    let Some(next) = next_held else {
        return if number > front { Some(number) } else { None };
    };
    if next <= front {
        return window.first_after(front);
    }
    if number > front {
        return Some(next.min(number));
    }
    Some(next)
}
