//! The putting out of messages: each is applied to the orders, and its item follows what is there.

ghost use Rattle.std.specs.Prelude.{◌≡◌, ℕ, ◌+◌, ◌*◌, ◌<◌, ◌≤◌, ◌++◌, ◌∷◌, [], List, MatchBool, OnOk, false, length};
ghost use Rattle.itch_messages.specs.Events.{order_event_of};
ghost use Rattle.line_arbiter.specs.Packets.{Input};
ghost use Rattle.line_arbiter.specs.Fits.{Fits};
ghost use Rattle.line_arbiter.specs.Skips.{AllSent};
ghost use Rattle.line_arbiter.specs.States.{KeepsAllButSent};
ghost use Rattle.venue_normaliser.specs.Slots.{KeepsTaken};
ghost use Rattle.venue_normaliser.specs.Inside.{PutsMany, PutsOneItem, PutsReady};

use crate::message_slot::MessageSlot;
use crate::message_slots::message_of;
use feed_types::{Anything, Item, Numbered};
use itch_book::{BookFault, OrderBook};
use itch_messages::read_event;
use line_arbiter::Arbiter;
use mold_packet::Packet;

/// Puts out an item with its number. A refusal of memory is `NoMemory`.
#[inline(always)]
pub(crate) fn put_out(out: &mut Vec<Numbered>, number: u64, item: Item) -> Result<(), BookFault>
    ensures { OnOk result (out.new.items
        ≡ out.old.items ++ record { number = number; item = item } ∷ []) }
{
    match out.push(Numbered { number, item }) {
        Ok(()) => Ok(()),
        Err(_) => Err(BookFault::NoMemory),
    }
}

/// Returns whether the item is the end of a session.
#[inline(always)]
fn is_end(item: &Item) -> bool
    ensures { MatchBool result (item.now ≡ Item.End) (item.now ≡ Item.End → ⊥) }
{
    matches!(item, Item::End)
}

/// Applies the message of a number, and puts its item out.
#[inline(always)]
fn put_message(
    book: &mut OrderBook,
    number: u64,
    message: &[u8],
    out: &mut Vec<Numbered>,
) -> Result<(), BookFault>
    ensures put { OnOk result (PutsOneItem number (order_event_of message.now) book.old book.new
        out.old.items out.new.items) }
    ensures keys { book.new.keys ≡ book.old.keys }
{
    let event = read_event(message);
    // For the prover alone: each symbol has a row.
    let _rows_before = book.symbol_count();
    let item = book.apply(&event)?;
    let _rows_after = book.symbol_count();
    put_out(out, number, item)?;
    Ok(())
}

/// Applies a packet's messages, and puts their items out.
#[inline(always)]
pub(crate) fn put_packet(
    book: &mut OrderBook,
    packet: &Packet<'_>,
    out: &mut Vec<Numbered>,
) -> Result<(), BookFault>
    ensures put { OnOk result (PutsMany packet.now.number packet.now.messages book.old book.new
        out.old.items out.new.items) }
    ensures keys { book.new.keys ≡ book.old.keys }
{
    let first = packet.number();
    let mut messages = packet.messages();
    let mut place: u64 = 0;
    while let Some(message) = messages.next() {
        put_message(book, first + place, message, out)?;
        place += 1;
    }
    Ok(())
}

/// Puts out all that is ready: the messages of the slots, one by one, and the end where it follows.
pub(crate) fn put_ready(
    lines: &mut Arbiter<Anything>,
    slots: &[MessageSlot],
    book: &mut OrderBook,
    out: &mut Vec<Numbered>,
) -> Result<(), BookFault>
    requires { 1 ≤ length slots.now }
    ensures put { OnOk result ((packets : List Input) → Fits lines.old packets
        → KeepsTaken slots.now lines.old.sent packets
        → PutsReady packets slots.now lines.old lines.new book.old book.new
        out.old.items out.new.items) }
    ensures keys { book.new.keys ≡ book.old.keys }
    ensures kept { KeepsAllButSent lines.old lines.new }
{
    while let Some(ready) = lines.take_ready() {
        if is_end(&ready.item) {
            put_out(out, ready.number, ready.item)?;
            return Ok(());
        }
        let message = message_of(slots, ready.number);
        put_message(book, ready.number, message, out)?;
    }
    Ok(())
}

/// Takes out all that is ready, and puts nothing out.
pub(crate) fn drop_ready(lines: &mut Arbiter<Anything>)
    ensures fits { (packets : List Input) → Fits lines.old packets
        → Fits lines.new packets × AllSent packets lines.new.sent }
    ensures kept { KeepsAllButSent lines.old lines.new }
{
    while let Some(_ready) = lines.take_ready() {}
}
