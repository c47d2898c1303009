//! The beginning of a session at a snapshot: its orders, and what they show.

ghost use Rattle.std.specs.Prelude.{◌≡◌, ℕ, ◌*◌, ◌+◌, ◌-◌, ◌<◌, ◌≤◌, ◌++◌, ◌∷◌, [], List, IfOk, IsTrue, OnOk, length, true};
ghost use Rattle.feed_types.specs.Sessions.{numbered_from};
ghost use Rattle.itch_book.specs.Books.{FitsEvents};
ghost use Rattle.line_arbiter.specs.Fits.{Fits};
ghost use Rattle.line_arbiter.specs.Skips.{AllSent};
ghost use Rattle.line_arbiter.specs.States.{KeepsItsSession};
ghost use Rattle.mold_packet.specs.Block.{AreBlocks, blocks_at};
ghost use Rattle.venue_normaliser.specs.Outputs.{AreShown, events_of, opened_at, row_items};

use crate::putting_out::{drop_ready, put_out};
use crate::snapshot::{Snapshot, first_message};
use feed_types::{Anything, Item, Numbered};
use itch_book::{BookFault, OrderBook, SymbolRow};
use itch_messages::read_event;
use line_arbiter::Arbiter;
use std::alloc::{AllocError, Global};

/// Returns the first of several messages, and the blocks of the others.
#[tactic(auto, using(crate::proofs::Snapshotting::splitting))]
fn split_first(left: usize, blocks: &[u8]) -> (&[u8], &[u8])
    requires blocks { AreBlocks left blocks.now }
    requires some { 0 < left }
    ensures first { blocks_at left blocks.now
        ≡ result.0.now ∷ blocks_at (left - 1) result.1.now }
    ensures rest { AreBlocks (left - 1) result.1.now }
{
    let Some(pair) = first_message(blocks) else {
        unreachable!();
    };
    pair
}

/// Applies the messages of a snapshot to a book.
#[tactic(auto, using(crate::proofs::Making::applied_none, crate::proofs::Making::applied_all))]
pub(crate) fn apply_all(book: &mut OrderBook, snapshot: &Snapshot<'_>) -> Result<(), BookFault>
    ensures fits { OnOk result (FitsEvents book.old []
        → FitsEvents book.new (events_of snapshot.now.messages)) }
    ensures keys { book.new.keys ≡ book.old.keys }
{
    let mut left = snapshot.count;
    let mut rest = snapshot.blocks;
    while left > 0 {
        let (message, after) = split_first(left, rest);
        let event = read_event(message);
        book.apply(&event)?;
        rest = after;
        left -= 1;
    }
    Ok(())
}

/// Puts the items that a symbol's row shows after those in `items`: its quotation, where a side has
/// a best, and its halt.
fn put_row(row: &SymbolRow, items: &mut Vec<Item>) -> Result<(), AllocError>
    ensures { OnOk result (items.new.items ≡ items.old.items ++ row_items row.now) }
{
    if row.quote.bid_size != 0 || row.quote.offer_size != 0 {
        items.push(Item::Quote(row.quote))?;
    }
    if row.trading_halt || row.operational_halt {
        items.push(Item::Halt {
            symbol: row.quote.symbol,
            halted: true,
        })?;
    }
    Ok(())
}

/// Returns the items that show what a book's orders and halts are, symbol by symbol.
pub(crate) fn shown_items(alloc: Global, book: &OrderBook) -> Result<Vec<Item>, BookFault>
    ensures { IfOk result (λ items. (messages : List (List ℕ))
        → FitsEvents book.now (events_of messages)
        → AreShown book.now.keys messages items.items) }
{
    let count = book.symbol_count();
    let mut items = Vec::new(alloc);
    for place in 0..count {
        put_row(&book.row(place), &mut items)?;
    }
    Ok(items)
}

/// Puts out items with their numbers, from `first` on.
pub(crate) fn put_items(
    out: &mut Vec<Numbered>,
    first: u64,
    items: &[Item],
) -> Result<(), BookFault>
    requires { first + length items.now < 18446744073709551616 }
    ensures { OnOk result (out.new.items ≡ out.old.items ++ numbered_from first items.now) }
{
    let mut number = first;
    for item in items {
        put_out(out, number, *item)?;
        number += 1;
    }
    Ok(())
}

/// Gives up the messages before a number in a session of which nothing came, and returns whether
/// that could be; there are none before 1.
#[tactic(auto, using(crate::proofs::Opened::never_refused, crate::proofs::Opened::opened_first))]
fn skip_first(lines: &mut Arbiter<Anything>, number: u64) -> bool
    ensures always { Fits lines.old [] → AllSent [] lines.old.sent → result ≡ true }
    ensures fits { IsTrue result → Fits lines.old [] → Fits lines.new (opened_at number) }
    ensures kept { KeepsItsSession lines.old lines.new }
{
    if number <= 1 {
        return true;
    }
    match lines.skip_to(number) {
        Ok(()) => true,
        Err(_) => false,
    }
}

/// Has the lines of a session of which nothing came go on from a number, and returns whether they
/// do; what lies before it isn't missing then.
pub(crate) fn begin_at(lines: &mut Arbiter<Anything>, number: u64) -> bool
    ensures always { Fits lines.old [] → AllSent [] lines.old.sent → result ≡ true }
    ensures fits { IsTrue result → Fits lines.old []
        → Fits lines.new (opened_at number) × AllSent (opened_at number) lines.new.sent }
    ensures kept { KeepsItsSession lines.old lines.new }
{
    if !skip_first(lines, number) {
        return false;
    }
    drop_ready(lines);
    true
}
