//! The writing of a message, for tests and tools. A writer spells its form's fields in order.

ghost use Rattle.std.specs.Prelude.{◌≡◌, ◌+◌, ◌≤◌, ◌++◌, [], ◌∷◌, IsTrue, length, take, replicate};
ghost use Rattle.std.specs.Int.{w32, w64, to_be_bytes};
ghost use Rattle.feed_types.specs.Symbols.{is_symbol_field};
ghost use Rattle.itch_messages.specs.Events.{order_event_of};
ghost use Rattle.itch_messages.specs.Encoded.{IsInRange, head_bytes, side_byte, halt_byte, order_bytes, less_bytes, delete_bytes, replacement_bytes, symbol_bytes};

use crate::event::{HaltKind, NewOrder, OrderEvent, Replacement};
use crate::form::{
    ADD, ATTRIBUTED_ADD, BUY, CANCEL, DELETE, DIRECTORY, EXECUTED, EXECUTED_AT, HALTED,
    OPERATIONAL_HALT, REPLACE, SELL, TRADING, TRADING_ACTION,
};
use feed_types::{Side, SymbolName};

/// Puts a field after the fields that were written before it.
fn put<const N: usize>(message: &mut [u8], offset: usize, field: [u8; N])
    requires { offset + N ≤ length message.old }
    ensures { take (offset + N) message.new ≡ take offset message.old ++ field.entry }
{
    message[offset..offset + N].copy_from_slice(&field);
}

/// Returns one field after others.
fn join<const A: usize, const B: usize, const LEN: usize>(
    front: [u8; A],
    field: [u8; B],
) -> [u8; LEN]
    requires { LEN ≡ A + B }
    ensures { result ≡ front.entry ++ field.entry }
{
    let mut joined = [0; LEN];
    put(&mut joined, 0, front);
    put(&mut joined, A, field);
    joined
}

/// Returns the front of each form.
fn head(kind: u8, locate: u16) -> [u8; 11]
    ensures { result ≡ head_bytes kind locate }
{
    let front: [u8; 3] = join([kind], locate.to_be_bytes());
    join(front, [0; 8])
}

/// Returns the byte of a side.
fn side_code(side: Side) -> u8
    ensures { result ≡ side_byte side }
{
    match side {
        Side::Bid => BUY,
        Side::Offer => SELL,
    }
}

/// Returns the byte of a halt, or of its end.
fn halt_code(halted: bool) -> u8
    ensures { result ≡ halt_byte halted }
{
    if halted { HALTED } else { TRADING }
}

/// Returns a new order as a message of 36 bytes, or as the front of one.
fn order_message(kind: u8, order: &NewOrder) -> [u8; 36]
    ensures bytes { result ≡ order_bytes kind order.now }
    ensures in_range { IsInRange order.now }
{
    let NewOrder {
        symbol,
        reference,
        shares,
        price,
        locate,
        side,
    } = *order;
    let front: [u8; 19] = join(head(kind, locate), reference.to_be_bytes());
    let front: [u8; 20] = join(front, [side_code(side)]);
    let front: [u8; 24] = join(front, shares.to_be_bytes());
    let front: [u8; 32] = join(front, symbol.field());
    join(front, price.to_be_bytes())
}

/// Returns the shares that are gone from an order as a message of 23 bytes, or as the front of one.
fn less_message(kind: u8, locate: u16, reference: u64, shares: u32) -> [u8; 23]
    ensures { result ≡ less_bytes kind locate reference shares }
{
    let front: [u8; 19] = join(head(kind, locate), reference.to_be_bytes());
    join(front, shares.to_be_bytes())
}

/// Returns a symbol, with what its form has after it, as a message.
fn symbol_message<const N: usize, const LEN: usize>(
    kind: u8,
    locate: u16,
    symbol: SymbolName,
    rest: [u8; N],
) -> [u8; LEN]
    requires { LEN ≡ 19 + N }
    ensures bytes { result ≡ symbol_bytes kind locate symbol rest.entry }
    ensures symbol { IsTrue (is_symbol_field symbol) }
{
    let front: [u8; 19] = join(head(kind, locate), symbol.field());
    join(front, rest)
}

/// Returns a new order as a message of type `A`.
pub fn write_add(order: &NewOrder) -> [u8; 36]
    ensures bytes { result ≡ order_bytes 0x41 order.now }
    ensures event { order_event_of result ≡ OrderEvent.Add order.now }
{
    order_message(ADD, order)
}

/// Returns a new order as a message of type `F`, with its attribution: the four bytes of a market
/// participant.
pub fn write_attributed_add(order: &NewOrder, attribution: [u8; 4]) -> [u8; 40]
    ensures bytes { result ≡ order_bytes 0x46 order.now ++ attribution }
    ensures event { order_event_of result ≡ OrderEvent.Add order.now }
{
    join(order_message(ATTRIBUTED_ADD, order), attribution)
}

/// Returns an execution of these shares of an order, at its own price, as a message of type `E`
/// without a match number.
pub fn write_executed(locate: u16, reference: u64, shares: u32) -> [u8; 31]
    ensures bytes { result ≡ less_bytes 0x45 locate reference shares ++ replicate 8 0 }
    ensures event { order_event_of result ≡ OrderEvent.Reduce reference shares }
{
    join(less_message(EXECUTED, locate, reference, shares), [0; 8])
}

/// Returns an execution of these shares of an order, at another price, as a message of type `C`
/// without a match number, printable.
pub fn write_executed_at(locate: u16, reference: u64, shares: u32, price: u32) -> [u8; 36]
    ensures bytes { result ≡ less_bytes 0x43 locate reference shares
        ++ replicate 8 0 ++ (0x59 ∷ []) ++ to_be_bytes w32 price }
    ensures event { order_event_of result ≡ OrderEvent.Reduce reference shares }
{
    let front: [u8; 31] = join(less_message(EXECUTED_AT, locate, reference, shares), [0; 8]);
    let front: [u8; 32] = join(front, [b'Y']);
    join(front, price.to_be_bytes())
}

/// Returns a cancellation of these shares of an order as a message of type `X`.
pub fn write_cancel(locate: u16, reference: u64, shares: u32) -> [u8; 23]
    ensures bytes { result ≡ less_bytes 0x58 locate reference shares }
    ensures event { order_event_of result ≡ OrderEvent.Reduce reference shares }
{
    less_message(CANCEL, locate, reference, shares)
}

/// Returns a cancellation of a whole order as a message of type `D`.
pub fn write_delete(locate: u16, reference: u64) -> [u8; 19]
    ensures bytes { result ≡ delete_bytes locate reference }
    ensures event { order_event_of result ≡ OrderEvent.Delete reference }
{
    join(head(DELETE, locate), reference.to_be_bytes())
}

/// Returns a replacement of an order as a message of type `U`.
pub fn write_replace(locate: u16, other: &Replacement) -> [u8; 35]
    ensures bytes { result ≡ replacement_bytes locate other.now }
    ensures event { order_event_of result ≡ OrderEvent.Replace other.now }
{
    let Replacement {
        reference,
        new_reference,
        shares,
        price,
    } = *other;
    let front: [u8; 19] = join(head(REPLACE, locate), reference.to_be_bytes());
    let front: [u8; 27] = join(front, new_reference.to_be_bytes());
    let front: [u8; 31] = join(front, shares.to_be_bytes());
    join(front, price.to_be_bytes())
}

/// Returns a symbol's round lot as a message of type `R`, with spaces for the rest of the
/// directory.
pub fn write_directory(locate: u16, symbol: SymbolName, round_lot: u32) -> [u8; 39]
    ensures bytes { result ≡ symbol_bytes 0x52 locate symbol
        (replicate 2 0x20 ++ to_be_bytes w32 round_lot ++ replicate 14 0x20) }
    ensures event { order_event_of result ≡ OrderEvent.RoundLot symbol round_lot locate }
{
    let rest: [u8; 6] = join([b' '; 2], round_lot.to_be_bytes());
    let rest: [u8; 20] = join(rest, [b' '; 14]);
    symbol_message(DIRECTORY, locate, symbol, rest)
}

/// Returns a halt of trading in a symbol, or with `halted` false its end, as a message of type `H`
/// without a reason.
pub fn write_trading_action(locate: u16, symbol: SymbolName, halted: bool) -> [u8; 25]
    ensures bytes { result ≡ symbol_bytes 0x48 locate symbol
        ((halt_byte halted ∷ []) ++ replicate 5 0x20) }
    ensures event { order_event_of result ≡ OrderEvent.Halt symbol HaltKind.Trading halted locate }
{
    let rest: [u8; 6] = join([halt_code(halted)], [b' '; 5]);
    symbol_message(TRADING_ACTION, locate, symbol, rest)
}

/// Returns the venue's own halt of a symbol, or with `halted` false its end, as a message of type
/// `h`. Its market is Nasdaq's.
pub fn write_operational_halt(locate: u16, symbol: SymbolName, halted: bool) -> [u8; 21]
    ensures bytes { result ≡ symbol_bytes 0x68 locate symbol
        (0x51 ∷ halt_byte halted ∷ []) }
    ensures event { order_event_of result
        ≡ OrderEvent.Halt symbol HaltKind.Operational halted locate }
{
    symbol_message(OPERATIONAL_HALT, locate, symbol, [b'Q', halt_code(halted)])
}
