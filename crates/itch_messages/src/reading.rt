//! The reading of a message. Its fields are read where they are, and only the eight bytes of the
//! symbol are copied.

ghost use Rattle.std.specs.Prelude.{◌≡◌, ◌+◌, ◌≤◌, IsTrue, SomeIff, length, slice_index};
ghost use Rattle.feed_types.specs.Symbols.{is_symbol_field};
ghost use Rattle.quote_payload.specs.Payload.{type_at, u32_at, u64_at};
ghost use Rattle.itch_messages.specs.Events.{locate_at, name_field_at, side_of_byte, halted_by_state, halted_by_action, add_of, reduce_of, delete_of, replace_of, round_lot_of, trading_halt_of, operational_halt_of, is_form, symbol_event_by, order_event_of};

use crate::event::{HaltKind, NewOrder, OrderEvent, Replacement};
use crate::form::{
    ADD, ADD_LEN, ATTRIBUTED_ADD, ATTRIBUTED_ADD_LEN, BUY, CANCEL, CANCEL_LEN, DELETE, DELETE_LEN,
    DIRECTORY, DIRECTORY_LEN, EXECUTED, EXECUTED_AT, EXECUTED_AT_LEN, EXECUTED_LEN, HALTED,
    OPERATIONAL_HALT, OPERATIONAL_HALT_LEN, PAUSED, QUOTED_ONLY, REPLACE, REPLACE_LEN, SELL,
    TRADING, TRADING_ACTION, TRADING_ACTION_LEN,
};
use feed_types::{Side, SymbolName};

#[inline(always)]
fn read_symbol(message: &[u8], offset: usize) -> Option<SymbolName>
    requires { offset + 8 ≤ length message.now }
    ensures { let field = name_field_at offset message.now in
        SomeIff result (IsTrue (is_symbol_field field)) field }
{
    let field = message[offset..].first_chunk::<8>()?;
    SymbolName::from_field(field)
}

#[inline(always)]
fn read_locate(message: &[u8]) -> u16
    requires { 3 ≤ length message.now }
    ensures { result ≡ locate_at message.now }
{
    let (_, field) = message.split_at(1);
    u16::from_be_bytes([field[0], field[1]])
}

#[inline(always)]
fn read_u32(message: &[u8], offset: usize) -> u32
    requires { offset + 4 ≤ length message.now }
    ensures { result ≡ u32_at offset message.now }
{
    let (_, field) = message.split_at(offset);
    u32::from_be_bytes([field[0], field[1], field[2], field[3]])
}

#[inline(always)]
fn read_u64(message: &[u8], offset: usize) -> u64
    requires { offset + 8 ≤ length message.now }
    ensures { result ≡ u64_at offset message.now }
{
    let (_, field) = message.split_at(offset);
    u64::from_be_bytes([
        field[0], field[1], field[2], field[3], field[4], field[5], field[6], field[7],
    ])
}

/// Returns the side that a byte names, if it names one.
#[inline(always)]
fn side_by(byte: u8) -> Option<Side>
    ensures { result ≡ side_of_byte byte }
{
    match byte {
        BUY => Some(Side::Bid),
        SELL => Some(Side::Offer),
        _ => None,
    }
}

/// Returns whether a symbol of this trading state is halted, if it is a state.
fn is_halted_state(state: u8) -> Option<bool>
    ensures { result ≡ halted_by_state state }
{
    match state {
        TRADING => Some(false),
        HALTED | PAUSED | QUOTED_ONLY => Some(true),
        _ => None,
    }
}

/// Returns whether this operational action halts a symbol, if it is an action.
fn is_halting_action(action: u8) -> Option<bool>
    ensures { result ≡ halted_by_action action }
{
    match action {
        TRADING => Some(false),
        HALTED => Some(true),
        _ => None,
    }
}

#[inline(always)]
fn read_add(message: &[u8]) -> OrderEvent
    requires { 36 ≤ length message.now }
    ensures { result ≡ add_of message.now }
{
    let Some(side) = side_by(message[19]) else {
        return OrderEvent::Other;
    };
    let Some(symbol) = read_symbol(message, 24) else {
        return OrderEvent::Other;
    };
    OrderEvent::Add(NewOrder {
        symbol,
        reference: read_u64(message, 11),
        shares: read_u32(message, 20),
        price: read_u32(message, 32),
        locate: read_locate(message),
        side,
    })
}

#[inline(always)]
fn read_reduce(message: &[u8]) -> OrderEvent
    requires { 23 ≤ length message.now }
    ensures { result ≡ reduce_of message.now }
{
    OrderEvent::Reduce {
        reference: read_u64(message, 11),
        shares: read_u32(message, 19),
    }
}

#[inline(always)]
fn read_delete(message: &[u8]) -> OrderEvent
    requires { 19 ≤ length message.now }
    ensures { result ≡ delete_of message.now }
{
    OrderEvent::Delete {
        reference: read_u64(message, 11),
    }
}

#[inline(always)]
fn read_replace(message: &[u8]) -> OrderEvent
    requires { 35 ≤ length message.now }
    ensures { result ≡ replace_of message.now }
{
    OrderEvent::Replace(Replacement {
        reference: read_u64(message, 11),
        new_reference: read_u64(message, 19),
        shares: read_u32(message, 27),
        price: read_u32(message, 31),
    })
}

fn read_round_lot(message: &[u8]) -> OrderEvent
    requires { 25 ≤ length message.now }
    ensures { result ≡ round_lot_of message.now }
{
    match read_symbol(message, 11) {
        Some(symbol) => OrderEvent::RoundLot {
            symbol,
            shares: read_u32(message, 21),
            locate: read_locate(message),
        },
        None => OrderEvent::Other,
    }
}

fn read_trading_halt(message: &[u8]) -> OrderEvent
    requires { 20 ≤ length message.now }
    ensures { result ≡ trading_halt_of message.now }
{
    match (read_symbol(message, 11), is_halted_state(message[19])) {
        (Some(symbol), Some(halted)) => OrderEvent::Halt {
            symbol,
            kind: HaltKind::Trading,
            halted,
            locate: read_locate(message),
        },
        _ => OrderEvent::Other,
    }
}

fn read_operational_halt(message: &[u8]) -> OrderEvent
    requires { 21 ≤ length message.now }
    ensures { result ≡ operational_halt_of message.now }
{
    match (read_symbol(message, 11), is_halting_action(message[20])) {
        (Some(symbol), Some(halted)) => OrderEvent::Halt {
            symbol,
            kind: HaltKind::Operational,
            halted,
            locate: read_locate(message),
        },
        _ => OrderEvent::Other,
    }
}

/// Returns whether the message is of this type and length.
#[inline(always)]
fn has_form(message: &[u8], kind: u8, len: usize) -> bool
    requires { 1 ≤ len }
    ensures form { result ≡ is_form kind len (type_at message.now) (length message.now) }
    ensures len { IsTrue result → length message.now ≡ len }
{
    message.len() == len && message[0] == kind
}

/// Returns the event that a message is, where it is of no order.
fn read_symbol_event(message: &[u8]) -> OrderEvent
    ensures { result ≡ symbol_event_by (type_at message.now) (length message.now) message.now }
{
    if has_form(message, DIRECTORY, DIRECTORY_LEN) {
        return read_round_lot(message);
    }
    if has_form(message, TRADING_ACTION, TRADING_ACTION_LEN) {
        return read_trading_halt(message);
    }
    if has_form(message, OPERATIONAL_HALT, OPERATIONAL_HALT_LEN) {
        return read_operational_halt(message);
    }
    OrderEvent::Other
}

/// Returns the event that a message is. Numbers have their high byte first, and prices four
/// decimals. At offset 1 each message has the locate (2).
///
/// | Type | Length | Event | Fields, by offset |
/// |---|---|---|---|
/// | `A`, `F` | 36, 40 | an order | 11 reference (8), 19 side (1), 20 shares (4), 24 symbol (8) |
/// | | | | 32 price (4) |
/// | `E`, `C`, `X` | 31, 36, 23 | less of it | 11 reference (8), 19 shares (4) |
/// | `D` | 19 | it is gone | 11 reference (8) |
/// | `U` | 35 | another in its place | 11 reference (8), 19 the other's (8), 27 shares (4) |
/// | | | | 31 price (4) |
/// | `R` | 39 | a round lot | 11 symbol (8), 21 shares (4) |
/// | `H` | 25 | a halt, or its end | 11 symbol (8), 19 state (1) |
/// | `h` | 21 | the venue's own | 11 symbol (8), 20 action (1) |
///
/// A side is `B` or `S`. The states `H`, `P` and `Q` halt the symbol, and `T` trades it; the action
/// `H` halts it, and `T` ends that.
///
/// Everything else is [`OrderEvent::Other`]: another type, another length, a symbol that isn't a
/// name of 1 to 8 bytes and then spaces, another side, state or action.
#[inline(always)]
#[tactic(auto, unfolding(crate::specs::Events::order_event_of))]
pub fn read_event(message: &[u8]) -> OrderEvent
    ensures { result ≡ order_event_of message.now }
{
    if has_form(message, ADD, ADD_LEN) {
        return read_add(message);
    }
    if has_form(message, DELETE, DELETE_LEN) {
        return read_delete(message);
    }
    if has_form(message, EXECUTED, EXECUTED_LEN) {
        return read_reduce(message);
    }
    if has_form(message, REPLACE, REPLACE_LEN) {
        return read_replace(message);
    }
    if has_form(message, CANCEL, CANCEL_LEN) {
        return read_reduce(message);
    }
    if has_form(message, ATTRIBUTED_ADD, ATTRIBUTED_ADD_LEN) {
        return read_add(message);
    }
    if has_form(message, EXECUTED_AT, EXECUTED_AT_LEN) {
        return read_reduce(message);
    }
    read_symbol_event(message)
}
