//! The reading of a message. Its fields are read where they are, and only the eight bytes of the
//! symbol are copied.

ghost use Rattle.std.specs.Prelude.{◌≡◌, ◌≢◌, ◌+◌, ◌≤◌, IsTrue, SomeIff, length, if◌then◌else◌, ◌&&◌, ◌==◌, nat_le};
ghost use Rattle.feed_types.specs.Symbols.{is_symbol_field};
ghost use Rattle.quote_payload.specs.Payload.{symbol_at, u32_at, u64_at, version1_of, version2_of, state_at, item_of};

use crate::form::{
    BID_AUTO, HALT, HALT_LEN, HALTED, OFFER_AUTO, TRADING, VERSION_1, VERSION_1_LEN, VERSION_2,
    VERSION_2_LEN,
};
use feed_types::{Item, Quote, SymbolName};

#[inline(always)]
fn read_symbol(message: &[u8]) -> Option<SymbolName>
    requires { 9 ≤ length message.now }
    ensures { let field = symbol_at message.now in
        SomeIff result (IsTrue (is_symbol_field field)) field }
{
    let field = message[1..].first_chunk::<8>()?;
    SymbolName::from_field(field)
}

/// The eight bytes where quotations and halts have their symbol, of any message that has them. They
/// are not looked at: they need be no symbol, and the message no quotation.
#[inline(always)]
pub fn peek_symbol_bytes(message: &[u8]) -> Option<[u8; 8]>
    ensures { SomeIff result (9 ≤ length message.now) (symbol_at message.now) }
{
    let rest = message.get(1..)?;
    rest.first_chunk::<8>().copied()
}

fn read_u32(message: &[u8], offset: usize) -> u32
    requires { offset + 4 ≤ length message.now }
    ensures { result ≡ u32_at offset message.now }
{
    let (_, field) = message.split_at(offset);
    u32::from_be_bytes([field[0], field[1], field[2], field[3]])
}

fn read_u64(message: &[u8], offset: usize) -> u64
    requires { offset + 8 ≤ length message.now }
    ensures { result ≡ u64_at offset message.now }
{
    let (_, field) = message.split_at(offset);
    u64::from_be_bytes([
        field[0], field[1], field[2], field[3], field[4], field[5], field[6], field[7],
    ])
}

#[inline(always)]
fn read_version1(message: &[u8]) -> Item
    requires { length message.now ≡ 26 }
    ensures { result ≡ (if is_symbol_field (symbol_at message.now)
        then Item.Quote (version1_of message.now) else Item.Other) }
{
    let Some(symbol) = read_symbol(message) else {
        return Item::Other;
    };
    let flags = message[25];
    Item::Quote(Quote {
        symbol,
        bid_price: read_u32(message, 9),
        bid_size: read_u32(message, 13).into(),
        offer_price: read_u32(message, 17),
        offer_size: read_u32(message, 21).into(),
        bid_auto: flags & BID_AUTO != 0,
        offer_auto: flags & OFFER_AUTO != 0,
    })
}

#[inline(always)]
fn read_version2(message: &[u8]) -> Item
    requires { length message.now ≡ 34 }
    ensures { result ≡ (if is_symbol_field (symbol_at message.now)
        then Item.Quote (version2_of message.now) else Item.Other) }
{
    let Some(symbol) = read_symbol(message) else {
        return Item::Other;
    };
    let flags = message[33];
    Item::Quote(Quote {
        symbol,
        bid_price: read_u32(message, 9),
        bid_size: read_u64(message, 13),
        offer_price: read_u32(message, 21),
        offer_size: read_u64(message, 25),
        bid_auto: flags & BID_AUTO != 0,
        offer_auto: flags & OFFER_AUTO != 0,
    })
}

fn read_halt(message: &[u8]) -> Item
    requires { length message.now ≡ 10 }
    ensures { let symbol = symbol_at message.now in let state = state_at message.now in
        result ≡ (if is_symbol_field symbol && nat_le state 1
        then Item.Halt symbol (state == 1) else Item.Other) }
{
    match (read_symbol(message), message[9]) {
        (Some(symbol), TRADING) => Item::Halt {
            symbol,
            halted: false,
        },
        (Some(symbol), HALTED) => Item::Halt {
            symbol,
            halted: true,
        },
        _ => Item::Other,
    }
}

/// The item that a message is. The forms are this project's quotation payload, and numbers have
/// their high byte first.
///
/// | Offset | Quotation, version 1, 26 bytes | Quotation, version 2, 34 bytes | Halt, 10 bytes |
/// |---|---|---|---|
/// | 0 | `51` | `71` | `48` |
/// | 1 | symbol (8) | symbol (8) | symbol (8) |
/// | 9 | bid price (4) | bid price (4) | state (1): `01` halted, `00` trading |
/// | 13 | bid size (4) | bid size (8) | |
/// | 17, 21 | offer price (4) | offer price (4) | |
/// | 21, 25 | offer size (4) | offer size (8) | |
/// | 25, 33 | flags (1) | flags (1) | |
///
/// Prices are in ten-thousandths of a dollar, sizes in shares. Bit 0 of the flags is set for an
/// automated bid, bit 1 for an automated offer; the other bits are ignored.
///
/// Everything else is [`Item::Other`]: another first byte, another length, a symbol that isn't a
/// name of 1 to 8 bytes and then spaces, another state. [`Item::End`] is announced by a packet and
/// is no message.
#[inline(always)]
#[tactic(auto, unfolding(crate::specs::Payload::item_of))]
pub fn read_item(message: &[u8]) -> Item
    ensures value { result ≡ item_of message.now }
    ensures never_end { result ≢ Item.End }
{
    match message.first() {
        Some(&VERSION_1) if message.len() == VERSION_1_LEN => read_version1(message),
        Some(&VERSION_2) if message.len() == VERSION_2_LEN => read_version2(message),
        Some(&HALT) if message.len() == HALT_LEN => read_halt(message),
        _ => Item::Other,
    }
}
