//! The writing of a message.

ghost use Rattle.std.specs.Prelude.{◌≡◌, ◌+◌, ◌^◌, ◌<◌, ◌≤◌, ◌↔◌, IsTrue, ◌++◌, if◌then◌else◌, length, take};
ghost use Rattle.feed_types.specs.Symbols.{is_symbol_field};
ghost use Rattle.quote_payload.specs.Payload.{item_of};
ghost use Rattle.quote_payload.specs.Written.{FitsVersion1, flags_of, quote_bytes, version1_bytes, version2_bytes, halt_bytes};

use crate::form::{BID_AUTO, HALT, HALT_LEN, HALTED, OFFER_AUTO, TRADING, VERSION_1, VERSION_2};
use feed_types::{Item, Quote, SymbolName};

/// Puts a field after the fields that were written before it.
fn put<const N: usize>(message: &mut [u8], offset: usize, field: [u8; N])
    requires { offset + N ≤ length message.old }
    ensures { take (offset + N) message.new ≡ take offset message.old ++ field.entry }
{
    message[offset..offset + N].copy_from_slice(&field);
}

fn flags(quote: &Quote) -> u8
    ensures { result ≡ flags_of quote.now }
{
    let bid = if quote.bid_auto { BID_AUTO } else { 0 };
    let offer = if quote.offer_auto { OFFER_AUTO } else { 0 };
    bid | offer
}

/// Whether version 1 can carry the quotation: whether both its sizes are at most 4,294,967,295.
pub fn fits_v1(quote: &Quote) -> bool
    ensures { IsTrue result ↔ FitsVersion1 quote.now }
{
    quote.bid_size <= u32::MAX.into() && quote.offer_size <= u32::MAX.into()
}

/// A quotation as a message of `LEN` bytes, with its sizes in `N` bytes each.
#[inline(always)]
fn message_of<const N: usize, const LEN: usize>(
    version: u8,
    quote: &Quote,
    bid_size: [u8; N],
    offer_size: [u8; N],
) -> [u8; LEN]
    requires { LEN ≡ 18 + N + N }
    ensures bytes { result ≡ quote_bytes version quote.now bid_size.entry offer_size.entry }
    ensures symbol { IsTrue (is_symbol_field quote.now.symbol) }
    ensures bid { quote.now.bid_price < 2 ^ 32 }
    ensures offer { quote.now.offer_price < 2 ^ 32 }
{
    let Quote {
        symbol,
        bid_price,
        offer_price,
        ..
    } = *quote;
    let offer = 13 + N;
    let mut message = [0; LEN];
    put(&mut message, 0, [version]);
    put(&mut message, 1, symbol.field());
    put(&mut message, 9, bid_price.to_be_bytes());
    put(&mut message, 13, bid_size);
    put(&mut message, offer, offer_price.to_be_bytes());
    put(&mut message, offer + 4, offer_size);
    put(&mut message, offer + 4 + N, [flags(quote)]);
    message
}

/// A quotation as a message of version 1, whose sizes have 32 bits: [`fits_v1`] says whether it can
/// be one.
///
/// The form is that of [`read_item`](crate::read_item), with all other bits of the flags 0.
pub fn write_quote(quote: &Quote) -> [u8; 26]
    requires { FitsVersion1 quote.now }
    ensures bytes { result ≡ version1_bytes quote.now }
    ensures item { item_of result ≡ Item.Quote quote.now }
{
    let bid_size = (quote.bid_size as u32).to_be_bytes();
    let offer_size = (quote.offer_size as u32).to_be_bytes();
    message_of(VERSION_1, quote, bid_size, offer_size)
}

/// A quotation as a message of version 2, whose sizes have 64 bits, so that it can carry every
/// quotation.
///
/// The form is that of [`read_item`](crate::read_item), with all other bits of the flags 0.
pub fn write_quote2(quote: &Quote) -> [u8; 34]
    ensures bytes { result ≡ version2_bytes quote.now }
    ensures item { item_of result ≡ Item.Quote quote.now }
{
    let bid_size = quote.bid_size.to_be_bytes();
    let offer_size = quote.offer_size.to_be_bytes();
    message_of(VERSION_2, quote, bid_size, offer_size)
}

fn state(halted: bool) -> u8
    ensures { result ≡ (if halted then 1 else 0) }
{
    if halted { HALTED } else { TRADING }
}

/// A halt of the symbol as a message, or with `halted` false the message that it trades again.
///
/// The form is that of [`read_item`](crate::read_item).
pub fn write_halt(symbol: SymbolName, halted: bool) -> [u8; 10]
    ensures bytes { result ≡ halt_bytes symbol halted }
    ensures item { item_of result ≡ Item.Halt symbol halted }
{
    let mut message = [0; HALT_LEN];
    put(&mut message, 0, [HALT]);
    put(&mut message, 1, symbol.field());
    put(&mut message, 9, [state(halted)]);
    message
}
