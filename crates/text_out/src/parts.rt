//! Parts of a line that another crate appends, one after the other, to a text that has room for all
//! of them.
ghost use Rattle.std.specs.Prelude.{◌≡◌, ◌≤◌, ◌+◌, ◌++◌, decimal, length};
ghost use Rattle.feed_types.specs.Text.{price_text};
ghost use Rattle.feed_types.specs.Symbols.{name_of};
ghost use Rattle.text_out.specs.Pages.{Appends};

use crate::fields::{place, place_name, place_number, place_price};
use crate::page::LineBuffer;
use feed_types::SymbolName;

/// Appends `N` bytes.
#[inline(always)]
pub fn put_bytes<const N: usize>(text: &mut LineBuffer, bytes: [u8; N])
    requires few { N ≤ 64 }
    requires room { N ≤ text.old.room }
    ensures { Appends text.old bytes.entry N text.new }
{
    let at = text.end;
    text.end = place(text.bytes.as_mut_slice(), at, bytes);
}

/// Appends a number.
#[inline(always)]
pub fn put_number(text: &mut LineBuffer, number: u64)
    requires { 20 ≤ text.old.room }
    ensures { Appends text.old (decimal number) 20 text.new }
{
    let at = text.end;
    text.end = place_number(text.bytes.as_mut_slice(), at, number);
}

/// Appends a price in dollars, with four digits after the point.
#[inline(always)]
pub fn put_price(text: &mut LineBuffer, price: u32)
    requires { 13 ≤ text.old.room }
    ensures { Appends text.old (price_text price) 13 text.new }
{
    let at = text.end;
    text.end = place_price(text.bytes.as_mut_slice(), at, price);
}

/// Appends a symbol's name.
#[inline(always)]
pub fn put_name(text: &mut LineBuffer, symbol: SymbolName)
    requires { 8 ≤ text.old.room }
    ensures { Appends text.old (name_of symbol) 8 text.new }
{
    let at = text.end;
    text.end = place_name(text.bytes.as_mut_slice(), at, symbol);
}
