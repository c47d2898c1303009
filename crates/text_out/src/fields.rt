//! Parts of a printed line, placed in room that was made for the whole line.
//!
//! Each call writes after the first `at` bytes of the room, and returns the end of what it wrote.
//! Bytes after that end may have changed.
ghost use Rattle.std.specs.Prelude.{◌≡◌, ◌+◌, ◌/◌, ◌%◌, ◌<◌, ◌≤◌, [], ◌∷◌, length, take, decimal};
ghost use Rattle.feed_types.specs.Symbols.{name_of};
ghost use Rattle.feed_types.specs.Text.{price_text};
ghost use Rattle.text_out.specs.Fields.{field};
ghost use Rattle.text_out.specs.Placing.{Placed};

use crate::digit_tables::{FRONTS, PAIRS};
use feed_types::{SymbolName, VenueId};
use itoa::write_digits;

/// The length of the longest number in bytes.
const LONGEST_NUMBER: usize = 20;

/// The first number of more than four digits.
const FIVE_DIGITS: u64 = 10_000;

/// The first number of more than eight digits.
const NINE_DIGITS: u64 = 100_000_000;

/// Places any bytes.
#[inline(always)]
fn place_slice(room: &mut [u8], at: usize, bytes: &[u8]) -> usize
    requires { at + length bytes.now ≤ length room.old }
    ensures { Placed room.old room.new at bytes.now result }
{
    let end = at + bytes.len();
    room[at..end].copy_from_slice(bytes);
    end
}

/// Places `N` bytes. They come by value, so that they are stored without a look at where they were.
#[inline(always)]
pub fn place<const N: usize>(room: &mut [u8], at: usize, bytes: [u8; N]) -> usize
    requires few { N ≤ 64 }
    requires fits { at + N ≤ length room.old }
    ensures { Placed room.old room.new at bytes.entry result }
{
    place_slice(room, at, &bytes)
}

/// Places the first `len` of these bytes, which are stored as one word.
#[inline(always)]
pub fn place_word<const N: usize>(room: &mut [u8], at: usize, word: [u8; N], len: usize) -> usize
    requires few { N ≤ 64 }
    requires part { len ≤ N }
    requires fits { at + N ≤ length room.old }
    ensures { Placed room.old room.new at (take len word.entry) result }
{
    place(room, at, word);
    at + len
}

/// Places two digits, of which the first may be 0.
#[inline(always)]
fn place_pair(room: &mut [u8], at: usize, number: u32) -> usize
    requires small { number < 100 }
    requires fits { at + 2 ≤ length room.old }
    ensures { let pair = (48 + number / 10) ∷ (48 + number % 10) ∷ [] in
        Placed room.old room.new at pair result }
{
    place(room, at, PAIRS[number as usize])
}

/// Counts the digits of a number below 1,000. The count is hard to predict for a price or a size as
/// for a venue, so that no branch depends on it.
#[inline(always)]
fn digit_count(number: u32) -> usize
    requires { number < 1000 }
    ensures value { result ≡ length (decimal number) }
    ensures short { result ≤ 3 }
{
    if number < 10 {
        1
    } else if number < 100 {
        2
    } else {
        3
    }
}

/// Places a number of one to three digits.
#[inline(always)]
fn place_three(room: &mut [u8], at: usize, number: u32) -> usize
    requires small { number < 1000 }
    requires fits { at + 4 ≤ length room.old }
    ensures placed { Placed room.old room.new at (decimal number) result }
    ensures short { result ≤ at + 3 }
{
    place_word(room, at, FRONTS[number as usize], digit_count(number))
}

/// Places a number of one or two digits.
#[inline(always)]
fn place_two(room: &mut [u8], at: usize, number: u32) -> usize
    requires small { number < 100 }
    requires fits { at + 4 ≤ length room.old }
    ensures placed { Placed room.old room.new at (decimal number) result }
    ensures short { result ≤ at + 2 }
{
    let len = if number < 10 { 1 } else { 2 };
    place_word(room, at, FRONTS[number as usize], len)
}

/// Places a number of one to four digits.
#[inline(always)]
fn place_four(room: &mut [u8], at: usize, number: u32) -> usize
    requires small { number < 10000 }
    requires fits { at + 4 ≤ length room.old }
    ensures placed { Placed room.old room.new at (decimal number) result }
    ensures short { result ≤ at + 4 }
{
    if number < 100 {
        return place_two(room, at, number);
    }
    let at = place_two(room, at, number / 100);
    place_pair(room, at, number % 100)
}

/// Places a number of five to eight digits.
#[inline(always)]
fn place_many(room: &mut [u8], at: usize, number: u32) -> usize
    requires least { 10000 ≤ number }
    requires small { number < 100000000 }
    requires fits { at + 8 ≤ length room.old }
    ensures placed { Placed room.old room.new at (decimal number) result }
    ensures short { result ≤ at + 8 }
{
    let at = place_four(room, at, number / 10_000);
    let four = number % 10_000;
    let at = place_pair(room, at, four / 100);
    place_pair(room, at, four % 100)
}

/// Places a number of one to eight digits.
#[inline(always)]
fn place_eight(room: &mut [u8], at: usize, number: u32) -> usize
    requires small { number < 100000000 }
    requires fits { at + 8 ≤ length room.old }
    ensures placed { Placed room.old room.new at (decimal number) result }
    ensures short { result ≤ at + 8 }
{
    if number < 10_000 {
        return place_four(room, at, number);
    }
    place_many(room, at, number)
}

/// Places a number of any length.
#[cold]
#[inline(never)]
fn place_long(room: &mut [u8], at: usize, number: u64) -> usize
    requires { at + 20 ≤ length room.old }
    ensures placed { Placed room.old room.new at (decimal number) result }
    ensures short { result ≤ at + 20 }
{
    let mut digits = [0; LONGEST_NUMBER];
    let start = write_digits(number, &mut digits, LONGEST_NUMBER);
    place_slice(room, at, &digits[start..])
}

/// Places a number.
#[inline(always)]
pub fn place_number(room: &mut [u8], at: usize, number: u64) -> usize
    requires { at + 20 ≤ length room.old }
    ensures placed { Placed room.old room.new at (decimal number) result }
    ensures short { result ≤ at + 20 }
{
    if number < FIVE_DIGITS {
        place_four(room, at, number as u32)
    } else if number < NINE_DIGITS {
        place_many(room, at, number as u32)
    } else {
        place_long(room, at, number)
    }
}

/// Places a number after a space.
#[inline(always)]
pub fn place_field(room: &mut [u8], at: usize, number: u64) -> usize
    requires { at + 21 ≤ length room.old }
    ensures placed { Placed room.old room.new at (field number) result }
    ensures short { result ≤ at + 21 }
{
    let at = place(room, at, [b' ']);
    place_number(room, at, number)
}

/// Places a venue's number after a space.
#[inline(always)]
pub fn place_venue(room: &mut [u8], at: usize, venue: VenueId) -> usize
    requires { at + 5 ≤ length room.old }
    ensures placed { Placed room.old room.new at (field venue) result }
    ensures short { result ≤ at + 3 }
{
    let at = place(room, at, [b' ']);
    place_two(room, at, venue.index() as u32)
}

/// Places the dollars of a price. Most have two digits or three.
#[inline(always)]
fn place_dollars(room: &mut [u8], at: usize, dollars: u32) -> usize
    requires small { dollars < 100000000 }
    requires fits { at + 8 ≤ length room.old }
    ensures placed { Placed room.old room.new at (decimal dollars) result }
    ensures short { result ≤ at + 8 }
{
    if dollars < 1_000 {
        return place_three(room, at, dollars);
    }
    place_eight(room, at, dollars)
}

/// Places a price: its dollars, a point and four digits.
#[inline(always)]
pub fn place_price(room: &mut [u8], at: usize, price: u32) -> usize
    requires { at + 13 ≤ length room.old }
    ensures placed { Placed room.old room.new at (price_text price) result }
    ensures short { result ≤ at + 13 }
{
    let at = place_dollars(room, at, price / 10_000);
    let at = place(room, at, *b".");
    let four = price % 10_000;
    let at = place_pair(room, at, four / 100);
    place_pair(room, at, four % 100)
}

/// Places a symbol's name, of which all eight bytes are stored.
#[inline(always)]
pub fn place_name(room: &mut [u8], at: usize, symbol: SymbolName) -> usize
    requires { at + 8 ≤ length room.old }
    ensures placed { Placed room.old room.new at (name_of symbol) result }
    ensures short { result ≤ at + 8 }
{
    let len = symbol.name().len();
    place_word(room, at, symbol.field(), len)
}

/// Places a number of three to five digits, or any below 100,000.
#[inline(never)]
fn place_five(room: &mut [u8], at: usize, number: u16) -> usize
    requires { at + 8 ≤ length room.old }
    ensures placed { Placed room.old room.new at (decimal number) result }
    ensures short { result ≤ at + 8 }
{
    place_eight(room, at, u32::from(number))
}

/// Places a number of one to five digits after a space. Most have one or two.
#[inline(always)]
#[tactic(auto, using(std::proofs::lemmas::Fmt::decimal_digit))]
pub fn place_short_field(room: &mut [u8], at: usize, number: u16) -> usize
    requires { at + 9 ≤ length room.old }
    ensures placed { Placed room.old room.new at (field number) result }
    ensures short { result ≤ at + 9 }
{
    if number < 10 {
        return place(room, at, [b' ', b'0' + number as u8]);
    }
    let at = place(room, at, [b' ']);
    if number < 100 {
        return place_two(room, at, u32::from(number));
    }
    place_five(room, at, number)
}
