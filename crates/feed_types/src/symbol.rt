//! Symbols.

ghost use Rattle.std.specs.Prelude.{◌≡◌, IsTrue, Some, length, nat_le};
ghost use Rattle.std.specs.Int.{w64, to_be_bytes};
ghost use Rattle.std.specs.List.{list_all};
ghost use Rattle.std.specs.Option.{SomeIff};
ghost use Rattle.feed_types.specs.Symbols.{is_name_byte, is_symbol_field, is_symbol_name, name_of, filled, key_of};
ghost use Rattle.feed_types.specs.FieldTests.{IsZeroWhereFilled, Marks};

use std::fmt;
use std::marker::Model;

/// The number of bytes of a symbol's field.
const FIELD: usize = 8;

/// A field of spaces, as a word.
const SPACES: u64 = 0x2020_2020_2020_2020;

/// The top bit of each byte of a word.
const TOPS: u64 = 0x8080_8080_8080_8080;

/// The name of a symbol: 1 to 8 bytes from `21` to `7e`, kept as its field, which is filled with
/// spaces to eight bytes.
#[derive(Clone, Copy, Debug, PartialEq, Eq, PartialOrd, Ord, Hash)]
pub struct SymbolName {
    bytes: [u8; 8],
    /// It has no bytes, and makes a symbol begin at a multiple of eight: in a halt where it does in
    /// a quotation, so that an item is copied by whole words.
    aligned: [u64; 0],
}

impl Model for SymbolName {
    ghost use Rattle.std.specs.Prelude.{◌≡◌, ℕ, List, [], IsTrue};
    ghost use Rattle.feed_types.specs.Symbols.{is_symbol_field};

    ghost Value = { List ℕ };

    ghost view = { λ s. s.bytes };

    ghost invariant = { λ s. IsTrue (is_symbol_field s.bytes) × (s.aligned ≡ []) };

    ghost inverse = { λ field. record { bytes = field; aligned = [] } };
}

fn is_all_name_bytes(bytes: &[u8]) -> bool
    ensures { result ≡ list_all is_name_byte bytes.now }
{
    bytes.iter().all(|&byte| 0x21 <= byte && byte <= 0x7e)
}

/// Whether the bytes are a name: 1 to 8 bytes, each printable and no space.
fn is_name(bytes: &[u8]) -> bool
    ensures { result ≡ is_symbol_name bytes.now }
{
    !bytes.is_empty() && bytes.len() <= FIELD && is_all_name_bytes(bytes)
}

/// Returns the number of bytes before the first space: eight where there is none.
fn name_len(field: &[u8; 8]) -> usize
    ensures { result ≡ length (name_of field.now) }
{
    field.iter().position(|&byte| byte == b' ').unwrap_or(FIELD)
}

/// The top bits of the bytes past `~`, in a word that has each byte less a space.
#[inline(always)]
fn past_tilde(above: u64) -> u64
    ensures { Marks (nat_le 95) above result }
{
    above.wrapping_add(0x2121_2121_2121_2121) & TOPS
}

/// The top bits of the bytes that are no space, in such a word.
#[inline(always)]
fn no_spaces(above: u64) -> u64
    ensures { Marks (nat_le 1) above result }
{
    above.wrapping_add(0x7f7f_7f7f_7f7f_7f7f) & TOPS
}

/// The top bits of the misplaced bytes, by those of the bytes that are no space: of each such byte
/// after a space, and of the first byte where it is a space.
#[inline(always)]
fn misplaced(names: u64) -> u64
    ensures { IsZeroWhereFilled names result }
{
    (names & !(names << 8)) ^ 0x80
}

/// Whether the field is a symbol's. Each quotation is tested, so all bytes are tested at once, in
/// one word and without branches: the top bit of a byte says that the field is none. Where no top
/// bit of `above` is set, no sum carries from a byte into the next.
#[inline(always)]
fn is_field(field: &[u8; 8]) -> bool
    ensures { result ≡ is_symbol_field field.now }
{
    let above = u64::from_le_bytes(*field).wrapping_sub(SPACES);
    let wrong = (above & TOPS) | past_tilde(above) | misplaced(no_spaces(above));
    wrong == 0
}

impl SymbolName {
    /// The symbol of a field of eight bytes, or `None` where the field is none: where no name is at
    /// its front, or a byte other than a space after it.
    #[inline(always)]
    pub fn from_field(field: &[u8; 8]) -> Option<SymbolName>
        ensures { SomeIff result (IsTrue (is_symbol_field field.now)) field.now }
    {
        if is_field(field) {
            Some(SymbolName {
                bytes: *field,
                aligned: [],
            })
        } else {
            None
        }
    }

    /// The symbol of a name that isn't filled, or `None` where it is no name of 1 to 8 bytes.
    pub fn from_text(name: &[u8]) -> Option<SymbolName>
        ensures { SomeIff result (IsTrue (is_symbol_name name.now)) (filled name.now) }
    {
        if !is_name(name) {
            return None;
        }
        let mut bytes = [b' '; FIELD];
        bytes[..name.len()].copy_from_slice(name);
        Some(SymbolName { bytes, aligned: [] })
    }

    /// The field of eight bytes, filled with spaces, as quotations carry it.
    pub fn field(self) -> [u8; 8]
        ensures value { result ≡ self }
        ensures symbol { IsTrue (is_symbol_field result) }
    {
        self.bytes
    }

    /// The field as one number, its first byte highest: equal exactly where the symbols are, and in
    /// their order. As a key it hashes faster than eight bytes do.
    #[inline(always)]
    pub fn key(self) -> u64
        ensures value { result ≡ key_of self }
        ensures field { to_be_bytes w64 result ≡ self }
    {
        u64::from_be_bytes(self.bytes)
    }

    /// The name without its filling.
    pub fn name(&self) -> &[u8]
        ensures value { result.now ≡ name_of self.now }
        ensures symbol { IsTrue (is_symbol_name result.now) }
    {
        &self.bytes[..name_len(&self.bytes)]
    }
}

/// Prints the name without its filling.
impl fmt::Display for SymbolName {
    ghost output = { λ s. Some (name_of s) };

    fn fmt<W: fmt::Write>(&self, f: &mut fmt::Formatter<W>) -> fmt::Result {
        match str::from_utf8(self.name()) {
            Ok(name) => f.write_str(name),
            Err(_) => unreachable!(),
        }
    }
}
