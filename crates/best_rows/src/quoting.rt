//! Symbols in quotation marks.
ghost use Rattle.std.specs.Prelude.{◌≡◌, ◌≤◌, ◌||◌, ◌==◌, length};
ghost use Rattle.feed_types.specs.Symbols.{name_of};
ghost use Rattle.text_out.specs.Pages.{Appends};
ghost use Rattle.best_rows.specs.Quoting.{csv_text, needs_quotes, quoted};

use feed_types::SymbolName;
use text_out::{LineBuffer, put_bytes, put_name};

/// Appends a name in quotation marks, each mark in it after the escape.
pub fn put_quoted(text: &mut LineBuffer, name: &[u8], escape: u8)
    requires short { length name.now ≤ 8 }
    requires room { 18 ≤ text.old.room }
    ensures { Appends text.old (quoted escape name.now) 18 text.new }
{
    put_bytes(text, *b"\"");
    for byte in name {
        if *byte == b'"' || *byte == escape {
            put_bytes(text, [escape, *byte]);
        } else {
            put_bytes(text, [*byte]);
        }
    }
    put_bytes(text, *b"\"");
}

/// Returns whether a byte is a comma or a quotation mark.
#[inline(always)]
fn is_mark(byte: u8) -> bool
    ensures { result ≡ (byte == 44 || byte == 34) }
{
    (byte == b',') | (byte == b'"')
}

/// Returns whether a symbol has to stand in quotation marks as a value. All bytes of its field are
/// tested, which is done at once: its filling has neither a comma nor a mark.
#[inline(always)]
fn needs_quotes(symbol: SymbolName) -> bool
    ensures { result ≡ needs_quotes (name_of symbol) }
{
    let field = symbol.field();
    is_mark(field[0])
        | is_mark(field[1])
        | is_mark(field[2])
        | is_mark(field[3])
        | is_mark(field[4])
        | is_mark(field[5])
        | is_mark(field[6])
        | is_mark(field[7])
}

/// Appends a symbol as a value of a row of comma-separated values.
pub fn put_csv_name(text: &mut LineBuffer, symbol: SymbolName)
    requires { 18 ≤ text.old.room }
    ensures { Appends text.old (csv_text (name_of symbol)) 18 text.new }
{
    if needs_quotes(symbol) {
        put_quoted(text, symbol.name(), b'"');
    } else {
        put_name(text, symbol);
    }
}
