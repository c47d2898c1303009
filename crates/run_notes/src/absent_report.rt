//! What is said on standard error of symbols of which no item came, or no change of the national
//! best.
ghost use Rattle.text_out.specs.Members.{writing_of};
ghost use Rattle.std.specs.Prelude.{◌≡◌, ◌&&◌, flat_map, if◌then◌else◌, length, nat_lt, take};
ghost use Rattle.text_out.specs.StandardError.{Says, SaysEach};
ghost use Rattle.feed_types.specs.Symbols.{key_of, name_of};
ghost use Rattle.run_notes.specs.AbsentSymbols.{absent_texts, has_key, listed_texts, more_symbols_text, more_symbols_texts, symbol_texts, symbols_with, texts_if, unchanged_texts};

use crate::absent_symbols::AbsentSymbols;
use feed_types::SymbolName;
use text_out::{TextOut, write_all, write_number, write_stderr};

/// The most symbols that are named.
const MOST: usize = 8;

/// What stands after symbols of which no item came.
const NEVER_CAME: &str = " never came\n";

/// What stands after symbols of which the national best never changed.
const NEVER_CHANGED: &str = " never had a best\n";

/// Writes the name of a symbol.
fn write_name<E: TextOut>(symbol: &SymbolName, errors: &mut E)
    ensures { Says (writing_of E.TextOut) (name_of symbol.now) errors.old errors.new }
{
    let _ = write_all(symbol.name(), errors);
}

/// Writes that this is so of a symbol.
fn write_symbol<E: TextOut>(what: &str, symbol: &SymbolName, errors: &mut E)
    ensures { SaysEach (writing_of E.TextOut)
        (symbol_texts what.now symbol.now) errors.old errors.new }
{
    write_stderr("nbbo: symbol ", errors);
    write_name(symbol, errors);
    write_stderr(what, errors);
}

/// Returns whether a symbol is absent, and to be named after this many others.
fn is_named(symbol: &SymbolName, absent: &AbsentSymbols, before: usize) -> bool
    ensures { result ≡ (nat_lt before 8 && has_key absent.now (key_of symbol.now)) }
{
    before < MOST && absent.has(*symbol)
}

/// Writes that this is so of a symbol, if it is to be named. Returns how many were named.
fn write_if<E: TextOut>(is_named: bool, what: &str, symbol: &SymbolName, errors: &mut E) -> usize
    ensures says { SaysEach (writing_of E.TextOut)
        (texts_if is_named what.now symbol.now) errors.old errors.new }
    ensures count { result ≡ (if is_named then 1 else 0) }
{
    if !is_named {
        return 0;
    }
    write_symbol(what, symbol, errors);
    1
}

/// Writes that this is so of the first eight of the symbols that are absent.
fn write_first<E: TextOut>(
    what: &str,
    symbols: &[SymbolName],
    absent: &AbsentSymbols,
    errors: &mut E,
)
    ensures { SaysEach (writing_of E.TextOut)
        (flat_map (symbol_texts what.now) (take 8 (symbols_with absent.now symbols.now)))
        errors.old errors.new }
{
    let mut named = 0;
    for symbol in symbols {
        named += write_if(is_named(symbol, absent, named), what, symbol, errors);
    }
}

/// Returns how many of the symbols are absent.
fn count_absent(symbols: &[SymbolName], absent: &AbsentSymbols) -> usize
    ensures { result ≡ length (symbols_with absent.now symbols.now) }
{
    symbols.iter().filter(|symbol| absent.has(**symbol)).count()
}

/// What stands after a count of further symbols.
fn more_symbols(count: u64) -> &'static str
    ensures { result.now ≡ more_symbols_text count }
{
    if count == 1 {
        " more symbol"
    } else {
        " more symbols"
    }
}

/// Writes of how many symbols more this is so, if of any.
fn write_more<E: TextOut>(what: &str, count: u64, errors: &mut E)
    ensures { SaysEach (writing_of E.TextOut)
        (more_symbols_texts what.now count) errors.old errors.new }
{
    if count == 0 {
        return;
    }
    write_stderr("nbbo: ", errors);
    write_number(count, errors);
    write_stderr(more_symbols(count), errors);
    write_stderr(what, errors);
}

/// Writes that this is so of the symbols that are absent: the names of the first of them, and how
/// many more.
fn write_listed<E: TextOut>(
    what: &str,
    symbols: &[SymbolName],
    absent: &AbsentSymbols,
    errors: &mut E,
)
    ensures { SaysEach (writing_of E.TextOut)
        (listed_texts what.now (symbols_with absent.now symbols.now)) errors.old errors.new }
{
    write_first(what, symbols, absent, errors);
    let more = count_absent(symbols, absent).saturating_sub(MOST);
    write_more(what, more as u64, errors);
}

/// Writes that the symbols that are absent never came.
pub fn write_absent<E: TextOut>(symbols: &[SymbolName], absent: &AbsentSymbols, errors: &mut E)
    ensures { SaysEach (writing_of E.TextOut)
        (absent_texts (symbols_with absent.now symbols.now)) errors.old errors.new }
{
    write_listed(NEVER_CAME, symbols, absent, errors);
}

/// Writes that the symbols that are absent never had a best.
pub fn write_unchanged<E: TextOut>(symbols: &[SymbolName], absent: &AbsentSymbols, errors: &mut E)
    ensures { SaysEach (writing_of E.TextOut)
        (unchanged_texts (symbols_with absent.now symbols.now)) errors.old errors.new }
{
    write_listed(NEVER_CHANGED, symbols, absent, errors);
}
