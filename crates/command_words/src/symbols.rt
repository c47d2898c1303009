//! The symbols on the command line.
ghost use Rattle.std.specs.Prelude.{◌≡◌, IfOk, IsTrue, map};
ghost use Rattle.std.specs.List.{All, list_all};
ghost use Rattle.feed_types.specs.Symbols.{filled, is_symbol_name};
ghost use Rattle.command_words.specs.Readings.{mapped};
ghost use Rattle.command_words.specs.Symbols.{ReadsSymbols};

use crate::refusal::Refusal;
use feed_types::{MAX_SYMBOLS, SymbolName};
use nbbo_book::are_distinct;
use std::alloc::{AllocError, Global};

/// Returns whether the word is the name of a symbol.
fn is_name(word: &str) -> bool
    ensures { result ≡ is_symbol_name word.now }
{
    SymbolName::from_text(word.as_bytes()).is_some()
}

fn are_names(words: &[&str]) -> bool
    ensures { result ≡ list_all (λ word. is_symbol_name word.now) words.now }
{
    words.iter().all(|word| is_name(word))
}

/// Returns the symbols with these names.
fn named(alloc: Global, words: &[&str]) -> Result<Vec<SymbolName>, AllocError>
    requires { All (λ word. IsTrue (is_symbol_name word.now)) words.now }
    ensures { IfOk result (λ symbols. symbols.items ≡ map (λ word. filled word.now) words.now) }
{
    let mut symbols = Vec::with_capacity(alloc, words.len())?;
    for word in words {
        match SymbolName::from_text(word.as_bytes()) {
            Some(symbol) => symbols.push(symbol)?,
            None => unreachable!(),
        }
    }
    Ok(symbols)
}

/// Returns the symbols that the words name.
pub fn read_symbols(alloc: Global, words: &[&str]) -> Result<Vec<SymbolName>, Refusal>
    ensures { ReadsSymbols (map (λ word. word.now) words.now)
        (mapped (λ symbols. symbols.items) result) }
{
    if !are_names(words) {
        return Err(Refusal::BadSymbol);
    }
    if words.len() > MAX_SYMBOLS {
        return Err(Refusal::TooManySymbols);
    }
    let symbols = named(alloc, words)?;
    if !are_distinct(alloc, symbols.as_slice())? {
        return Err(Refusal::DuplicateSymbol);
    }
    Ok(symbols)
}
