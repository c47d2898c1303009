//! The printing of terms and advice.

ghost use Rattle.std.specs.Prelude.{Some};
ghost use Rattle.filter_terms.specs.Text.{others_text, symbols_text};

use crate::advice::Advice;
use crate::terms::Terms;
use feed_types::{Best, SymbolName};
use std::fmt;

/// Symbols, each with a comma and a space before it.
#[derive(Drop)]
struct Others<'a>(&'a [SymbolName]);

impl fmt::Display for Others<'_> {
    ghost output = { λ o. Some (others_text o.0.now) };

    fn fmt<W: fmt::Write>(&self, f: &mut fmt::Formatter<W>) -> fmt::Result {
        for symbol in self.0 {
            write!(f, ", {symbol}")?;
        }
        Ok(())
    }
}

/// Symbols, separated by a comma and a space.
#[derive(Drop)]
struct Symbols<'a>(&'a [SymbolName]);

impl fmt::Display for Symbols<'_> {
    ghost output = { λ s. Some (symbols_text s.0.now) };

    fn fmt<W: fmt::Write>(&self, f: &mut fmt::Formatter<W>) -> fmt::Result {
        match self.0.split_first() {
            None => Ok(()),
            Some((first, others)) => {
                let others = Others(others);
                write!(f, "{first}{others}")
            }
        }
    }
}

/// Prints the terms as people write them, as `both(symbol ACME, min-size 100)`.
impl fmt::Display for Terms {
    ghost use Rattle.filter_terms.specs.Text.{terms_text};

    ghost output = { λ t. Some (terms_text t) };

    fn fmt<W: fmt::Write>(&self, f: &mut fmt::Formatter<W>) -> fmt::Result {
        match self {
            Terms::All => f.write_str("all"),
            Terms::Symbol(symbol) => write!(f, "symbol {symbol}"),
            Terms::AnyOf(symbols) => {
                let symbols = Symbols(symbols.as_slice());
                write!(f, "any-of({symbols})")
            }
            Terms::MinSize(size) => write!(f, "min-size {size}"),
            Terms::StateIs(state) => write!(f, "state {state}"),
            Terms::Both(first, second) => write!(f, "both({first}, {second})"),
        }
    }
}

/// Prints the advice, as `buy 0:10.1600x250`.
impl fmt::Display for Advice {
    ghost use Rattle.filter_terms.specs.Text.{advice_text};

    ghost output = { λ a. Some (advice_text a) };

    fn fmt<W: fmt::Write>(&self, f: &mut fmt::Formatter<W>) -> fmt::Result {
        match *self {
            Advice::Hold => f.write_str("hold"),
            Advice::Buy { venue, price, size } => {
                let taken = Best { venue, price, size };
                write!(f, "buy {taken}")
            }
            Advice::Sell { venue, price, size } => {
                let taken = Best { venue, price, size };
                write!(f, "sell {taken}")
            }
        }
    }
}
