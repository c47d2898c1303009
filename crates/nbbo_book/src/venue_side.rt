//! The side that a venue shows of a symbol.

ghost use Rattle.std.specs.Prelude.{◌≡◌};

use crate::side_quote::SideQuote;
use std::marker::Model;

/// What a venue shows, if anything, and its age: how many entries there were when it took its
/// present value. It takes 24 bytes, since a book keeps 32 of them for each symbol.
#[derive(Clone, Copy)]
pub struct VenueSide {
    size: u64,
    age: u64,
    price: u32,
    automated: bool,
    is_quoted: bool,
}

impl Model for VenueSide {
    ghost use Rattle.nbbo_book.specs.VenueSides.{VenueSideState, quote_of, IsKept, is_quoted_by, size_of, price_of, automated_of};

    ghost Value = { VenueSideState };

    ghost view = { λ s. record {
      quote = quote_of s.is_quoted s.size s.price s.automated;
      age = s.age;
    } };

    ghost invariant = { λ s. IsKept s.is_quoted s.size s.price s.automated };

    ghost inverse = { λ s. record {
      size = size_of s.quote;
      age = s.age;
      price = price_of s.quote;
      automated = automated_of s.quote;
      is_quoted = is_quoted_by s.quote;
    } };
}

impl VenueSide {
    ghost use Rattle.nbbo_book.specs.VenueSides.{size_of};

    /// Makes the side of a venue that shows this, or nothing, since that age.
    #[inline(always)]
    pub fn new(quote: Option<SideQuote>, age: u64) -> VenueSide
        ensures { result ≡ record { quote = quote; age = age } }
    {
        match quote {
            Some(quote) => VenueSide {
                size: quote.size,
                age,
                price: quote.price,
                automated: quote.automated,
                is_quoted: true,
            },
            None => VenueSide {
                size: 0,
                age,
                price: 0,
                automated: false,
                is_quoted: false,
            },
        }
    }

    /// Returns what the venue shows.
    #[inline(always)]
    pub fn quote(self) -> Option<SideQuote>
        ensures { result ≡ self.quote }
    {
        if !self.is_quoted {
            return None;
        }
        Some(SideQuote {
            size: self.size,
            price: self.price,
            automated: self.automated,
        })
    }

    /// Returns the size, in shares; 0 where nothing is shown.
    #[inline(always)]
    pub fn size(self) -> u64
        ensures { result ≡ size_of self.quote }
    {
        self.size
    }

    /// Returns the age: how many entries there were when the side took its present value.
    #[inline(always)]
    pub fn age(self) -> u64
        ensures { result ≡ self.age }
    {
        self.age
    }
}
