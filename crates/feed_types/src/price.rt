//! Prices as people read them.

ghost use Rattle.std.specs.Prelude.{Some};
ghost use Rattle.feed_types.specs.Text.{price_text};

use std::fmt;

/// A price in ten-thousandths of a dollar, which prints in dollars with four decimals: 101500 is
/// `10.1500`.
#[derive(Clone, Copy, Debug, PartialEq, Eq, PartialOrd, Ord, Hash)]
pub struct Price(pub u32);

impl fmt::Display for Price {
    ghost output = { λ p. Some (price_text p.0) };

    fn fmt<W: fmt::Write>(&self, f: &mut fmt::Formatter<W>) -> fmt::Result {
        let dollars = self.0 / 10_000;
        let tenths = self.0 / 1000 % 10;
        let cents = self.0 / 100 % 10;
        let mills = self.0 / 10 % 10;
        let last = self.0 % 10;
        write!(f, "{dollars}.{tenths}{cents}{mills}{last}")
    }
}
