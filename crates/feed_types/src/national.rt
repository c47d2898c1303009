//! The national best bid and offer of a symbol.

ghost use Rattle.std.specs.Prelude.{◌≡◌, Some};

use crate::ids::VenueId;
use crate::price::Price;
use std::fmt;

/// The best quotation of one side: its venue, the price in ten-thousandths of a dollar, and the
/// size in shares.
#[derive(Clone, Copy, Debug, Default, PartialEq, Eq, Hash)]
pub struct Best {
    pub venue: VenueId,
    pub price: u32,
    pub size: u64,
}

/// Prints the venue, the price in dollars and the size, as `0:10.1500x300`.
impl fmt::Display for Best {
    ghost use Rattle.std.specs.Prelude.{Some};
    ghost use Rattle.feed_types.specs.Text.{best_text};

    ghost output = { λ b. Some (best_text b) };

    fn fmt<W: fmt::Write>(&self, f: &mut fmt::Formatter<W>) -> fmt::Result {
        let venue = self.venue;
        let price = Price(self.price);
        let size = self.size;
        write!(f, "{venue}:{price}x{size}")
    }
}

/// The national best bid and offer of one symbol. A side is `None` where no venue has an eligible
/// quotation.
#[derive(Clone, Copy, Debug, PartialEq, Eq, Hash)]
pub struct National {
    pub bid: Option<Best>,
    pub offer: Option<Best>,
}

impl National {
    ghost use Rattle.std.specs.Prelude.{◌≡◌};
    ghost use Rattle.feed_types.specs.Nationals.{state_of};

    /// The state of the two sides.
    pub fn state(&self) -> NationalState
        ensures { result ≡ state_of self.now }
    {
        match (self.bid, self.offer) {
            (None, None) => NationalState::Empty,
            (Some(_), None) | (None, Some(_)) => NationalState::OneSided,
            (Some(bid), Some(offer)) => {
                if bid.price == offer.price {
                    NationalState::Locked
                } else if bid.price > offer.price {
                    NationalState::Crossed
                } else {
                    NationalState::Normal
                }
            }
        }
    }
}

/// The state of a national best bid and offer.
#[derive(Clone, Copy, Debug, PartialEq, Eq, PartialOrd, Ord, Hash)]
pub enum NationalState {
    /// Neither side is there.
    Empty,
    /// One side is there.
    OneSided,
    /// The bid is below the offer.
    Normal,
    /// The bid equals the offer.
    Locked,
    /// The bid is above the offer.
    Crossed,
}

impl NationalState {
    ghost use Rattle.std.specs.Prelude.{◌≡◌};
    ghost use Rattle.feed_types.specs.Text.{state_text};

    /// The word that is printed for the state.
    pub fn word(self) -> &'static str
        ensures { result.now ≡ state_text self }
    {
        match self {
            NationalState::Empty => "empty",
            NationalState::OneSided => "one-sided",
            NationalState::Normal => "normal",
            NationalState::Locked => "locked",
            NationalState::Crossed => "crossed",
        }
    }
}

impl fmt::Display for NationalState {
    ghost use Rattle.std.specs.Prelude.{Some};
    ghost use Rattle.feed_types.specs.Text.{state_text};

    ghost output = { λ s. Some (state_text s) };

    fn fmt<W: fmt::Write>(&self, f: &mut fmt::Formatter<W>) -> fmt::Result {
        f.write_str(self.word())
    }
}
