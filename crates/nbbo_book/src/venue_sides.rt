//! The sides that the venues show of a symbol.

ghost use Rattle.std.specs.Prelude.{◌≡◌, ◌<◌, replicate, None};
ghost use Rattle.feed_types.specs.declared.line.Side.TheVariants.{Bid, Offer};
ghost use Rattle.nbbo_book.specs.VenueSides.{sides_in, with_side, venue_side_at};

use crate::venue_side::VenueSide;
use feed_types::{MAX_VENUES, Side, VenueId};
use std::marker::Model;

/// Both sides that a venue shows. A quotation reads and writes both, so that they lie in one line
/// of 64 bytes.
#[derive(Clone, Copy)]
struct SidePair {
    bid: VenueSide,
    offer: VenueSide,
    apart: [u64; 2],
}

/// The sides that the venues show of a symbol.
#[derive(Drop)]
pub struct VenueSides {
    /// At the place of each venue's number.
    pairs: [SidePair; MAX_VENUES],
}

impl Model for VenueSides {
    ghost use Rattle.nbbo_book.specs.VenueSides.{SidesState};
    ghost use Rattle.nbbo_book.specs.SidePairs.{sides_of_pairs};

    ghost Value = { SidesState };

    ghost view = { λ s. sides_of_pairs s.pairs };
}

impl VenueSides {
    /// Makes sides of venues that show nothing yet.
    pub fn new() -> VenueSides
        ensures bids { result.bids ≡ replicate 16 (record { quote = None; age = 0 }) }
        ensures offers { result.offers ≡ replicate 16 (record { quote = None; age = 0 }) }
    {
        let none = VenueSide::new(None, 0);
        VenueSides {
            pairs: [SidePair {
                bid: none,
                offer: none,
                apart: [0; 2],
            }; MAX_VENUES],
        }
    }

    /// Returns the side at the venue's place.
    #[inline(always)]
    pub fn get(&self, side: Side, venue: VenueId) -> VenueSide
        ensures value { result ≡ venue_side_at (sides_in side self.now) venue }
        ensures in_range { venue < 16 }
    {
        let pair = &self.pairs[venue.index()];
        match side {
            Side::Bid => pair.bid,
            Side::Offer => pair.offer,
        }
    }

    /// Notes what the venue shows from now on.
    #[inline(always)]
    pub fn set(&mut self, side: Side, venue: VenueId, venue_side: VenueSide)
        ensures { self.new ≡ with_side side venue venue_side self.old }
    {
        match side {
            Side::Bid => self.set_bid(venue, venue_side),
            Side::Offer => self.set_offer(venue, venue_side),
        }
    }

    /// Notes the bid that the venue shows from now on.
    #[inline(always)]
    fn set_bid(&mut self, venue: VenueId, bid: VenueSide)
        ensures { self.new ≡ with_side Bid venue bid self.old }
    {
        self.pairs[venue.index()].bid = bid;
    }

    /// Notes the offer that the venue shows from now on.
    #[inline(always)]
    fn set_offer(&mut self, venue: VenueId, offer: VenueSide)
        ensures { self.new ≡ with_side Offer venue offer self.old }
    {
        self.pairs[venue.index()].offer = offer;
    }
}
