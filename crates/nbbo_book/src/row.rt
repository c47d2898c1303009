//! The part of a book for one symbol.

ghost use Rattle.std.specs.Prelude.{◌≡◌, not};
ghost use Rattle.std.specs.Str.{bytes_eq};
ghost use Rattle.feed_types.specs.declared.line.Side.TheVariants.{Bid, Offer};
ghost use Rattle.nbbo_book.specs.Changes.{is_same_national};
ghost use Rattle.nbbo_book.specs.BookSides.{IsRanked};
ghost use Rattle.nbbo_book.specs.Rows.{IsRowRanked, row_quoted, row_ended, row_halted, row_helped, national_at, side_at, empty_row};

use crate::book_side::{clear_quote, recheck_eligibility, set_quote};
use crate::ranks::{RankPlaces, Ranks};
use crate::side_quote::{bid_of, offer_of};
use crate::venue_side::VenueSide;
use crate::venue_sides::VenueSides;
use crate::venues::VenueStates;
use arrayvec::ArrayVec;
use feed_types::{Best, MAX_VENUES, National, Quote, Side, SymbolName, VenueId};
use std::marker::Model;

/// The part of a book for one symbol. A quotation reads a line of 64 bytes, from the length of
/// `bids` to `halted`, one of `sides`, of the ranks those that its venue's sides pass, and the
/// length of `offers` where it adds one.
///
/// So that its parts keep to lines, a row takes whole ones, and `bids` lies 48 bytes past its
/// start, which is 16 past that of a line, as the C library places what is large.
#[derive(Drop)]
pub struct Row {
    before: [u64; 6],
    bids: Ranks,
    symbol: SymbolName,
    bid_places: RankPlaces,
    offer_places: RankPlaces,
    /// The venues that halt the symbol.
    halted: [bool; MAX_VENUES],
    offers: Ranks,
    between: [u64; 6],
    sides: VenueSides,
    after: [u64; 2],
}

impl Model for Row {
    ghost use Rattle.nbbo_book.specs.VenueSides.{RowState, book_side_of};
    ghost use Rattle.nbbo_book.specs.Ranks.{HasPlaces};
    ghost use Rattle.feed_types.specs.declared.line.Side.TheVariants.{Bid, Offer};

    ghost Value = { RowState };

    ghost view = { λ r. record {
      symbol = r.symbol;
      halted = r.halted;
      bids = book_side_of Bid r.sides r.bids.items;
      offers = book_side_of Offer r.sides r.offers.items;
    } };

    ghost invariant = { λ r. HasPlaces r.bid_places r.bids.items
        × HasPlaces r.offer_places r.offers.items };
}

impl Row {
    /// Makes the row of a symbol of which nothing is known yet.
    pub fn new(symbol: SymbolName) -> Row
        ensures { result ≡ empty_row symbol }
    {
        Row {
            before: [0; 6],
            bids: ArrayVec::new(),
            symbol,
            bid_places: RankPlaces::new(),
            offer_places: RankPlaces::new(),
            halted: [false; MAX_VENUES],
            offers: ArrayVec::new(),
            between: [0; 6],
            sides: VenueSides::new(),
            after: [0; 2],
        }
    }

    /// Returns the symbol.
    #[inline(always)]
    pub fn symbol(&self) -> SymbolName
        ensures { result ≡ self.now.symbol }
    {
        self.symbol
    }

    /// Returns whether the symbol is the row's. Their keys are compared: eight bytes at once.
    #[inline(always)]
    pub fn is_of(&self, symbol: SymbolName) -> bool
        ensures { result ≡ bytes_eq symbol self.now.symbol }
    {
        symbol.key() == self.symbol.key()
    }

    /// Takes a quotation of the symbol. Returns whether the national best differs then.
    #[inline(always)]
    pub fn take_quote(
        &mut self,
        venues: &VenueStates,
        venue: VenueId,
        quote: &Quote,
        age: u64,
    ) -> bool
        requires { IsRowRanked age self.old }
        ensures row { self.new ≡ row_quoted venues.now.helped venue quote.now age self.old }
        ensures changed { result
            ≡ not (is_same_national (national_at self.old) (national_at self.new)) }
    {
        let quoter = venues.quoter(&self.halted, venue);
        let bid = VenueSide::new(Some(bid_of(quote)), age);
        let offer = VenueSide::new(Some(offer_of(quote)), age);
        let bid = set_quote(
            &mut self.sides,
            &mut self.bids,
            &mut self.bid_places,
            Side::Bid,
            &quoter,
            bid,
        );
        let offer = set_quote(
            &mut self.sides,
            &mut self.offers,
            &mut self.offer_places,
            Side::Offer,
            &quoter,
            offer,
        );
        bid || offer
    }

    /// Takes the end of the venue's session, or a skip, after which nothing is known of the venue:
    /// it shows nothing, and halts nothing. Returns whether the national best differs then.
    #[inline(always)]
    pub fn take_end(&mut self, venue: VenueId, age: u64) -> bool
        requires { IsRowRanked age self.old }
        ensures row { self.new ≡ row_ended venue age self.old }
        ensures changed { result
            ≡ not (is_same_national (national_at self.old) (national_at self.new)) }
    {
        self.halted[venue.index()] = false;
        let bid = clear_quote(
            &mut self.sides,
            &mut self.bids,
            &mut self.bid_places,
            Side::Bid,
            venue,
            age,
        );
        let offer = clear_quote(
            &mut self.sides,
            &mut self.offers,
            &mut self.offer_places,
            Side::Offer,
            venue,
            age,
        );
        bid || offer
    }

    /// Ranks the venue's sides anew by the flags of self-help and the halts. Returns whether the
    /// national best differs then.
    #[inline(always)]
    pub fn recheck(&mut self, venues: &VenueStates, venue: VenueId) -> bool
        requires bids { IsRanked Bid (side_at Bid self.old) }
        requires offers { IsRanked Offer (side_at Offer self.old) }
        ensures row { self.new ≡ row_helped venues.now.helped venue self.old }
        ensures changed { result
            ≡ not (is_same_national (national_at self.old) (national_at self.new)) }
    {
        let quoter = venues.quoter(&self.halted, venue);
        let bid = recheck_eligibility(
            &self.sides,
            &mut self.bids,
            &mut self.bid_places,
            Side::Bid,
            &quoter,
        );
        let offer = recheck_eligibility(
            &self.sides,
            &mut self.offers,
            &mut self.offer_places,
            Side::Offer,
            &quoter,
        );
        bid || offer
    }

    /// Takes a halt of the symbol at the venue, or its end. Returns whether the national best
    /// differs then. It is a call of its own, since halts are rare.
    #[inline(never)]
    pub fn take_halt(&mut self, venues: &VenueStates, venue: VenueId, halted: bool) -> bool
        requires bids { IsRanked Bid (side_at Bid self.old) }
        requires offers { IsRanked Offer (side_at Offer self.old) }
        ensures row { self.new ≡ row_halted venues.now.helped venue halted self.old }
        ensures changed { result
            ≡ not (is_same_national (national_at self.old) (national_at self.new)) }
    {
        self.halted[venue.index()] = halted;
        self.recheck(venues, venue)
    }

    /// Reads something of each part that a quotation of the venue reads, and mixes it. Of the ranks
    /// it reads their number alone, since which of them a side passes isn't known.
    #[inline(always)]
    pub fn peek(&self, venue: VenueId) -> u64 {
        u64::from(self.halted[venue.index()]) ^ self.sides.get(Side::Bid, venue).size()
    }

    /// Returns the eligible sides, best first.
    pub fn ranks(&self, side: Side) -> &[Best]
        ensures { result.now ≡ (side_at side self.now).ranks }
    {
        match side {
            Side::Bid => self.bids.as_slice(),
            Side::Offer => self.offers.as_slice(),
        }
    }

    /// Returns the national best.
    #[inline(always)]
    pub fn national(&self) -> National
        ensures { result ≡ national_at self.now }
    {
        National {
            bid: self.bid_places.front(&self.bids),
            offer: self.offer_places.front(&self.offers),
        }
    }
}
