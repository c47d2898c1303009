//! One side of a quotation.

ghost use Rattle.std.specs.Prelude.{◌≡◌, Some};
ghost use Rattle.feed_types.specs.declared.line.Side.TheVariants.{Bid, Offer as OfferSide};
ghost use Rattle.nbbo_book.specs.Sides.{is_same_side, quoted_by};
ghost use Rattle.nbbo_book.specs.Eligible.{is_protected as is_protected_quote, ranked_by};

use feed_types::{Best, Quote, VenueId};

/// One side of a quotation: the price in ten-thousandths of a dollar, the size in shares, and
/// whether it is automated.
#[derive(Clone, Copy, Debug, PartialEq, Eq)]
pub struct SideQuote {
    pub size: u64,
    pub price: u32,
    pub automated: bool,
}

#[inline(always)]
pub(crate) fn bid_of(quote: &Quote) -> SideQuote
    ensures { result ≡ quoted_by quote.now Bid }
{
    SideQuote {
        size: quote.bid_size,
        price: quote.bid_price,
        automated: quote.bid_auto,
    }
}

#[inline(always)]
pub(crate) fn offer_of(quote: &Quote) -> SideQuote
    ensures { result ≡ quoted_by quote.now OfferSide }
{
    SideQuote {
        size: quote.offer_size,
        price: quote.offer_price,
        automated: quote.offer_auto,
    }
}

#[inline(always)]
pub(crate) fn is_same(x: Option<SideQuote>, y: Option<SideQuote>) -> bool
    ensures { result ≡ is_same_side x y }
{
    match (x, y) {
        (None, None) => true,
        // A new price most often comes with a new size: so the first comparison decides most.
        (Some(x), Some(y)) => {
            x.size == y.size && x.price == y.price && x.automated == y.automated
        }
        (Some(_), None) | (None, Some(_)) => false,
    }
}

#[inline(always)]
fn is_protected(quote: &SideQuote) -> bool
    ensures { result ≡ is_protected_quote quote.now }
{
    quote.automated && 0 < quote.price && 0 < quote.size
}

/// Returns what the venue is ranked with, where it may be ranked and its side is protected.
#[inline(always)]
pub(crate) fn rank_of(may: bool, venue: VenueId, quote: Option<SideQuote>) -> Option<Best>
    ensures { result ≡ ranked_by may venue quote }
{
    match quote {
        Some(quote) if may && is_protected(&quote) => Some(Best {
            venue,
            price: quote.price,
            size: quote.size,
        }),
        _ => None,
    }
}
