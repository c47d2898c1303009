//! One side of a symbol: the bids, or the offers. It is what each venue shows there, and the ranks
//! of those sides that are eligible.

ghost use Rattle.std.specs.Prelude.{◌≡◌, not, false, None};
ghost use Rattle.nbbo_book.specs.Changes.{is_same_best};
ghost use Rattle.nbbo_book.specs.Ranks.{HasPlaces, best_of_ranks};
ghost use Rattle.nbbo_book.specs.VenueSides.{sides_in, sides_across, book_side_of};
ghost use Rattle.nbbo_book.specs.BookSides.{ArePast, IsRanked, side_quoted, side_rechecked};

use crate::ranks::{Cause, Order, RankPlaces, Ranks};
use crate::side_quote::{is_same, rank_of};
use crate::venue_side::VenueSide;
use crate::venue_sides::VenueSides;
use feed_types::{Side, VenueId};

/// The venue that quotes, and whether it may be ranked in the symbol.
#[derive(Clone, Copy)]
pub struct Quoter {
    pub venue: VenueId,
    pub may_rank: bool,
}

/// Notes what the venue shows on this side from now on, and ranks it, or takes it out where it
/// isn't eligible. Where it differs from what the venue showed, its age is newer than all others'.
/// Returns whether the best side differs then.
#[inline(always)]
pub fn set_quote(
    sides: &mut VenueSides,
    ranks: &mut Ranks,
    places: &mut RankPlaces,
    side: Side,
    quoter: &Quoter,
    venue_side: VenueSide,
) -> bool
    requires kept { HasPlaces places.old ranks.old.items }
    requires ranked { IsRanked side (book_side_of side sides.old ranks.old.items) }
    requires past { ArePast venue_side.age (sides_in side sides.old) }
    ensures kept { HasPlaces places.new ranks.new.items }
    ensures side { book_side_of side sides.new ranks.new.items
        ≡ side_quoted side quoter.now.venue venue_side.quote venue_side.age
        quoter.now.may_rank (book_side_of side sides.old ranks.old.items) }
    ensures across { sides_across side sides.new ≡ sides_across side sides.old }
    ensures moved { result
        ≡ not (is_same_best (best_of_ranks ranks.old.items) (best_of_ranks ranks.new.items)) }
{
    let shown = sides.get(side, quoter.venue);
    if is_same(shown.quote(), venue_side.quote()) {
        return false;
    }
    sides.set(side, quoter.venue, venue_side);
    let order = Order {
        side,
        cause: Cause::Quoted,
        venue_sides: sides,
    };
    let best = rank_of(quoter.may_rank, quoter.venue, venue_side.quote());
    places.update(ranks, &order, quoter.venue, best)
}

/// Notes that the venue shows nothing on this side since this age. Returns whether the best side
/// differs then.
#[inline(always)]
pub fn clear_quote(
    sides: &mut VenueSides,
    ranks: &mut Ranks,
    places: &mut RankPlaces,
    side: Side,
    venue: VenueId,
    age: u64,
) -> bool
    requires kept { HasPlaces places.old ranks.old.items }
    requires ranked { IsRanked side (book_side_of side sides.old ranks.old.items) }
    requires past { ArePast age (sides_in side sides.old) }
    ensures kept { HasPlaces places.new ranks.new.items }
    ensures side { book_side_of side sides.new ranks.new.items
        ≡ side_quoted side venue None age false (book_side_of side sides.old ranks.old.items) }
    ensures across { sides_across side sides.new ≡ sides_across side sides.old }
    ensures moved { result
        ≡ not (is_same_best (best_of_ranks ranks.old.items) (best_of_ranks ranks.new.items)) }
{
    let quoter = Quoter {
        venue,
        may_rank: false,
    };
    let none = VenueSide::new(None, age);
    set_quote(sides, ranks, places, side, &quoter, none)
}

/// Ranks the venue's side, or takes it out, where the venue may be ranked again or may not. Returns
/// whether the best side differs then.
#[inline(always)]
pub fn recheck_eligibility(
    sides: &VenueSides,
    ranks: &mut Ranks,
    places: &mut RankPlaces,
    side: Side,
    quoter: &Quoter,
) -> bool
    requires kept { HasPlaces places.old ranks.old.items }
    requires ready { IsRanked side (book_side_of side sides.now ranks.old.items) }
    ensures kept { HasPlaces places.new ranks.new.items }
    ensures side { book_side_of side sides.now ranks.new.items
        ≡ side_rechecked side quoter.now.venue quoter.now.may_rank
        (book_side_of side sides.now ranks.old.items) }
    ensures moved { result
        ≡ not (is_same_best (best_of_ranks ranks.old.items) (best_of_ranks ranks.new.items)) }
{
    let shown = sides.get(side, quoter.venue);
    let order = Order {
        side,
        cause: Cause::Rechecked,
        venue_sides: sides,
    };
    let best = rank_of(quoter.may_rank, quoter.venue, shown.quote());
    places.update(ranks, &order, quoter.venue, best)
}
