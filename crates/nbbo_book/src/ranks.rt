//! The ranks of one side of a symbol.

ghost use Rattle.std.specs.Prelude.{◌≡◌, ℕ, ◌+◌, ◌*◌, ◌^◌, ◌<◌, ◌≤◌, [], false, not, length, slice_index_or, insert, remove, IfSome, None, Some};
ghost use Rattle.nbbo_book.specs.Changes.{is_same_best};
ghost use Rattle.nbbo_book.specs.Ranks.{is_ahead as is_ahead_side, ages_in, AreNoted, CanMove, CanUpdate, HasNone, HasPlaces, IsPlace, without, with_rank, placed, best_of_ranks};

use crate::venue_sides::VenueSides;
use arrayvec::ArrayVec;
use feed_types::{Best, MAX_VENUES, Side, VenueId};

/// Why a venue's side is ranked anew.
#[derive(Clone, Copy)]
pub enum Cause {
    /// The venue's quotation is a new one, or none: it is the newest of all sides.
    Quoted,
    /// The venue may be ranked again, or may not: the side has kept its age.
    Rechecked,
}

/// The order of the sides of one side of a symbol.
#[derive(Clone, Copy)]
pub struct Order<'a> {
    pub side: Side,
    pub cause: Cause,
    /// What the venues show by now, with the ages.
    pub venue_sides: &'a VenueSides,
}

impl Order<'_> {
    /// Returns the age of the side.
    #[inline(always)]
    fn age_of(&self, best: &Best) -> u64
        ensures { result ≡ ages_in self.now best.now.venue }
    {
        self.venue_sides.get(self.side, best.venue).age()
    }
}

/// The eligible sides of one side of a symbol, best first; at most one of each venue.
pub type Ranks = ArrayVec<Best, MAX_VENUES>;

/// Where the ranks of one side of a symbol stand, and how many they are. It lies beside the symbol,
/// apart from the ranks, so that an entry reads of these those alone that its venue's side passes.
/// A venue that was never ranked has a place past all ranks, and none of them is read for it.
#[derive(Clone, Copy)]
pub struct RankPlaces {
    /// The place of each venue's side, under the venue's number. It counts where the side there is
    /// the venue's.
    places: [u8; MAX_VENUES],
    /// The number of ranks.
    count: u8,
}

/// The number of sizes that there are.
const SIZES: u128 = 18_446_744_073_709_551_616;

/// Returns a price and a size as one number, in the order of the price and then of the size.
#[inline(always)]
fn order_key(price: u32, size: u64) -> u128
    ensures { result ≡ price * 2 ^ 64 + size }
{
    u128::from(price) * SIZES + u128::from(size)
}

/// Returns whether `x`, the side that is ranked anew, ranks before `y`: by its price, its size or
/// its age. Which of the two is better is hard to predict: so price and size are compared as one
/// number, by one branch. Of offers the lower price is ahead, but the larger size: so each price
/// goes with the size of the other side.
///
/// The newest of all is never ahead by its age: then no age is read, and else only where all else
/// is equal.
#[inline(always)]
fn is_ahead(order: &Order<'_>, x: &Best, y: &Best) -> bool
    ensures { result ≡ is_ahead_side order.now x.now y.now }
{
    let (better, worse) = match order.side {
        Side::Bid => (order_key(x.price, x.size), order_key(y.price, y.size)),
        Side::Offer => (order_key(y.price, x.size), order_key(x.price, y.size)),
    };
    match order.cause {
        Cause::Quoted => worse < better,
        Cause::Rechecked => {
            worse < better || worse == better && order.age_of(x) < order.age_of(y)
        }
    }
}

/// Puts `x` in the place of the side at `from`, and moves it past its neighbours to its rank:
/// before those that it is ahead of, or else behind those that it isn't ahead of. Each of them
/// moves by one place. Returns its place. `count` is the number of ranks.
// It returns from two places: where they join, what it writes took 13 more instructions.
#[inline(always)]
fn move_to_rank(
    order: &Order<'_>,
    count: usize,
    ranks: &mut [Best],
    places: &mut [u8; MAX_VENUES],
    from: usize,
    x: &Best,
) -> usize
    requires counted { count ≡ length ranks.old }
    requires ready { CanMove places.old ranks.old from x.now }
    ensures ranks { ranks.new ≡ insert (remove ranks.old from) result x.now }
    ensures place { IsPlace order.now x.now (remove ranks.old from) result }
    ensures noted { AreNoted places.new ranks.new }
{
    let mut at = from;
    'up: while at > 0 && is_ahead(order, x, &ranks[at - 1]) {
        places[ranks[at - 1].venue.index()] = at as u8;
        ranks[at] = ranks[at - 1];
        at -= 1;
    }
    if at < from {
        places[x.venue.index()] = at as u8;
        ranks[at] = *x;
        return at;
    }
    'down: while at + 1 < count && !is_ahead(order, x, &ranks[at + 1]) {
        places[ranks[at + 1].venue.index()] = at as u8;
        ranks[at] = ranks[at + 1];
        at += 1;
    }
    places[x.venue.index()] = at as u8;
    ranks[at] = *x;
    at
}

/// Returns the place of the venue's side.
#[inline(always)]
fn place_of(ranks: &[Best], noted: &RankPlaces, venue: VenueId) -> Option<usize>
    requires { HasPlaces noted.now ranks.now }
    ensures found { IfSome result (λ at. at < length ranks.now) }
    ensures own { (x : Best) → IfSome result (λ at. (slice_index_or ranks.now at x).venue ≡ venue) }
    ensures there { IfSome result (λ at. without venue ranks.now ≡ remove ranks.now at) }
    ensures absent { result ≡ None → without venue ranks.now ≡ ranks.now }
{
    let at = usize::from(noted.places[venue.index()]);
    if at < noted.len() && ranks[at].venue == venue {
        return Some(at);
    }
    None
}

/// Notes the place of each side from `from` on, which is one place further on than is noted.
fn note_anew(ranks: &[Best], places: &mut [u8; MAX_VENUES], from: usize)
    requires few { length ranks.now ≤ 16 }
    requires before { (k : ℕ) (x : Best) → k < from → k < length ranks.now
        → slice_index_or places.old (slice_index_or ranks.now k x).venue 16 ≡ k }
    requires after { (k : ℕ) (x : Best) → from ≤ k → k < length ranks.now
        → slice_index_or places.old (slice_index_or ranks.now k x).venue 16 ≡ k + 1 }
    ensures { AreNoted places.new ranks.now }
{
    for at in from..ranks.len() {
        places[ranks[at].venue.index()] = at as u8;
    }
}

impl RankPlaces {
    /// Makes the places of no ranks.
    pub fn new() -> RankPlaces
        ensures { HasPlaces result [] }
    {
        RankPlaces {
            places: [u8::MAX; MAX_VENUES],
            count: 0,
        }
    }

    /// Returns the number of ranks.
    #[inline(always)]
    pub fn len(&self) -> usize
        ensures { result ≡ self.now.count }
    {
        usize::from(self.count)
    }

    /// Returns the best side.
    #[inline(always)]
    pub fn front(&self, best_first: &Ranks) -> Option<Best>
        requires { HasPlaces self.now best_first.now.items }
        ensures { result ≡ best_of_ranks best_first.now.items }
    {
        if self.count == 0 {
            return None;
        }
        Some(best_first.as_slice()[0])
    }

    /// Ranks the side of a venue that isn't ranked. Returns whether the best side differs then.
    #[inline(always)]
    fn add(&mut self, best_first: &mut Ranks, order: &Order<'_>, x: Best) -> bool
        requires kept { HasPlaces self.old best_first.old.items }
        requires ready { CanUpdate order.now x.venue (Some x) best_first.old.items }
        requires absent { without x.venue best_first.old.items ≡ best_first.old.items }
        ensures kept { HasPlaces self.new best_first.new.items }
        ensures ranks { best_first.new.items
            ≡ with_rank order.now.side (ages_in order.now) x best_first.old.items }
        ensures moved { result ≡ not (is_same_best (best_of_ranks best_first.old.items)
            (best_of_ranks best_first.new.items)) }
    {
        let from = self.len();
        best_first.push(x);
        self.count = self.count + 1;
        self.places[x.venue.index()] = from as u8;
        let ranks = best_first.as_mut_slice();
        move_to_rank(order, from + 1, ranks, &mut self.places, from, &x) == 0
    }

    /// Takes out the side at this place.
    #[inline(never)]
    fn remove_at(&mut self, best_first: &mut Ranks, at: usize)
        requires kept { HasPlaces self.old best_first.old.items }
        requires within { at < length best_first.old.items }
        ensures kept { HasPlaces self.new best_first.new.items }
        ensures ranks { best_first.new.items ≡ remove best_first.old.items at }
    {
        best_first.remove(at);
        self.count = self.count - 1;
        note_anew(best_first.as_slice(), &mut self.places, at);
    }

    /// Takes the venue's side out, where it has one. Returns whether the best side differs then.
    #[inline(always)]
    fn take_out(&mut self, best_first: &mut Ranks, venue: VenueId) -> bool
        requires kept { HasPlaces self.old best_first.old.items }
        requires once { HasNone venue (without venue best_first.old.items) }
        ensures kept { HasPlaces self.new best_first.new.items }
        ensures ranks { best_first.new.items ≡ without venue best_first.old.items }
        ensures moved { result ≡ not (is_same_best (best_of_ranks best_first.old.items)
            (best_of_ranks best_first.new.items)) }
    {
        match place_of(best_first.as_slice(), self, venue) {
            Some(at) => {
                self.remove_at(best_first, at);
                at == 0
            }
            None => false,
        }
    }

    /// Moves the venue's side to its rank, or takes it out where it has none. A side that is ranked
    /// already moves past its neighbours from where it is. Returns whether the best side differs
    /// then, which the places show: a side comes from the first one or goes to it.
    #[inline(always)]
    pub fn update(
        &mut self,
        best_first: &mut Ranks,
        order: &Order<'_>,
        venue: VenueId,
        best: Option<Best>,
    ) -> bool
        requires kept { HasPlaces self.old best_first.old.items }
        requires ready { CanUpdate order.now venue best best_first.old.items }
        ensures kept { HasPlaces self.new best_first.new.items }
        ensures ranks { best_first.new.items ≡ placed order.now.side (ages_in order.now) best
            (without venue best_first.old.items) }
        ensures moved { result ≡ not (is_same_best (best_of_ranks best_first.old.items)
            (best_of_ranks best_first.new.items)) }
    {
        let Some(x) = best else {
            return self.take_out(best_first, venue);
        };
        let Some(from) = place_of(best_first.as_slice(), self, venue) else {
            return self.add(best_first, order, x);
        };
        match order.cause {
            Cause::Quoted => {
                let count = self.len();
                let ranks = best_first.as_mut_slice();
                let to = move_to_rank(order, count, ranks, &mut self.places, from, &x);
                (from == 0) | (to == 0)
            }
            // What is ranked already keeps its place.
            Cause::Rechecked => false,
        }
    }
}
