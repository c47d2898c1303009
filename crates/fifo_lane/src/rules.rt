//! The two rules of the feed.

use crate::rule::LaneRule;
use feed_types::{Genuine, Notice, Numbered};
use std::marker::PhantomData;

/// A venue's items, under the venue's number: the sequence numbers are 1, 2 and so on, after End
/// those of the next session, and each item is one that `G` lets the venue's lines carry there.
pub struct VenueItems<G>(PhantomData<G>);

impl<G: Genuine> LaneRule<Numbered> for VenueItems<G> {
    ghost use Rattle.feed_types.specs.Sequence.{IsInSequence};
    ghost use Rattle.feed_types.specs.SequenceLaws.{prefix_in_sequence};

    ghost may_send = { λ venue items. IsInSequence G.carries G.ends venue items };

    ghost empty = { λ venue. tt };

    ghost prefix = { λ venue xs ys all. prefix_in_sequence G.carries G.ends venue xs ys all };
}

/// A subscriber's notices, under its id: the number of each is less than those of all later ones.
pub struct RisingNotices;

impl LaneRule<Notice> for RisingNotices {
    ghost use Rattle.std.specs.Prelude.{◌<◌, AllPairs};
    ghost use Rattle.fifo_lane.specs.Rising.{AllPairs-none, AllPairs-prefix};

    ghost may_send = { λ id notices. AllPairs (λ x y. x.number < y.number) notices };

    ghost empty = { λ id. AllPairs-none (λ x y. x.number < y.number) };

    ghost prefix = { λ id xs ys all. AllPairs-prefix (λ x y. x.number < y.number) xs ys all };
}
