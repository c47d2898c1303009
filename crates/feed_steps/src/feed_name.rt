//! The name of a feed.

use std::marker::Brand;

/// A feed's name, in statements alone: it has no calls and costs nothing. Each feed that is opened
/// has a name of its own; a function that opens one is generic in it.
pub trait FeedName {
    ghost use Rattle.feed_steps.specs.Lanes.{FeedLanes};

    /// The feed's lanes, those of its venues, in order, and those of its subscribers, what it is
    /// set up with, and the names of the sessions that follow the venues' first ones.
    ghost lanes: { FeedLanes };
}

impl FeedName for Brand {
    ghost use Rattle.std.specs.Prelude.{[], None};

    ghost lanes = { record {
      venues = [];
      subscribers = [];
      setting = record {
        symbols = [];
        window = 0;
        lane = 0;
        journal = 0;
        log = 0;
        kept = None;
      };
      next = [];
    } };
}
