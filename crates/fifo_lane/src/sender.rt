//! The sending end of a lane.

ghost use Rattle.std.specs.Prelude.{◌≡◌, ◌≤◌, ◌++◌, ◌∷◌, [], true, MatchResult};
ghost use Rattle.std.specs.Arc.{arc_value};
ghost use Rattle.crossbeam_queue.specs.Passes.{view, IsPassOf, ruled_capacity};
ghost use Rattle.fifo_lane.specs.Lane.{lane_end, with_items, HasFilled};
ghost use Rattle.fifo_lane.specs.Passes.{sending};

use crate::known::{LanePass, Queue};
use crate::rule::LaneRule;
use crate::steps::Pushed;
use std::alloc::Global;
use std::marker::Model;
use std::sync::{Arc, Wait};

/// The sending end of a lane. Contracts see it as a `LaneEnd`, whose items are those sent.
#[derive(Drop)]
pub struct Sender<T, R: LaneRule<T>> {
    queue: Arc<Queue<T, R>, Global>,
    pass: LanePass<T>,
    tag: u8,
}

impl<T, R: LaneRule<T>> Model for Sender<T, R> {
    ghost use Rattle.fifo_lane.specs.Lane.{LaneEnd, lane_end, lane_end_code};

    ghost Value = { LaneEnd T };

    ghost coded = { lane_end_code T.code };

    ghost use Rattle.std.specs.Prelude.{◌≡◌, ◌≤◌, true};
    ghost use Rattle.std.specs.Arc.{arc_value};
    ghost use Rattle.crossbeam_queue.specs.Passes.{view as known, IsPassOf, ruled_capacity};

    ghost view = { λ s. lane_end s.pass.table_id s.tag (ruled_capacity (arc_value s.queue))
        (known s.pass).sent };

    ghost invariant = { λ s. IsPassOf (arc_value s.queue) s.pass
        × ((known s.pass).may_push ≡ true)
        × ((known s.pass).tag ≡ s.tag)
        × ((known s.pass).capacity ≡ ruled_capacity (arc_value s.queue))
        × (1 ≤ ruled_capacity (arc_value s.queue))
        × (ruled_capacity (arc_value s.queue) ≤ 65536) };
}

impl<T, R: LaneRule<T>> Sender<T, R> {
    pub(crate) fn made(queue: Arc<Queue<T, R>, Global>, pass: LanePass<T>, tag: u8) -> Sender<T, R>
        requires pass { IsPassOf (arc_value queue) pass }
        requires view { view pass ≡ sending tag (ruled_capacity (arc_value queue)) [] }
        requires least { 1 ≤ ruled_capacity (arc_value queue) }
        requires most { ruled_capacity (arc_value queue) ≤ 65536 }
        ensures { result ≡ lane_end pass.table_id tag (ruled_capacity (arc_value queue)) [] }
    {
        Sender { queue, pass, tag }
    }

    pub(crate) fn into_parts(self) -> (Arc<Queue<T, R>, Global>, LanePass<T>)
        ensures pass { IsPassOf (arc_value result.0) result.1 × ((view result.1).may_push ≡ true) }
        ensures view { self ≡ lane_end result.1.table_id (view result.1).tag
            (view result.1).capacity (view result.1).sent }
    {
        let Sender {
            queue,
            pass,
            tag: _,
        } = self;
        (queue, pass)
    }

    /// The tag that the lane was made with. Both ends show it, and it never changes.
    pub fn tag(&self) -> u8
        ensures { result ≡ self.now.tag }
    {
        self.tag
    }

    /// The number of items for which the lane has room, 1 to 65,536.
    pub fn capacity(&self) -> usize
        ensures value { result ≡ self.now.capacity }
        ensures in_range { (1 ≤ result) × (result ≤ 65536) }
    {
        self.queue.capacity()
    }

    /// Sends an item, which the lane's rule has to allow after everything that was sent. Where the
    /// lane is full it is handed back, and nothing was sent. No clause says that the lane was full
    /// then, but that as many items were sent as it has room for.
    #[inline(always)]
    pub fn push<W: Wait>(&mut self, rt: &W, item: T) -> Result<(), T>
        requires { R.may_send self.old.tag (self.old.items ++ item ∷ []) }
        ensures { MatchResult result
            (λ _. self.new ≡ with_items self.old (self.old.items ++ item ∷ []))
            (λ back. (back ≡ item) × (self.new ≡ self.old) × HasFilled self.old) }
    {
        self.queue.push_as::<Pushed<R>, W>(rt, &mut self.pass, item)
    }
}
