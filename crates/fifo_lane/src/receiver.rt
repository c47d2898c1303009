//! The receiving end of a lane.

ghost use Rattle.std.specs.Prelude.{◌≡◌, ◌++◌, ◌∷◌, [], true, IfSome, MatchOption};
ghost use Rattle.std.specs.Arc.{arc_value};
ghost use Rattle.crossbeam_queue.specs.Passes.{view, IsPassOf, ruled_capacity};
ghost use Rattle.fifo_lane.specs.Lane.{lane_end, with_items};
ghost use Rattle.fifo_lane.specs.Passes.{receiving};

use crate::known::{LanePass, Queue};
use crate::rule::LaneRule;
use crate::steps::Popped;
use std::alloc::Global;
use std::marker::Model;
use std::sync::{Arc, Wait};

/// The receiving end of a lane. Contracts see it as a `LaneEnd`, whose items are those received.
#[derive(Drop)]
pub struct Receiver<T, R: LaneRule<T>> {
    queue: Arc<Queue<T, R>, Global>,
    pass: LanePass<T>,
    tag: u8,
}

impl<T, R: LaneRule<T>> Model for Receiver<T, R> {
    ghost use Rattle.fifo_lane.specs.Lane.{LaneEnd, lane_end, lane_end_code};

    ghost Value = { LaneEnd T };

    ghost coded = { lane_end_code T.code };

    ghost use Rattle.std.specs.Prelude.{◌≡◌, true};
    ghost use Rattle.std.specs.Arc.{arc_value};
    ghost use Rattle.crossbeam_queue.specs.Passes.{view as known, IsPassOf, ruled_capacity};

    ghost view = { λ s. lane_end s.pass.table_id s.tag (ruled_capacity (arc_value s.queue))
        (known s.pass).received };

    ghost invariant = { λ s. IsPassOf (arc_value s.queue) s.pass
        × ((known s.pass).may_pop ≡ true)
        × ((known s.pass).tag ≡ s.tag)
        × ((known s.pass).capacity ≡ ruled_capacity (arc_value s.queue)) };
}

impl<T, R: LaneRule<T>> Receiver<T, R> {
    pub(crate) fn made(
        queue: Arc<Queue<T, R>, Global>,
        pass: LanePass<T>,
        tag: u8,
    ) -> Receiver<T, R>
        requires pass { IsPassOf (arc_value queue) pass }
        requires view { view pass ≡ receiving tag (ruled_capacity (arc_value queue)) [] }
        ensures { result ≡ lane_end pass.table_id tag (ruled_capacity (arc_value queue)) [] }
    {
        Receiver { queue, pass, tag }
    }

    pub(crate) fn into_parts(self) -> (Arc<Queue<T, R>, Global>, LanePass<T>)
        ensures pass { IsPassOf (arc_value result.0) result.1 × ((view result.1).may_pop ≡ true) }
        ensures view { self ≡ lane_end result.1.table_id (view result.1).tag
            (view result.1).capacity (view result.1).received }
    {
        let Receiver {
            queue,
            pass,
            tag: _,
        } = self;
        (queue, pass)
    }

    /// The tag that the lane was made with. Both ends show it, and it never changes.
    pub fn tag(&self) -> u8
        ensures { result ≡ self.now.tag }
    {
        self.tag
    }

    /// Receives the front item, or `None` where the lane is empty. Where the sender stands in the
    /// middle of its push it waits for it. What was received so far always obeys the lane's rule.
    /// No clause says that the lane was empty at None.
    pub fn pop<W: Wait>(&mut self, rt: &W) -> Option<T>
        ensures popped { MatchOption result (self.new ≡ self.old)
            (λ item. self.new ≡ with_items self.old (self.old.items ++ item ∷ [])) }
        ensures rule { R.may_send self.old.tag self.new.items }
    {
        self.queue.pop_as::<Popped<R>, W>(rt, &mut self.pass)
    }

    /// Receives the front item if its push has ended, and waits for nobody: `None` where the lane
    /// is empty, and where the sender stands in the middle of its push. It looks at the front's
    /// place alone, which the sender writes last, so that looks in vain don't keep the sender from
    /// its own.
    pub fn try_pop(&mut self) -> Option<T>
        ensures popped { MatchOption result (self.new ≡ self.old)
            (λ item. self.new ≡ with_items self.old (self.old.items ++ item ∷ [])) }
        ensures rule { IfSome result (λ _. R.may_send self.old.tag self.new.items) }
    {
        self.queue.try_pop_as::<Popped<R>>(&mut self.pass)
    }

    /// Receives the front item as `pop` does, or with no handle to wait by as `try_pop` does.
    #[inline(always)]
    pub fn pop_by<W: Wait>(&mut self, rt: Option<&W>) -> Option<T>
        ensures popped { MatchOption result (self.new ≡ self.old)
            (λ item. self.new ≡ with_items self.old (self.old.items ++ item ∷ [])) }
        ensures rule { IfSome result (λ _. R.may_send self.old.tag self.new.items) }
    {
        match rt {
            Some(rt) => self.pop(rt),
            None => self.try_pop(),
        }
    }
}
