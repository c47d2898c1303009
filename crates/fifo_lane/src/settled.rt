//! A lane whose two ends are in one hand again.

ghost use Rattle.std.specs.Prelude.{◌≡◌, ◌∷◌, [], MatchOption};
ghost use Rattle.fifo_lane.specs.Lane.{Keeps};

use crate::known::{LanePass, Queue};
use crate::receiver::Receiver;
use crate::rule::LaneRule;
use crate::sender::Sender;
use crate::steps::{Drained, Joined};
use std::alloc::Global;
use std::marker::Model;
use std::sync::{Arc, Wait};

/// What is still inside a lane whose ends were joined. Contracts see it as the list of these items.
#[derive(Drop)]
pub struct Settled<T, R: LaneRule<T>> {
    queue: Arc<Queue<T, R>, Global>,
    pass: LanePass<T>,
}

impl<T, R: LaneRule<T>> Model for Settled<T, R> {
    ghost use Rattle.std.specs.Prelude.{List, ◌≡◌, ◌++◌, true, drop, length};
    ghost use Rattle.std.specs.Coded.{coded_list};
    ghost use Rattle.std.specs.Arc.{arc_value};
    ghost use Rattle.crossbeam_queue.specs.Passes.{view as known, IsPassOf};

    ghost Value = { List T };

    ghost coded = { coded_list T.code };

    ghost view = { λ s. drop (length (known s.pass).received) (known s.pass).sent };

    ghost invariant = { λ s. IsPassOf (arc_value s.queue) s.pass
        × ((known s.pass).may_push ≡ true)
        × ((known s.pass).may_pop ≡ true)
        × ((inside : List T) × ((known s.pass).sent ≡ (known s.pass).received ++ inside)) };
}

/// Joins the two ends of one lane. What is inside can then be taken out, and nothing more comes in.
///
/// There are at most as many items as [`Sender::capacity`] returned.
pub fn settle<T: Drop, R: LaneRule<T>>(
    sender: Sender<T, R>,
    receiver: Receiver<T, R>,
) -> Settled<T, R>
    requires { sender.lane ≡ receiver.lane }
    ensures { Keeps R.may_send sender.tag sender.capacity sender.items receiver.items result }
{
    let (queue, mut pass) = sender.into_parts();
    let (_, other) = receiver.into_parts();
    queue.absorb::<Joined>(&mut pass, other);
    queue.learn_as::<Drained<R>>(&mut pass);
    Settled { queue, pass }
}

impl<T, R: LaneRule<T>> Settled<T, R> {
    /// Takes out the next item that is still inside, in the order in which they were sent.
    pub fn next<W: Wait>(&mut self, rt: &W) -> Option<T>
        ensures { MatchOption result
            ((self.old ≡ []) × (self.new ≡ []))
            (λ item. self.old ≡ item ∷ self.new) }
    {
        self.queue.pop_as::<Drained<R>, W>(rt, &mut self.pass)
    }
}
