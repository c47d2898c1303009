//! The knowledge that the ends of a lane have of it, and the rule of the queue under them.

use crate::rule::LaneRule;
use crossbeam_queue::protocol::Protocol;
use crossbeam_queue::{Pass, RuledArrayQueue};
use std::collections::LinkedList;
use std::marker::{Brand, PhantomData};

// What a pass of the queue may do, of which lane it is, and what it has pushed and popped. It is
// for statements alone: no value of it is made.
pub struct Known<T> {
    pub may_push: bool,
    pub may_pop: bool,
    pub tag: u8,
    pub capacity: u32,
    pub sent: LinkedList<T>,
    pub received: LinkedList<T>,
}

// The queue of a lane: what it holds and what its passes know is one lane under the rule `R`.
pub struct LaneProtocol<R>(PhantomData<R>);

impl<T, R: LaneRule<T>> Protocol<T, Known<T>> for LaneProtocol<R> {
    ghost use Rattle.fifo_lane.specs.Passes.{first, IsLane};

    ghost holds = { IsLane R.may_send };

    ghost first = { first };
}

pub type Queue<T, R> = RuledArrayQueue<T, Known<T>, LaneProtocol<R>>;

pub type LanePass<T> = Pass<T, Known<T>>;

// A tag and a capacity, which the call that splits the first pass picks.
pub trait Label {
    ghost use Rattle.std.specs.Prelude.{ℕ};

    ghost tag: { ℕ };

    ghost capacity: { ℕ };
}

impl Label for Brand {
    ghost tag = { 0 };

    ghost capacity = { 0 };
}
