//! The steps that a lane is made of, each with the one pass whose knowledge it changes:
//!
//! | Step | Pass | Change |
//! |---|---|---|
//! | the queue is made | the first | it may do all and has done nothing |
//! | it is parted ([`Parted`]) | both ends' | they have tag and capacity; one may push, one pop |
//! | a push ([`Pushed`]) | the sender's | the item joins what was sent, if the rule allows it |
//! | a refused push | the sender's | none: as many were sent as it has room for |
//! | a pop ([`Popped`]) | the receiver's | the front item joins what was received |
//! | an empty pop | the receiver's | none |
//! | the ends are joined ([`Joined`]) | the sender's | it has both lists |
//! | a settled lane's pop ([`Drained`]) | the joined one | as a pop, or none: nothing is inside |

use crate::known::{Known, Label};
use crate::rule::LaneRule;
use crossbeam_queue::protocol::{Join, Lesson, Outcome, Split};
use std::marker::PhantomData;

// The first pass is split into the ends of a lane with this label.
pub struct Parted<K>(PhantomData<K>);

impl<T, K: Label> Split<Known<T>> for Parted<K> {
    ghost use Rattle.fifo_lane.specs.Passes.{sending, receiving};

    ghost left = { λ v. sending K.tag K.capacity v.sent };

    ghost right = { λ v. receiving K.tag K.capacity v.received };
}

// The sender pushes an item, or learns that no more is inside than it has sent.
pub struct Pushed<R>(PhantomData<R>);

impl<T, R> Outcome<T, Known<T>> for Pushed<R> {
    ghost use Rattle.std.specs.Prelude.{◌≡◌};
    ghost use Rattle.fifo_lane.specs.Passes.{with_sent};

    ghost then = { λ v x w. w ≡ with_sent v x };
}

impl<T, R> Lesson<T, Known<T>> for Pushed<R> {
    ghost use Rattle.std.specs.Prelude.{◌≤◌, length};

    ghost fact = { λ v inside. length inside ≤ length v.sent };
}

// The receiver pops the front item, or learns that what it has received obeys the lane's rule.
pub struct Popped<R>(PhantomData<R>);

impl<T, R: LaneRule<T>> Outcome<T, Known<T>> for Popped<R> {
    ghost use Rattle.std.specs.Prelude.{◌≡◌, ◌++◌, ◌∷◌, []};
    ghost use Rattle.fifo_lane.specs.Passes.{with_received};

    ghost then = { λ v x w. (w ≡ with_received v x) × R.may_send v.tag (v.received ++ x ∷ []) };
}

impl<T, R: LaneRule<T>> Lesson<T, Known<T>> for Popped<R> {
    ghost fact = { λ v inside. R.may_send v.tag v.received };
}

// The two ends of one lane are joined: the sender's pass takes over what the receiver's knows.
pub struct Joined;

impl<T> Join<Known<T>> for Joined {
    ghost use Rattle.fifo_lane.specs.Passes.{joined, spent};

    ghost both = { λ v w. joined v w };

    ghost spent = { spent };
}

// What both ends together know: exactly what is inside.
pub struct Drained<R>(PhantomData<R>);

impl<T, R> Outcome<T, Known<T>> for Drained<R> {
    ghost use Rattle.std.specs.Prelude.{◌≡◌, ◌++◌, ◌∷◌, List};
    ghost use Rattle.fifo_lane.specs.Passes.{with_received};

    ghost then = { λ v x w. (w ≡ with_received v x)
        × ((rest : List T) × (v.sent ≡ v.received ++ x ∷ rest)) };
}

impl<T, R: LaneRule<T>> Lesson<T, Known<T>> for Drained<R> {
    ghost use Rattle.fifo_lane.specs.Lane.{Keeps};

    ghost fact = { λ v inside. Keeps R.may_send v.tag v.capacity v.sent v.received inside };
}
