//! The making of a lane.

ghost use Rattle.std.specs.Prelude.{◌≡◌, ◌<◌, ◌≤◌, ◌↔◌, ◌⊎◌, [], Err, IfOk, OnOk};
ghost use Rattle.crossbeam_queue.specs.Passes.{view, IsPassOf, IsSamePass, ruled_capacity};
ghost use Rattle.fifo_lane.specs.declared.fault.LaneFault.TheVariants.{BadCapacity};
ghost use Rattle.fifo_lane.specs.Passes.{first, sending, receiving};

use crate::fault::LaneFault;
use crate::known::{Label, LanePass, Queue};
use crate::receiver::Receiver;
use crate::rule::LaneRule;
use crate::sender::Sender;
use crate::steps::Parted;
use feed_types::MAX_LANE;
use std::alloc::Global;
use std::marker::Brand;
use std::sync::Arc;

/// The two ends of an empty lane with this tag, which has room for `capacity` items.
///
/// `BadCapacity` where that isn't 1 to [`MAX_LANE`], else `NoMemory` where the memory for its
/// places was refused. No other call of a lane takes memory. Under [`crate::VenueItems`] the tag is
/// the venue's number, under [`crate::RisingNotices`] the subscriber's id.
pub fn lane<T: Drop, R: LaneRule<T>>(
    alloc: Global,
    tag: u8,
    capacity: u32,
) -> Result<(Sender<T, R>, Receiver<T, R>), LaneFault>
    ensures new { IfOk result (λ r. (r.0.tag ≡ tag) × (r.0.capacity ≡ capacity)
        × (r.0.items ≡ [])) }

    // Both ends are of one lane, and show the same.
    ensures same { IfOk result (λ r. r.1 ≡ r.0) }
    ensures ok { OnOk result ((1 ≤ capacity) × (capacity ≤ 65536)) }
    ensures bad { (result ≡ Err BadCapacity) ↔ ((capacity < 1) ⊎ (65536 < capacity)) }
{
    if capacity == 0 || capacity > MAX_LANE {
        return Err(LaneFault::BadCapacity);
    }
    let Ok((queue, mut pass)) = Queue::<T, R>::ruled(alloc, capacity as usize) else {
        return Err(LaneFault::NoMemory);
    };
    let Ok(queue) = Arc::new(alloc, queue) else {
        return Err(LaneFault::NoMemory);
    };
    let Ok(theirs) = Arc::try_clone(&queue) else {
        return Err(LaneFault::NoMemory);
    };
    let other = part::<T, R, Brand>(&queue, &mut pass, tag);
    Ok((
        Sender::made(queue, pass, tag),
        Receiver::made(theirs, other, tag),
    ))
}

// Splits the first pass into those of the two ends.
fn part<T, R: LaneRule<T>, K: Label>(
    queue: &Queue<T, R>,
    pass: &mut LanePass<T>,
    tag: u8,
) -> LanePass<T>
    requires label { (tag ≡ K.tag) × (ruled_capacity queue.now ≡ K.capacity) }
    requires pass { IsPassOf queue.now pass.old × (view pass.old ≡ first) }
    ensures passes { IsSamePass pass.old pass.new × IsPassOf queue.now result }
    ensures sender { view pass.new ≡ sending tag (ruled_capacity queue.now) [] }
    ensures receiver { view result ≡ receiving tag (ruled_capacity queue.now) [] }
{
    queue.another::<Parted<K>>(pass)
}
