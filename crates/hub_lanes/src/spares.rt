//! The making of the lanes of subscribers.

ghost use Rattle.std.specs.Prelude.{◌≡◌, length, IfOk};
ghost use Rattle.hub_lanes.specs.Spares.{AreUnused};

use crate::spare::SpareLane;
use fifo_lane::lane;
use std::alloc::{AllocError, Global};
use std::collections::VecDeque;

/// Makes the lanes of 32 subscribers, in the order of their ids.
pub fn new_spares(alloc: Global, capacity: u32) -> Result<VecDeque<SpareLane>, AllocError>
    ensures unused { IfOk result (λ spare. AreUnused capacity spare.items) }
    ensures count { IfOk result (λ spare. length spare.items ≡ 32) }
{
    let mut spare = VecDeque::new(alloc);
    for id in 0..32u8 {
        let Ok((sender, receiver)) = lane(alloc, id, capacity) else {
            return Err(AllocError);
        };
        spare.push_back(SpareLane { sender, receiver })?;
    }
    Ok(spare)
}
