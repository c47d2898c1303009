//! The room that a journal grows into.

ghost use Rattle.std.specs.Prelude.{◌≡◌, ◌<◌, ◌≤◌, ◌+◌, OnOk, OnErr};
ghost use Rattle.std.specs.Vec.{vec_len, vec_capacity};

use std::alloc::AllocError;

/// The number of elements for which a list gets room at first. The system gives memory only where
/// it is written, and a list that has room isn't moved, nor mapped again, while it grows.
const FIRST_ROOM: usize = 1 << 20;

/// Makes room for `wanted` more elements. An empty list gets room for `FIRST_ROOM` of them, or for
/// `enough` where that is less, if that much memory can be had.
#[inline(never)]
pub(crate) fn make_room<T>(
    list: &mut Vec<T>,
    wanted: usize,
    enough: usize,
) -> Result<(), AllocError>
    ensures items { list.new.items ≡ list.old.items }
    ensures room { OnOk result (vec_len list.new + wanted ≤ vec_capacity list.new) }
    ensures full { OnErr result (vec_capacity list.new < vec_len list.new + wanted) }
{
    let first = FIRST_ROOM.min(enough).max(wanted);
    if list.is_empty() && list.reserve(first).is_ok() {
        return Ok(());
    }
    list.reserve(wanted)
}
