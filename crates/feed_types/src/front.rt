//! The front of a list, which goes once nobody reads it any more.

ghost use Rattle.std.specs.Prelude.{◌≡◌, ◌≤◌, drop};
ghost use Rattle.std.specs.Vec.{vec_len, vec_capacity};

/// Lets go of the first `count` items, of at least as many. The others move to the front, and the
/// list keeps its memory.
pub fn drop_front<T: Copy>(list: &mut Vec<T>, count: usize)
    requires { count ≤ vec_len list.old }
    ensures items { list.new.items ≡ drop count list.old.items }
    ensures capacity { vec_capacity list.new ≡ vec_capacity list.old }
{
    let left = list.len() - count;
    list.copy_within(count.., 0);
    list.truncate(left);
}
