//! The subscriber that has looked at the fewest changes.

ghost use Rattle.std.specs.Prelude.{◌≡◌};
ghost use Rattle.journal_book.specs.Slowest.{slowest as slowest_of};

use crate::cursor::Cursor;

/// Returns how many changes the slowest subscriber has looked at, `end` where there is none.
pub(crate) fn slowest(cursors: &[Cursor], end: usize) -> usize
    ensures { result ≡ slowest_of end cursors.now }
{
    let mut least = end;
    for cursor in cursors {
        least = least.min(cursor.seen);
    }
    least
}
