//! The changes that a journal keeps.

ghost use Rattle.std.specs.Prelude.{◌≡◌, ◌<◌, ◌≤◌, ◌+◌, ◌++◌, ◌∷◌, [], length};
ghost use Rattle.std.specs.Vec.{vec_len, vec_capacity};
ghost use Rattle.journal_book.specs.Changes.{notice_of, notices_from};

use crate::numbered_book::EntryChanges;
use feed_types::{Best, National, Notice};
use nbbo_book::Change;

/// Appends the change under this number.
#[inline(always)]
fn push_notice(notices: &mut Vec<Notice>, number: u64, change: &Change)
    requires { vec_len notices.old < vec_capacity notices.old }
    ensures items { notices.new.items
        ≡ notices.old.items ++ notice_of number change.now ∷ [] }
    ensures len { vec_len notices.new ≡ vec_len notices.old + 1 }
    ensures capacity { vec_capacity notices.new ≡ vec_capacity notices.old }
{
    // The prover is told here of the types that are nested in what is pushed.
    let bid: Option<Best> = change.national.bid;
    let offer: Option<Best> = change.national.offer;
    notices.push_reserved(Notice {
        number,
        position: change.position,
        symbol: change.symbol,
        national: National { bid, offer },
    });
}

/// Appends any changes under their numbers. There is room for them.
#[inline(never)]
fn push_each(notices: &mut Vec<Notice>, latest: EntryChanges<'_>)
    requires room { vec_len notices.old + length latest.changes.now ≤ vec_capacity notices.old }
    requires numbers { latest.first + length latest.changes.now ≤ 18446744073709551615 }
    ensures items { notices.new.items
        ≡ notices.old.items ++ notices_from latest.entry.first latest.entry.changes.now }
    ensures capacity { vec_capacity notices.new ≡ vec_capacity notices.old }
{
    let mut number = latest.first;
    for change in latest.changes {
        push_notice(notices, number, change);
        number += 1;
    }
}

/// Appends the changes under their numbers. There is room for them. Most often there is one, or
/// none.
#[inline(always)]
pub(crate) fn push_notices(notices: &mut Vec<Notice>, latest: EntryChanges<'_>)
    requires room { vec_len notices.old + length latest.changes.now ≤ vec_capacity notices.old }
    requires numbers { latest.first + length latest.changes.now ≤ 18446744073709551615 }
    ensures items { notices.new.items
        ≡ notices.old.items ++ notices_from latest.entry.first latest.entry.changes.now }
    ensures capacity { vec_capacity notices.new ≡ vec_capacity notices.old }
{
    match latest.changes {
        [change] => push_notice(notices, latest.first, change),
        [] => {}
        _ => push_each(notices, latest),
    }
}
