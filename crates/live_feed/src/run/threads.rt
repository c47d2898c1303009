//! The threads of a run, both of lines and of subscribers.

ghost use Rattle.std.specs.Prelude.{◌≡◌, ◌≤◌, [], MatchResult, vec_len, vec_capacity};
ghost use Rattle.live_feed.specs.run.Runs.{Pairwise};

use crate::lists::made_of_each;
use std::thread::{Promise, PromisedHandle, Threads};

/// A thread that returns what `P` promises, or where none could be started the value that it would
/// have begun with.
pub(crate) type ThreadOf<T, P> = Result<PromisedHandle<T, P>, T>;

/// Waits for the thread, and returns its result.
fn join_one<T: Drop, P: Promise<T>, R: Threads>(rt: &R, thread: ThreadOf<T, P>) -> T
    ensures { MatchResult thread
        (λ handle. P.kept_by handle.promise result)
        (λ here. result ≡ here) }
{
    match thread {
        Ok(handle) => handle.join(rt),
        Err(here) => here,
    }
}

/// Waits for each thread, in order, and returns their results, in the list `ends`, which is empty
/// and has room for all.
pub(crate) fn join_each<T: Drop, P: Promise<T>, R: Threads>(
    rt: &R,
    threads: Vec<ThreadOf<T, P>>,
    ends: Vec<T>,
) -> Vec<T>
    requires empty { ends.items ≡ [] }
    requires room { vec_len threads ≤ vec_capacity ends }
    ensures count { vec_len result ≡ vec_len threads }
    ensures ends { Pairwise (λ thread end. MatchResult thread
        (λ handle. P.kept_by handle.promise end)
        (λ here. end ≡ here))
        threads.items result.items }
{
    made_of_each(threads, ends, &|_, thread| join_one(rt, thread))
}
