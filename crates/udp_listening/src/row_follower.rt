//! The thread of a run that prints rows as they come.
ghost use Rattle.std.specs.Prelude.{◌≡◌};
ghost use Rattle.feed_types.specs.Prefix.{IsPrefix};
ghost use Rattle.text_out.specs.Members.{writing_of};
ghost use Rattle.udp_listening.specs.Listening.{KeepsFollowing, KeepsNoting};

use crate::console::{Console, LiveOutput};
use crate::output_state::OutputState;
use feed_types::Anything;
use live_feed::{Attendant, FeedName, OwnLog, RunView, SubscriberLog};
use std::alloc::Global;
use std::sync::Wait;
use std::thread::Threads;
use std::time::Clock;
use text_out::{LineBuffer, TextOut};

/// Who takes the notices of a run's subscriber as they come, and prints them where that is asked
/// for. It sleeps while there are none, and may wait in a write for as long as nobody reads.
#[derive(Drop)]
pub struct RowFollower<C, W> {
    pub console: Console<C, W>,
    /// Where lines are put together.
    text: LineBuffer,
    state: OutputState,
}

impl<C, W> RowFollower<C, W> {
    /// Returns the follower of a run that prints on this console, and marks in `state` how that
    /// goes.
    pub fn new(alloc: Global, console: Console<C, W>, state: OutputState) -> RowFollower<C, W>
        ensures { result.console ≡ console }
    {
        RowFollower {
            console,
            text: LineBuffer::new(alloc),
            state,
        }
    }
}

/// Waits for the next notice, and returns whether there was one: none comes once the run is over
/// and all that was offered in it is taken, nor where the log has no room for it.
fn has_awaited<N: FeedName, R: Wait>(
    rt: &R,
    run: &RunView<'_, Anything, N>,
    log: &mut SubscriberLog<N>,
) -> bool
    ensures lines { IsPrefix log.old.lines log.new.lines }
    ensures forgotten { log.new.forgotten ≡ log.old.forgotten }
{
    match run.await_notice(rt, log) {
        Ok(awaited) => awaited.is_some(),
        Err(_) => false,
    }
}

impl<C: Clock + Drop, W: TextOut + Drop> RowFollower<C, W> {
    /// Marks that the output has failed, where it has, so that the monitor ends the run.
    fn mark_failure(&self) {
        if self.console.live_output == LiveOutput::Failed {
            self.state.fail();
        }
    }

    /// Waits for a notice, and prints it with all that the subscriber is offered then. Returns
    /// whether there was one.
    fn turn<N: FeedName, R: Wait>(
        &mut self,
        rt: &R,
        run: &RunView<'_, Anything, N>,
        log: &mut SubscriberLog<N>,
    ) -> bool
        ensures shows { KeepsFollowing (writing_of W.TextOut)
            log.old self.old.console log.new self.new.console }
        ensures notes { KeepsNoting log.old self.old.console log.new self.new.console }
    {
        let has_come = has_awaited(rt, run, log);
        self.console.follow(rt, &mut self.text, log);
        self.mark_failure();
        has_come
    }

    /// Follows the run until it is over and all that its subscriber is offered was taken.
    fn follow_run<N: FeedName, R: Wait>(
        self,
        rt: &R,
        run: &RunView<'_, Anything, N>,
        log: SubscriberLog<N>,
    ) -> (RowFollower<C, W>, SubscriberLog<N>)
        ensures shows { KeepsFollowing (writing_of W.TextOut)
            log self.console result.1 result.0.console }
        ensures notes { KeepsNoting log self.console result.1 result.0.console }
    {
        let mut follower = self;
        let mut log = log;
        follower.mark_failure();
        for _ in rt.forever() {
            if !follower.turn(rt, run, &mut log) {
                break;
            }
        }
        log.end_polls();
        follower.state.finish();
        (follower, log)
    }
}

impl<N, C, W> Attendant<Anything, N, OwnLog<N>> for RowFollower<C, W>
where
    N: FeedName,
    C: Clock + Drop,
    W: TextOut + Drop,
{
    ghost use Rattle.udp_listening.specs.Monitors.{FollowsRows};

    ghost attends = { λ before log after later. FollowsRows
        (writing_of W.TextOut) before log after later };

    /// Follows the run with the log of its subscriber. Without one it does nothing.
    fn attend<R: Threads + Wait + Sync>(
        self,
        rt: &R,
        run: &RunView<'_, Anything, N>,
        log: OwnLog<N>,
    ) -> (RowFollower<C, W>, OwnLog<N>) {
        match log {
            Some(log) => {
                let (follower, log) = self.follow_run(rt, run, log);
                (follower, Some(log))
            }
            None => {
                self.state.finish();
                (self, None)
            }
        }
    }
}
