//! How a run is stopped from outside.

use live_wakeups::Wakeups;
use std::alloc::Global;
use std::sync::Arc;

/// Stops the runs of a feed, from whichever thread. It goes wherever its owner wants, and the feed
/// gives as many as are asked for.
#[derive(Drop)]
pub struct StopHandle {
    wakeups: Arc<Wakeups, Global>,
}

impl StopHandle {
    pub(crate) fn new(wakeups: Arc<Wakeups, Global>) -> StopHandle {
        StopHandle { wakeups }
    }

    /// Has the lines of the feed's runs, of those to come, too, read no further datagram. A run
    /// ends then as where its lines end: what they brought is pushed, journaled, offered and
    /// polled, and its report has no reason of an early stop. It waits for a line whose source
    /// waits in `next` until that answers.
    pub fn stop(&self) {
        self.wakeups.end_runs();
    }

    /// Whether the runs of the feed were stopped by one of its handles.
    pub fn is_stopped(&self) -> bool {
        self.wakeups.are_runs_ended()
    }
}
