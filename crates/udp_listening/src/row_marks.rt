//! What the thread that prints rows marks of them.

use live_feed::{FeedName, SubscriberLog};
use run_watches::RowProgress;
use std::time::Clock;

/// Where the thread that prints rows marks how far it is, and the clock by which it measures how
/// long a row took from its datagram on.
#[derive(Drop)]
pub struct RowMarks<C> {
    progress: RowProgress,
    clock: C,
}

impl<C> RowMarks<C> {
    /// Returns marks in this progress, with this clock.
    pub fn new(progress: RowProgress, clock: C) -> RowMarks<C> {
        RowMarks { progress, clock }
    }
}

impl<C: Clock> RowMarks<C> {
    /// Marks that all that the log has was taken.
    pub fn take<N: FeedName>(&self, log: &SubscriberLog<N>) {
        if let Some(last) = log.log().last() {
            self.progress.take(last.notice.number);
        }
    }

    /// Marks that a write begins.
    pub fn begin_write(&self) {
        self.progress.begin_write();
    }

    /// Marks that the write is over, and that the rows of the log that weren't printed yet are.
    pub fn end_write<N: FeedName>(&self, log: &SubscriberLog<N>) {
        if let Some(last) = log.log().last() {
            self.progress.end_write(last.notice.number);
        }
        self.count_latencies(log);
    }

    /// Counts how long each of these rows took from its datagram on, where that is known.
    fn count_latencies<N: FeedName>(&self, log: &SubscriberLog<N>) {
        let Ok(now) = self.clock.since_1970() else {
            return;
        };
        let Ok(now) = u64::try_from(now.as_nanos()) else {
            return;
        };
        for logged in log.log() {
            if let Some(time) = log.time_of(logged.notice.number) {
                self.progress.count_latency(now.saturating_sub(time));
            }
        }
    }
}
