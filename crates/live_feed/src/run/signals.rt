//! The signals between the threads of a run.

use crate::run::rules::RunRules;
use feed_types::{MAX_SUBSCRIBERS, SubscriberId};
use std::array;
use std::sync::atomic::{AtomicBool, AtomicU64, Ordering};

/// The signals between the threads of a run, and the rules by which its lines go on.
#[derive(Drop)]
pub(crate) struct Signals {
    rules: RunRules,
    /// Whether the run stops early.
    stop: AtomicBool,
    /// Whether a thread couldn't be started.
    no_thread: AtomicBool,
    /// The number of lines that haven't ended.
    lines_left: AtomicU64,
    /// Whether everything that can be offered was offered.
    offered: AtomicBool,
    /// By id, whether the subscriber's thread takes notices.
    polling: [AtomicBool; MAX_SUBSCRIBERS],
}

impl Signals {
    /// Returns the signals of a run of `lines` lines by these rules that has begun, with no thread
    /// yet.
    pub(crate) fn new(lines: u64, rules: RunRules) -> Signals {
        Signals {
            rules,
            stop: AtomicBool::new(false),
            no_thread: AtomicBool::new(false),
            lines_left: AtomicU64::new(lines),
            offered: AtomicBool::new(false),
            polling: array::from_fn(|_| AtomicBool::new(false)),
        }
    }

    /// The rules of the run.
    pub(crate) fn rules(&self) -> RunRules {
        self.rules
    }

    /// Stops the run early.
    pub(crate) fn stop(&self) {
        self.stop.store(true, Ordering::SeqCst);
    }

    /// Whether the run stops early.
    pub(crate) fn is_stopped(&self) -> bool {
        self.stop.load(Ordering::SeqCst)
    }

    /// Stops the run early, since a thread couldn't be started.
    pub(crate) fn note_spawn_failure(&self) {
        self.no_thread.store(true, Ordering::SeqCst);
        self.stop();
    }

    /// Whether a thread couldn't be started.
    pub(crate) fn has_spawn_failed(&self) -> bool {
        self.no_thread.load(Ordering::SeqCst)
    }

    /// Counts one more line that has ended.
    pub(crate) fn end_line(&self) {
        self.lines_left.fetch_sub(1, Ordering::SeqCst);
    }

    /// Whether all lines have ended.
    pub(crate) fn have_lines_ended(&self) -> bool {
        self.lines_left.load(Ordering::SeqCst) == 0
    }

    /// Notes that everything that can be offered was offered.
    pub(crate) fn end_offers(&self) {
        self.offered.store(true, Ordering::SeqCst);
    }

    /// Whether everything that can be offered was offered.
    pub(crate) fn have_offers_ended(&self) -> bool {
        self.offered.load(Ordering::SeqCst)
    }

    /// Notes whether the subscriber's thread takes notices from now on.
    pub(crate) fn set_polling(&self, id: SubscriberId, polls: bool) {
        self.polling[id.index()].store(polls, Ordering::SeqCst);
    }

    /// Whether the subscriber's thread takes notices.
    pub(crate) fn is_polling(&self, id: SubscriberId) -> bool {
        self.polling[id.index()].load(Ordering::SeqCst)
    }
}
