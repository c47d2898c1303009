//! How far a line is, for the thread beside its own.

use crate::session_mark::SessionMark;
use feed_types::SessionName;
use std::alloc::{AllocError, Global};
use std::sync::Arc;
use std::sync::atomic::{AtomicBool, AtomicU64, Ordering};

/// What a line's thread marks of it.
#[derive(Drop)]
struct LineMarks {
    /// The session whose end has ended the line.
    ender: SessionMark,
    /// Whether that is the line's own session.
    is_own: AtomicBool,
    /// It has read as many datagrams as it may.
    read_out: AtomicBool,
    /// It has failed.
    failed: AtomicBool,
    /// How many requests were sent.
    sent: AtomicU64,
    /// How many requests couldn't be sent.
    unsent: AtomicU64,
    /// How many requests weren't sent since too many were.
    held_back: AtomicU64,
    /// After how many ends of session it went on.
    passed: AtomicU64,
    /// How many datagrams of other senders were passed over.
    foreign: AtomicU64,
    /// How many datagrams were withheld since their numbers or ends aren't plausible.
    withheld: AtomicU64,
    /// One more than the moment of the last datagram of its senders, in milliseconds; 0 where none
    /// has come.
    after_heard_ms: AtomicU64,
    /// The first session that came and isn't the venue's.
    stranger: SessionMark,
}

/// How far a line is: its thread marks it, and the one beside it, which has a share, looks at it.
#[derive(Drop)]
pub struct LineProgress {
    marks: Arc<LineMarks, Global>,
}

impl LineProgress {
    /// The progress of a line that has read nothing.
    pub fn new(alloc: Global) -> Result<LineProgress, AllocError> {
        let marks = LineMarks {
            ender: SessionMark::new(),
            is_own: AtomicBool::new(false),
            read_out: AtomicBool::new(false),
            failed: AtomicBool::new(false),
            sent: AtomicU64::new(0),
            unsent: AtomicU64::new(0),
            held_back: AtomicU64::new(0),
            passed: AtomicU64::new(0),
            foreign: AtomicU64::new(0),
            withheld: AtomicU64::new(0),
            after_heard_ms: AtomicU64::new(0),
            stranger: SessionMark::new(),
        };
        Ok(LineProgress {
            marks: Arc::new(alloc, marks)?,
        })
    }

    /// The same progress, for another thread. AllocError where it can't be shared any further.
    pub fn share(&self) -> Result<LineProgress, AllocError> {
        Ok(LineProgress {
            marks: Arc::try_clone(&self.marks)?,
        })
    }

    /// Marks that an end of this session has ended the line, and whether it is the line's own.
    pub fn end(&self, session: &SessionName, is_own: bool) {
        self.marks.is_own.store(is_own, Ordering::SeqCst);
        self.marks.ender.mark(session);
    }

    /// Marks that the line has read as many datagrams as it may.
    pub fn read_out(&self) {
        self.marks.read_out.store(true, Ordering::SeqCst);
    }

    /// Marks that the line has failed.
    pub fn fail(&self) {
        self.marks.failed.store(true, Ordering::SeqCst);
    }

    /// Counts a request that was sent.
    pub fn count_sent(&self) {
        self.marks.sent.fetch_add(1, Ordering::SeqCst);
    }

    /// Counts a request that couldn't be sent.
    pub fn count_unsent(&self) {
        self.marks.unsent.fetch_add(1, Ordering::SeqCst);
    }

    /// Counts a request that wasn't sent since the line had sent as many as it may in a second.
    pub fn count_held_back(&self) {
        self.marks.held_back.fetch_add(1, Ordering::SeqCst);
    }

    /// Counts an end of session after which the line goes on.
    pub fn count_passed(&self) {
        self.marks.passed.fetch_add(1, Ordering::SeqCst);
    }

    /// Counts a datagram of a sender whose datagrams aren't taken.
    pub fn count_foreign(&self) {
        self.marks.foreign.fetch_add(1, Ordering::SeqCst);
    }

    /// Counts a datagram that was withheld since its number or its end isn't plausible.
    pub fn count_withheld(&self) {
        self.marks.withheld.fetch_add(1, Ordering::SeqCst);
    }

    /// Marks that a datagram of one of the line's senders came at this moment of its clock, in
    /// milliseconds.
    pub fn hear(&self, moment_ms: u64) {
        let after = moment_ms.saturating_add(1);
        self.marks.after_heard_ms.store(after, Ordering::SeqCst);
    }

    /// Marks a session that came and isn't the venue's, where none was marked before.
    pub fn meet(&self, stranger: &SessionName) {
        if !self.marks.stranger.is_marked() {
            self.marks.stranger.mark(stranger);
        }
    }

    /// Whether an end of session has ended the line.
    pub fn has_ended(&self) -> bool {
        self.marks.ender.is_marked()
    }

    /// Whether it was an end of the line's own session.
    pub fn has_ended_by_own(&self) -> bool {
        self.marks.is_own.load(Ordering::SeqCst)
    }

    /// The session whose end has ended the line, if one has.
    pub fn ended_session(&self) -> Option<SessionName> {
        self.marks.ender.session()
    }

    /// Whether the line has read as many datagrams as it may.
    pub fn is_read_out(&self) -> bool {
        self.marks.read_out.load(Ordering::SeqCst)
    }

    /// Whether the line has failed.
    pub fn has_failed(&self) -> bool {
        self.marks.failed.load(Ordering::SeqCst)
    }

    /// Whether the line has ended by a datagram, or failed.
    pub(crate) fn is_over(&self) -> bool {
        self.has_ended() || self.is_read_out() || self.has_failed()
    }

    /// How many requests were sent.
    pub fn sent(&self) -> u64 {
        self.marks.sent.load(Ordering::SeqCst)
    }

    /// How many requests couldn't be sent.
    pub fn unsent(&self) -> u64 {
        self.marks.unsent.load(Ordering::SeqCst)
    }

    /// How many requests weren't sent since the line had sent as many as it may in a second.
    pub fn held_back(&self) -> u64 {
        self.marks.held_back.load(Ordering::SeqCst)
    }

    /// After how many ends of session the line went on.
    pub fn passed(&self) -> u64 {
        self.marks.passed.load(Ordering::SeqCst)
    }

    /// How many datagrams of other senders were passed over.
    pub fn foreign(&self) -> u64 {
        self.marks.foreign.load(Ordering::SeqCst)
    }

    /// How many datagrams were withheld since their numbers or ends aren't plausible.
    pub fn withheld(&self) -> u64 {
        self.marks.withheld.load(Ordering::SeqCst)
    }

    /// When the last datagram of the line's senders came, in milliseconds of its clock; None where
    /// none has come.
    pub fn heard_ms(&self) -> Option<u64> {
        self.marks
            .after_heard_ms
            .load(Ordering::SeqCst)
            .checked_sub(1)
    }

    /// The first session that came and isn't the venue's, if one came.
    pub fn stranger(&self) -> Option<SessionName> {
        self.marks.stranger.session()
    }
}
