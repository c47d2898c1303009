//! A session that one thread marks and another looks at.

use feed_types::SessionName;
use std::sync::atomic::{AtomicBool, AtomicU64, Ordering};

/// A session, once one is marked.
#[derive(Drop)]
pub(crate) struct SessionMark {
    is_marked: AtomicBool,
    /// The first eight bytes of the session's name.
    front: AtomicU64,
    /// Its last two bytes.
    rest: AtomicU64,
}

impl SessionMark {
    /// A mark of no session.
    pub(crate) fn new() -> SessionMark {
        SessionMark {
            is_marked: AtomicBool::new(false),
            front: AtomicU64::new(0),
            rest: AtomicU64::new(0),
        }
    }

    /// Marks this session, for good.
    pub(crate) fn mark(&self, session: &SessionName) {
        let [a, b, c, d, e, f, g, h, i, j] = *session;
        let front = u64::from_be_bytes([a, b, c, d, e, f, g, h]);
        let rest = u64::from_be_bytes([0, 0, 0, 0, 0, 0, i, j]);
        self.front.store(front, Ordering::SeqCst);
        self.rest.store(rest, Ordering::SeqCst);
        self.is_marked.store(true, Ordering::SeqCst);
    }

    /// Whether a session is marked.
    pub(crate) fn is_marked(&self) -> bool {
        self.is_marked.load(Ordering::SeqCst)
    }

    /// The session that is marked, if one is.
    pub(crate) fn session(&self) -> Option<SessionName> {
        if !self.is_marked() {
            return None;
        }
        let [a, b, c, d, e, f, g, h] = self.front.load(Ordering::SeqCst).to_be_bytes();
        let [_, _, _, _, _, _, i, j] = self.rest.load(Ordering::SeqCst).to_be_bytes();
        Some([a, b, c, d, e, f, g, h, i, j])
    }
}
