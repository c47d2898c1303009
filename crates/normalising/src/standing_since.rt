//! Since when a gap stands.

use line_arbiter::ArbiterStatus;

/// A gap that stands: the last number before it, and the time since when, in nanoseconds.
#[derive(Clone, Copy, Debug)]
pub(crate) struct StandingSince {
    front: u64,
    time: u64,
}

impl StandingSince {
    /// Returns since when the gap at the front stands, at a time at which a record was taken;
    /// `None` where none does. A gap that stood before stands since then.
    pub(crate) fn after(
        before: Option<StandingSince>,
        status: &ArbiterStatus,
        time: u64,
    ) -> Option<StandingSince> {
        if status.front >= status.known {
            return None;
        }
        match before {
            Some(standing) if standing.front == status.front => before,
            _ => Some(StandingSince {
                front: status.front,
                time,
            }),
        }
    }

    /// Returns whether it has stood for `span` nanoseconds at a time.
    pub(crate) fn is_overdue(&self, span: u64, time: u64) -> bool {
        time >= self.time && time - self.time >= span
    }
}
