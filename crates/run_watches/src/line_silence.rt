//! Since when a line has brought nothing.
ghost use Rattle.std.specs.Prelude.{◌≡◌, ◌≢◌, ◌-◌};
ghost use Rattle.run_watches.specs.Silences.{is_told_then, silence_told};

use crate::moment::Moment;
use feed_types::LineId;
use std::time::Duration;

/// What is new of a line's silence.
#[derive(Clone, Copy, Debug, PartialEq, Eq)]
pub enum Silence {
    /// It has brought nothing for this many milliseconds.
    Begun(u64),
    /// It has brought something again.
    Over,
}

/// Since when a line has brought nothing, as it is seen at looks at the line.
#[derive(Clone, Copy, Debug)]
pub struct LineSilence {
    /// After how many milliseconds a silence is told, if after any number.
    after_ms: Option<u64>,
    /// When the last datagram came that was seen, by the line's own clock.
    seen_ms: Option<u64>,
    /// Since when none has been seen, in milliseconds of the run.
    since_ms: u64,
    /// When the last datagram was seen, in nanoseconds from 1970 on.
    heard: Option<u64>,
    is_told: bool,
}

/// The nanoseconds of a time.
fn nanoseconds(time: Duration) -> Option<u64> {
    u64::try_from(time.as_nanos()).ok()
}

/// What is told of a line that has been silent for `silent_ms` milliseconds. A silence is told
/// after `after_ms` of them, if after any number; `is_told` is whether one was.
fn silence_told(after_ms: Option<u64>, is_told: bool, silent_ms: u64) -> Option<Silence>
    ensures { result ≡ silence_told after_ms is_told silent_ms }
{
    let Some(after_ms) = after_ms else {
        return None;
    };
    let is_silent = after_ms <= silent_ms;
    if is_silent && !is_told {
        Some(Silence::Begun(after_ms))
    } else if is_told && !is_silent {
        Some(Silence::Over)
    } else {
        None
    }
}

/// Whether a silence is told once this was, if anything was.
fn is_told_then(is_told: bool, silence: Option<Silence>) -> bool
    ensures { result ≡ is_told_then is_told silence }
{
    match silence {
        Some(Silence::Begun(_)) => true,
        Some(Silence::Over) => false,
        None => is_told,
    }
}

impl LineSilence {
    /// The silence of a line from the beginning of a run on. It is reported
    /// after `after_ms` milliseconds, if at all; that of line R, which has replies alone, never is.
    pub fn of(line: LineId, after_ms: Option<u32>) -> LineSilence {
        let after_ms = match after_ms {
            Some(after_ms) if line != LineId::Recovery => Some(u64::from(after_ms)),
            _ => None,
        };
        LineSilence {
            after_ms,
            seen_ms: None,
            since_ms: 0,
            heard: None,
            is_told: false,
        }
    }

    /// When the last datagram was seen, in nanoseconds from 1970 on, where that is known.
    pub fn heard(&self) -> Option<u64> {
        self.heard
    }

    /// Looks at the line, whose last datagram came at `seen_ms` by its clock, and returns what is
    /// new of its silence.
    pub fn look(&mut self, moment: Moment, seen_ms: Option<u64>) -> Option<Silence>
        ensures after { self.new.after_ms ≡ self.old.after_ms }
        ensures seen { self.new.seen_ms ≡ seen_ms }
        ensures heard { seen_ms ≢ self.old.seen_ms → self.new.since_ms ≡ moment.elapsed_ms }
        ensures silent { seen_ms ≡ self.old.seen_ms → self.new.since_ms ≡ self.old.since_ms }
        ensures told { self.new.is_told ≡ is_told_then self.old.is_told result }
        ensures silence { result ≡ silence_told self.old.after_ms self.old.is_told
            (moment.elapsed_ms - self.new.since_ms) }
    {
        if seen_ms != self.seen_ms {
            self.seen_ms = seen_ms;
            self.since_ms = moment.elapsed_ms;
            self.heard = moment.since_1970.and_then(nanoseconds);
        }
        let silent_ms = moment.elapsed_ms.saturating_sub(self.since_ms);
        let silence = silence_told(self.after_ms, self.is_told, silent_ms);
        self.is_told = is_told_then(self.is_told, silence);
        silence
    }
}
