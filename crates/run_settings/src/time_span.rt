//! A span of time.
ghost use Rattle.std.specs.Prelude.{◌≡◌};
ghost use Rattle.run_settings.specs.TimeSpans.{is_bounded, is_from, is_in_span, is_to};

/// A span of time, in nanoseconds from 1970 on.
#[derive(Clone, Copy, Debug, PartialEq, Eq)]
pub struct TimeSpan {
    /// The time at which it begins, if it has a beginning.
    pub from: Option<u64>,
    /// The first time after it, if it has an end.
    pub to: Option<u64>,
}

fn is_from(from: Option<u64>, time: u64) -> bool
    ensures { result ≡ is_from from time }
{
    match from {
        None => true,
        Some(from) => !(time < from),
    }
}

fn is_to(to: Option<u64>, time: u64) -> bool
    ensures { result ≡ is_to to time }
{
    match to {
        None => true,
        Some(to) => time < to,
    }
}

impl TimeSpan {
    /// Returns whether the span has a beginning or an end.
    pub fn is_bounded(&self) -> bool
        ensures { result ≡ is_bounded self.now }
    {
        self.from.is_some() || self.to.is_some()
    }

    /// Returns whether a time lies in the span. One that isn't known lies in no bounded span.
    #[inline(always)]
    pub fn has(&self, time: Option<u64>) -> bool
        ensures { result ≡ is_in_span self.now time }
    {
        match time {
            None => !self.is_bounded(),
            Some(time) => is_from(self.from, time) && is_to(self.to, time),
        }
    }
}
