//! The pace of requests for what is missing.

ghost use Rattle.std.specs.Prelude.{◌≡◌, ◌<◌, ◌+◌, ◌↔◌, None, IsTrue};
ghost use Rattle.line_arbiter.specs.Pacing.{IsPaced, IsTooSoon, seen_at};

use mold_packet::Request;
use std::marker::Model;

/// A gap by its first number, and a moment: when it was seen first, or was asked for last.
#[derive(Clone, Copy, Debug)]
struct GapMoment {
    number: u64,
    moment_ms: u64,
}

impl Model for GapMoment {
    ghost use Rattle.line_arbiter.specs.Pacing.{Moment};

    ghost Value = { Moment };

    ghost view = { λ s. record { number = s.number; moment = s.moment_ms } };

    ghost inverse = { λ a. record { number = a.number; moment_ms = a.moment } };
}

impl GapMoment {
    /// Returns whether the interval since then isn't over. A moment past 2^64 - 1 never comes.
    const fn is_recent(self, interval_ms: u64, now_ms: u64) -> bool
        ensures { IsTrue result ↔ (now_ms < self.moment + interval_ms) }
    {
        match self.moment_ms.checked_add(interval_ms) {
            Some(next_ms) => now_ms < next_ms,
            None => true,
        }
    }
}

/// Lets a request for a gap out at once, or after a wait, and the same one again no sooner than an
/// interval later.
#[derive(Debug, Drop)]
pub struct Pacer {
    interval_ms: u64,
    /// The gap that is there, and since when.
    seen: Option<GapMoment>,
    last_request: Option<GapMoment>,
}

impl Model for Pacer {
    ghost use Rattle.line_arbiter.specs.Pacing.{Pace};

    ghost Value = { Pace };

    ghost view = { λ p. record {
      interval = p.interval_ms;
      seen = p.seen;
      last = p.last_request;
    } };

    ghost inverse = { λ p. record {
      interval_ms = p.interval;
      seen = p.seen;
      last_request = p.last;
    } };
}

impl Pacer {
    /// Returns a pacer that has seen no gap, with the interval in milliseconds.
    pub const fn new(interval_ms: u64) -> Pacer
        ensures { result ≡ record { interval = interval_ms; seen = None; last = None } }
    {
        Pacer {
            interval_ms,
            seen: None,
            last_request: None,
        }
    }

    fn is_too_soon(&self, gap: &Request, now_ms: u64) -> bool
        ensures { IsTrue result ↔ IsTooSoon self.now gap.now now_ms }
    {
        match self.last_request {
            Some(sent) => sent.number == gap.number && sent.is_recent(self.interval_ms, now_ms),
            None => false,
        }
    }

    /// Returns since when the gap is there: since now, unless the one that was seen last began with
    /// the same number.
    fn seen_at(&self, gap: &Request, now_ms: u64) -> GapMoment
        ensures { result ≡ seen_at self.now.seen gap.now now_ms }
    {
        match self.seen {
            Some(seen) if seen.number == gap.number => seen,
            _ => GapMoment {
                number: gap.number,
                moment_ms: now_ms,
            },
        }
    }

    /// Returns the request to send now, if any. `gap` is the run of messages that is missing, and
    /// `now_ms` the time in milliseconds since any fixed moment.
    ///
    /// A gap goes out unless the last request began with the same number and went out less than an
    /// interval ago. What goes out is remembered with its moment. Where there is no gap, nothing
    /// goes out, and the last request is forgotten.
    pub fn due(&mut self, gap: Option<Request>, now_ms: u64) -> Option<Request>
        ensures { IsPaced self.old gap now_ms 0 result self.new }
    {
        self.due_after(gap, now_ms, 0)
    }

    /// Returns the request to send now as `due` does, but for a gap that hasn't been there for
    /// `wait_ms` milliseconds: since a call first was given one that begins with this number, and
    /// no call since then was given another one or none.
    pub fn due_after(&mut self, gap: Option<Request>, now_ms: u64, wait_ms: u64) -> Option<Request>
        ensures { IsPaced self.old gap now_ms wait_ms result self.new }
    {
        let Some(request) = gap else {
            self.seen = None;
            self.last_request = None;
            return None;
        };
        let seen = self.seen_at(&request, now_ms);
        self.seen = Some(seen);
        let is_young = wait_ms > 0 && seen.is_recent(wait_ms, now_ms);
        if is_young || self.is_too_soon(&request, now_ms) {
            return None;
        }
        self.last_request = Some(GapMoment {
            number: request.number,
            moment_ms: now_ms,
        });
        Some(request)
    }
}
