//! The time of a run, and when it is ended from outside.

use crate::input_end::InputEnd;
use run_settings::ListenSettings;
use run_watches::Moment;
use std::io::Stdin;
use std::time::{Clock, Duration};
use udp_lines::millis;

/// The least milliseconds between two looks at standard input.
const INPUT_MS: u64 = 5;

/// How long a run has gone on, by a clock that may fail: where it can't be read, what was slept
/// counts. And when the run is ended from outside: after some seconds, when standard input ends, or
/// never.
#[derive(Drop)]
pub struct RunTime<C> {
    clock: C,
    /// The clock's last reading in milliseconds, if it could be read.
    read_ms: Option<u64>,
    passed_ms: u64,
    end_ms: Option<u64>,
    input: Option<InputEnd>,
    /// When standard input is looked at next.
    input_due_ms: u64,
}

/// The milliseconds of the clock, if it can be read.
fn reading<C: Clock>(clock: &C) -> Option<u64> {
    match clock.monotonic() {
        Ok(time) => Some(millis(time)),
        Err(_) => None,
    }
}

impl<C: Clock> RunTime<C> {
    /// The time of a run that begins now and ends as the settings say.
    pub fn new(settings: &ListenSettings, input: Stdin, clock: C) -> RunTime<C> {
        let read_ms = reading(&clock);
        let input = if settings.until_input_ends {
            Some(InputEnd::new(input))
        } else {
            None
        };
        RunTime {
            clock,
            read_ms,
            passed_ms: 0,
            end_ms: settings.seconds.map(|seconds| u64::from(seconds) * 1_000),
            input,
            input_due_ms: 0,
        }
    }

    /// The milliseconds that have passed.
    pub fn passed_ms(&self) -> u64 {
        self.passed_ms
    }

    /// This moment of the run.
    pub fn moment(&self) -> Moment {
        Moment {
            elapsed_ms: self.passed_ms,
            since_1970: self.clock.since_1970().ok(),
        }
    }

    /// Whether the run is to end now.
    pub fn is_over(&self) -> bool {
        let is_late = match self.end_ms {
            Some(end_ms) => self.passed_ms >= end_ms,
            None => false,
        };
        let has_ended = match &self.input {
            Some(input) => input.is_seen(),
            None => false,
        };
        is_late || has_ended
    }

    /// Passes over what standard input has, where its end is waited for, once in 5 milliseconds.
    fn look_at_input(&mut self) {
        if self.passed_ms < self.input_due_ms {
            return;
        }
        self.input_due_ms = self.passed_ms.saturating_add(INPUT_MS);
        if let Some(input) = &mut self.input {
            input.pass_over();
        }
    }

    /// How long to wait: `most_ms` milliseconds, or until the run is to end, where that is before.
    fn wait_ms(&self, most_ms: u64) -> u64 {
        match self.end_ms {
            Some(end_ms) if self.passed_ms < end_ms => most_ms.min(end_ms - self.passed_ms),
            _ => most_ms,
        }
    }

    /// Looks at standard input, waits `most_ms` milliseconds at most, and looks at the clock.
    pub fn wait(&mut self, most_ms: u64) {
        self.look_at_input();
        let ms = self.wait_ms(most_ms);
        if ms > 0 {
            self.clock.sleep(Duration::from_millis(ms));
        }
        let before = self.read_ms;
        self.read_ms = reading(&self.clock);
        let passed = match (before, self.read_ms) {
            (Some(before), Some(now)) => now.saturating_sub(before),
            _ => ms,
        };
        self.passed_ms = self.passed_ms.saturating_add(passed);
    }
}
