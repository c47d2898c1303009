//! A clock that never goes back, and the period at hand.
ghost use Rattle.std.specs.Prelude.{◌≡◌, unwrap_or};
ghost use Rattle.event_sinks.specs.SinkEvents.{told_by};
ghost use Rattle.period_rows.specs.BestRows.{period_ended_by};
ghost use Rattle.period_rows.specs.Bests.{begin_after, clock_after, time_of_event};

use crate::times::period_begin;
use event_sinks::ReplayedEvent;
use report_rows::ends_all;
use run_settings::PeriodLength;

/// Returns the time of an event: the end of the capture has none.
#[inline(always)]
pub(crate) fn time_in(time: Option<u64>, event: &ReplayedEvent<'_>) -> Option<u64>
    ensures { result ≡ time_of_event (told_by event.now) time }
{
    if ends_all(event) {
        return None;
    }
    time
}

/// Returns the first time of a clock: that from which all is told, if there is one.
pub(crate) fn first_clock(from: Option<u64>) -> u64
    ensures { result ≡ unwrap_or from 0 }
{
    match from {
        Some(from) => from,
        None => 0,
    }
}

/// Returns the latest time so far, after one more.
pub(crate) fn clock_after(time: Option<u64>, clock: u64) -> u64
    ensures { result ≡ clock_after time clock }
{
    match time {
        Some(time) => clock.max(time),
        None => clock,
    }
}

/// Returns when the period at hand began, after one more time.
pub(crate) fn begin_after(
    length: PeriodLength,
    time: Option<u64>,
    clock: u64,
    begin: Option<u64>,
) -> Option<u64>
    ensures { result ≡ begin_after length time clock begin }
{
    match time {
        Some(time) => Some(period_begin(length, clock.max(time))),
        None => begin,
    }
}

/// Returns the begin of the period that is over, if one is.
pub(crate) fn ended_by(ends: bool, old: Option<u64>, new: Option<u64>) -> Option<u64>
    ensures { result ≡ period_ended_by ends old new }
{
    match (old, new) {
        (None, _) => None,
        (Some(old), None) => { if ends { Some(old) } else { None } }
        (Some(old), Some(new)) => { if !ends && old == new { None } else { Some(old) } }
    }
}
