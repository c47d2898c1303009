//! The periods of times.
ghost use Rattle.std.specs.Prelude.{◌≡◌};
ghost use Rattle.period_rows.specs.Periods.{period_begin};

use run_settings::PeriodLength;

/// Returns when the period of a time began.
pub(crate) fn period_begin(length: PeriodLength, time: u64) -> u64
    ensures { result ≡ period_begin length time }
{
    time.saturating_sub(time % length.nanoseconds())
}
