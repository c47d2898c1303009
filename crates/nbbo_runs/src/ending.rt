//! The end of the program after a replay.
ghost use Rattle.std.specs.Prelude.{◌≡◌};
ghost use Rattle.nbbo_runs.specs.Ending.{ending_status, first_hint, own_hint, stop_line_text, write_failed_text};

use crate::hints::format_hint;
use crate::own_capture::BadRecord;
use event_sinks::ReplayStop;

/// The line for a call of a writer that failed.
pub const WRITE_FAILED: &str = "nbbo: write failed\n";

/// The line for a stop.
pub fn stop_line<F>(stop: &ReplayStop<F>) -> &'static str
    ensures { result.now ≡ stop_line_text stop.now }
{
    match stop {
        ReplayStop::ReadFailed => "nbbo: read failed\n",
        ReplayStop::SinkFailed => WRITE_FAILED,
        ReplayStop::Bad(_) => "nbbo: bad record\n",
        ReplayStop::Short => "nbbo: short record\n",
        ReplayStop::TooManyTurns => "nbbo: too many turns\n",
        ReplayStop::JournalFull => "nbbo: journal full\n",
        ReplayStop::NoMemory => "nbbo: no memory\n",
    }
}

/// Returns the line for a capture that is none of the project's own, by what stands where its first
/// record is bad; empty for another one.
pub(crate) fn own_hint(stop: &ReplayStop<BadRecord>) -> &'static str
    ensures { result.now ≡ own_hint stop.now }
{
    match stop {
        ReplayStop::Bad(bad) => first_hint(bad),
        _ => "",
    }
}

/// Returns the line for what stands where a record is bad, if that is the first one; else none.
fn first_hint(bad: &BadRecord) -> &'static str
    ensures { result.now ≡ first_hint bad.now }
{
    if bad.is_first {
        format_hint(bad.start)
    } else {
        ""
    }
}

/// The status of the program: 0 after a run that came to its end, else 1.
pub fn status_of<T>(outcome: &Result<(), T>) -> u8
    ensures { result ≡ ending_status outcome.now }
{
    match outcome {
        Ok(()) => 0,
        Err(_) => 1,
    }
}
