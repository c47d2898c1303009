//! The thread of a recording.
ghost use Rattle.text_out.specs.Members.{writing_of};
ghost use Rattle.text_out.specs.StandardError.{SaysEach};
ghost use Rattle.line_recordings.specs.Written.{WritesRecording, failure_texts};

use crate::recording::Recording;
use std::time::{Clock, Duration};
use text_out::{TextOut, write_stderr};

/// How long the thread waits between two looks, in milliseconds.
const LOOK_MS: u64 = 5;

/// The line on standard error where a write has failed.
const FAILED: &str = "nbbo: recording failed\n";

/// Writes a recording as it comes, until nothing more does or a write fails, and closes it.
fn write_to_end<C: Clock, W: TextOut + Drop>(recording: &mut Recording<W>, clock: &C)
    ensures { WritesRecording W.adds recording.old recording.new }
{
    for _ in 0..u64::MAX {
        let is_last = recording.is_ending();
        recording.turn(is_last);
        if is_last || recording.has_failed() {
            break;
        }
        clock.sleep(Duration::from_millis(LOOK_MS));
    }
    recording.close();
}

/// Writes a recording as it comes, until nothing more does or a write fails, which is reported on
/// `errors`. It may wait in a write for as long as the disk takes nothing.
pub fn write_recording<C: Clock, W: TextOut + Drop, E: TextOut>(
    recording: &mut Recording<W>,
    clock: &C,
    errors: &mut E,
)
    ensures recorded { WritesRecording W.adds recording.old recording.new }
    ensures told { SaysEach (writing_of E.TextOut)
        (failure_texts recording.new.has_failed) errors.old errors.new }
{
    let _named = os::set_thread_name(b"recording");
    write_to_end(recording, clock);
    if recording.has_failed() {
        write_stderr(FAILED, errors);
    }
}
