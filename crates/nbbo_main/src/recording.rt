//! The recording of a run that listens.

use line_recordings::{Recording, RecordingState, VenueRecords, write_recording};
use std::alloc::{AllocError, Global};
use std::fs::File;
use std::io::{self, Stderr};
use std::sync::ledger::Ledger;
use std::thread;
use std::thread::Threads;
use std::time::{Clock, Duration};
use text_out::{Count, StreamOut, TextOut, write_number, write_stderr};

/// How long one look waits at the end of a run until the recording is written, in milliseconds.
const LOOK_MS: u64 = 10;

/// How many looks the program waits so: five seconds.
const MOST_LOOKS: u32 = 500;

/// Opens the file of this name anew. A pipe that nobody has opened to read is opened, too.
pub fn open_recording(rt: &HostRuntime, name: &str) -> io::Result<File> {
    File::options()
        .read(true)
        .write(true)
        .create(true)
        .truncate(true)
        .open(rt, name)
}

/// Starts the thread that writes what comes of these venues into the file, and reports on `errors`
/// where a write fails. Returns the state of the recording, by which its end is awaited; None where
/// memory or the thread was refused.
pub fn start_recording<H, F, E>(
    rt: &HostRuntime,
    threads: &H,
    venues: Vec<VenueRecords>,
    file: StreamOut<File, F>,
    errors: StreamOut<Stderr, E>,
) -> Option<RecordingState>
where
    H: Threads,
    F: Ledger + Send + 'static,
    E: Ledger + Send + 'static,
{
    let state = RecordingState::new(rt.alloc(), venues.as_slice()).ok()?;
    let shared = state.share().ok()?;
    let recording = Recording::new(rt.alloc(), venues, file, shared).ok()?;
    let clock = rt.clone().ok()?;
    let mut recording = recording;
    let mut errors = errors;
    match thread::spawn(
        threads,
        move || write_recording(&mut recording, &clock, &mut errors),
    ) {
        Ok(_thread) => Some(state),
        Err(_) => None,
    }
}

/// Waits until the recording of a run that is over is written, five seconds at most.
fn await_end(clock: &HostRuntime, state: &RecordingState) {
    state.end();
    for _ in 0..MOST_LOOKS {
        if state.is_done() {
            return;
        }
        clock.sleep(Duration::from_millis(LOOK_MS));
    }
}

/// Ends the recording of a run that is over, and writes how many datagrams and skips aren't in it,
/// if any. Returns the status of the program after a run of this status: 1 in place of 0 where the
/// recording isn't whole.
pub fn end_recording<E: TextOut>(
    clock: &HostRuntime,
    state: &RecordingState,
    status: u8,
    errors: &mut E,
) -> u8 {
    await_end(clock, state);
    let without = state.without();
    if without == 0 {
        return status;
    }
    write_stderr("nbbo: recording without ", errors);
    write_number(without, errors);
    write_stderr(" datagrams and skips\n", errors);
    status.max(1)
}
