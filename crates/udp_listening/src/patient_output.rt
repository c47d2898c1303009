//! Standard output of a run that ends although nobody reads it.

use crate::output_state::OutputState;
use libc::net::{POLLOUT, poll};
use libc::types::pollfd;
use std::io;
use std::io::{ErrorKind, Stdout, Write};

/// The descriptor of standard output.
const STDOUT: i32 = 1;

/// The most bytes of one write: a pipe that is ready takes as many without waiting.
const PIECE: usize = 4_096;

/// How long one look waits at most, in milliseconds.
const LOOK_MS: i32 = 100;

/// How many looks in a row an output may take nothing once the run is to end: five seconds.
const MOST_LOOKS: u32 = 50;

/// Standard output. A write waits until the system takes it; once the run is to end, it waits five
/// seconds at most, and fails then.
#[derive(Drop)]
pub struct PatientOutput {
    output: Stdout,
    state: OutputState,
}

/// Waits a tenth of a second at most, and returns whether a write of a piece wouldn't wait, or
/// fails at once.
fn is_ready() -> bool {
    let mut asked = [pollfd {
        fd: STDOUT,
        events: POLLOUT,
        revents: 0,
    }];
    poll(&mut asked, LOOK_MS) != 0
}

impl PatientOutput {
    /// Returns standard output of a run with this state.
    pub fn new(output: Stdout, state: OutputState) -> PatientOutput {
        PatientOutput { output, state }
    }

    /// Waits until a write wouldn't wait, and returns whether there was such a time before the end
    /// of what a run that is to end waits.
    fn await_room(&self) -> bool {
        let mut left = MOST_LOOKS;
        for _ in 0..u64::MAX {
            if is_ready() {
                return true;
            }
            if self.state.is_ending() {
                left = left.saturating_sub(1);
            }
            if left == 0 {
                return false;
            }
        }
        false
    }
}

impl Write for PatientOutput {
    /// Writes a piece of `bytes`, and returns its length. TimedOut where the output has taken
    /// nothing for five seconds though the run is to end; else the system's error.
    fn write(&mut self, bytes: &[u8]) -> io::Result<usize> {
        if !self.await_room() {
            return Err(ErrorKind::TimedOut.into());
        }
        self.output.write(&bytes[..bytes.len().min(PIECE)])
    }

    fn flush(&mut self) -> io::Result<()> {
        self.output.flush()
    }
}
