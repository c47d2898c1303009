//! The end of standard input.

use libc::net::{POLLIN, poll};
use libc::types::pollfd;
use std::io::{ErrorKind, Read, Stdin};

/// The number of bytes that one read passes over at most.
const PIECE: usize = 4_096;

/// The most reads of one look, which pass over 1 MiB: an input that always has more is left alone
/// until the next look.
const MOST_READS: u32 = 256;

/// The descriptor of standard input.
const STDIN: i32 = 0;

/// Whether a read of standard input wouldn't wait.
fn is_ready() -> bool {
    let mut asked = [pollfd {
        fd: STDIN,
        events: POLLIN,
        revents: 0,
    }];
    poll(&mut asked, 0) > 0
}

/// Standard input, of which the end alone counts.
#[derive(Drop)]
pub struct InputEnd {
    input: Stdin,
    ended: bool,
}

impl InputEnd {
    /// Standard input, from where it is.
    pub fn new(input: Stdin) -> InputEnd {
        InputEnd {
            input,
            ended: false,
        }
    }

    /// Whether the input was seen to end, or to fail, which is its end, too.
    pub fn is_seen(&self) -> bool {
        self.ended
    }

    /// Passes over what has come, 1 MiB at most, and waits for nothing.
    pub fn pass_over(&mut self) {
        for _ in 0..MOST_READS {
            if self.ended || !is_ready() {
                return;
            }
            self.read();
        }
    }

    /// Reads a piece of what has come.
    fn read(&mut self) {
        let mut piece = [0; PIECE];
        self.ended = match self.input.read(&mut piece) {
            Ok(count) => count == 0,
            Err(error) => {
                error.kind() != ErrorKind::Interrupted && error.kind() != ErrorKind::WouldBlock
            }
        };
    }
}
