//! A client of the metrics, from its connection on.
ghost use Rattle.std.specs.Prelude.{◌≤◌};

use crate::reply::{Reply, reply_to};
use std::alloc::{AllocError, Global};
use std::io::{Error, ErrorKind, Read, Write};
use std::net::{Shutdown, TcpStream};

/// How many milliseconds a client has from its connection on.
const CLIENT_MS: u64 = 2_000;

/// The most bytes of a client that one look reads.
const PIECE: usize = 1_024;

/// What is awaited of a client.
#[derive(Clone, Copy, Debug, PartialEq, Eq)]
enum ClientState {
    /// That its request is whole.
    Asking,
    /// That it takes the whole answer.
    Answered,
    /// That it closes the connection, which keeps what it hasn't read yet from being lost.
    Leaving,
    /// Nothing: it has closed the connection, or that has failed, or its time is over.
    Gone,
}

/// A client, whose connection nobody waits for.
#[derive(Drop)]
pub struct MetricsClient {
    stream: TcpStream,
    state: ClientState,
    /// What has come of its request.
    request: Vec<u8>,
    /// Its answer, and how many bytes of it are written.
    answer: Vec<u8>,
    written: usize,
    /// How many milliseconds after the beginning of the run its time is over.
    end_ms: u64,
}

/// Whether a call is to be tried again later.
fn is_to_come(error: &Error) -> bool {
    matches!(error.kind(), ErrorKind::WouldBlock | ErrorKind::Interrupted)
}

impl MetricsClient {
    /// A client that has connected now; None where waiting for it can't be prevented.
    pub fn new(alloc: Global, stream: TcpStream, elapsed_ms: u64) -> Option<MetricsClient> {
        if stream.set_nonblocking(true).is_err() {
            return None;
        }
        Some(MetricsClient {
            stream,
            state: ClientState::Asking,
            request: Vec::new(alloc),
            answer: Vec::new(alloc),
            written: 0,
            end_ms: elapsed_ms.saturating_add(CLIENT_MS),
        })
    }

    /// Whether nothing is awaited of it any more.
    pub fn is_gone(&self) -> bool {
        self.state == ClientState::Gone
    }

    /// Keeps what has come of its request. Fails where memory was refused.
    fn keep(&mut self, piece: &[u8]) -> Result<(), AllocError> {
        self.request.extend_from_slice(piece)
    }

    /// Reads a piece of what it has sent, and returns how many bytes these are: 0 where nothing has
    /// come. Where nothing more can come the client is gone.
    fn read(&mut self, piece: &mut [u8; PIECE]) -> usize
        ensures { result ≤ 1024 }
    {
        match self.stream.read(piece) {
            Ok(0) => self.state = ClientState::Gone,
            Ok(count) => return count,
            Err(error) if is_to_come(&error) => {}
            Err(_) => self.state = ClientState::Gone,
        }
        0
    }

    /// Reads a piece of its request, and returns the reply to it once there is one.
    pub fn read_request(&mut self) -> Option<Reply> {
        if self.state != ClientState::Asking {
            return None;
        }
        let mut piece = [0; PIECE];
        let count = self.read(&mut piece);
        if count == 0 {
            return None;
        }
        if self.keep(&piece[..count]).is_err() {
            self.state = ClientState::Gone;
            return None;
        }
        reply_to(self.request.as_slice())
    }

    /// Gives it this answer; where memory for one was refused the client is gone.
    pub fn give(&mut self, answer: Result<Vec<u8>, AllocError>) {
        match answer {
            Ok(answer) => {
                self.answer = answer;
                self.state = ClientState::Answered;
            }
            Err(_) => self.state = ClientState::Gone,
        }
    }

    /// Writes as much of the answer as the client takes.
    fn write(&mut self) {
        let at = self.written.min(self.answer.len());
        match self.stream.write(&self.answer.as_slice()[at..]) {
            Ok(count) => self.written = at.saturating_add(count),
            Err(error) if is_to_come(&error) => {}
            Err(_) => self.state = ClientState::Gone,
        }
        if self.state == ClientState::Answered && self.written >= self.answer.len() {
            let _ = self.stream.shutdown(Shutdown::Write);
            self.state = ClientState::Leaving;
        }
    }

    /// Writes what is to be written, passes over what the client sends after its request, and ends
    /// its time.
    pub fn go_on(&mut self, elapsed_ms: u64) {
        if self.state == ClientState::Answered {
            self.write();
        }
        if self.state == ClientState::Leaving {
            let _ = self.read(&mut [0; PIECE]);
        }
        if elapsed_ms >= self.end_ms {
            self.state = ClientState::Gone;
        }
    }
}
