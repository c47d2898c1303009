//! The input of a run.

use crate::captured_line::CapturedLine;

/// What is replayed.
#[derive(Debug, Drop)]
pub enum RunInput {
    /// A capture of the project's own format.
    Own,
    /// A packet capture, of which the datagrams to these lines are replayed, two lines for each
    /// venue.
    Packets(Vec<CapturedLine>),
}
