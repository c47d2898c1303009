//! The streams of a program that listens.

use crate::output_state::OutputState;
use run_watches::ErrorsProgress;
use std::io::Stdin;

/// The streams of a program that listens, and how they do.
#[derive(Drop)]
pub struct ListenStreams<W, E> {
    /// Standard input, at whose end the run ends where the settings say so.
    pub input: Stdin,
    /// Standard output, which the thread of the rows writes.
    pub output: W,
    /// Standard error.
    pub errors: E,
    /// How standard output does.
    pub output_state: OutputState,
    /// How standard error does.
    pub errors_progress: ErrorsProgress,
}
