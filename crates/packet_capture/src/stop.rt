//! Why no piece of a capture could be read from some bytes.
use crate::fault::CaptureFault;

/// Why no piece of a capture could be read from some bytes.
#[derive(Clone, Copy, Debug, PartialEq, Eq, Hash)]
pub enum NoPiece {
    /// No piece begins with these bytes, however they go on.
    Bad(CaptureFault),
    /// The bytes end before the piece does: at least this many, from its first one on, have to be
    /// there to go on.
    Wants(usize),
}
