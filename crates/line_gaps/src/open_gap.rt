//! A gap, and how it ended.

use crate::gap_line::GapLine;
use crate::number_run::NumberRun;

/// A gap that is open: numbers that packets of a line passed over.
#[derive(Clone, Copy, Debug, Default, PartialEq, Eq)]
pub struct OpenGap {
    pub run: NumberRun,
    /// How many messages it lacks: all between its ends, unless gaps were merged.
    pub messages: u64,
    /// When the packet came that passed over them.
    pub began: Option<u64>,
}

/// What ended a gap.
#[derive(Clone, Copy, Debug, Default, PartialEq, Eq)]
pub enum GapEnd {
    /// A packet of line A brought the last of its messages.
    A,
    /// A packet of line B brought the last of its messages.
    B,
    /// A packet of recovery brought the last of its messages.
    Recovery,
    /// The last of its messages were given up, or had been when the line passed over them.
    Skip,
    /// All its messages had come when the line passed over them.
    Before,
    /// Nothing: it was open when the session or the capture ended.
    #[default]
    Open,
}

/// A gap that ended.
#[derive(Clone, Copy, Debug, Default, PartialEq, Eq)]
pub struct EndedGap {
    pub line: GapLine,
    pub gap: OpenGap,
    /// How many of its messages were given up.
    pub given_up: u64,
    /// When it ended, if it did and that is known.
    pub ended: Option<u64>,
    pub by: GapEnd,
}
