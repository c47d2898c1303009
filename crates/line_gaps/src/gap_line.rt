//! The lines of a venue, as gaps are told of them.

/// A line whose packets leave numbers out, or all lines of a venue together.
#[derive(Clone, Copy, Debug, Default, PartialEq, Eq)]
pub enum GapLine {
    #[default]
    A,
    B,
    /// All lines together, recovery too.
    All,
}
