//! Which of the standard streams are terminals.

/// Which of the standard streams are terminals.
#[derive(Clone, Copy, Debug, PartialEq, Eq)]
pub struct Terminals {
    /// Whether standard input is one.
    pub input: bool,
    /// Whether standard error is one.
    pub errors: bool,
}
