//! Which number an exchange gives an end of session.

/// Which number an exchange gives an end of session.
#[derive(Clone, Copy, Debug, PartialEq, Eq)]
pub enum EndNumberRule {
    /// One more than the last message's, as the standard has it.
    Next,
    /// The last message's own.
    Last,
}
