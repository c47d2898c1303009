//! How a line ends.

use venue_lines::SourceFault;

/// How a line stands with its source.
#[derive(Clone, Copy, Debug, PartialEq, Eq)]
pub enum SourceEnd {
    /// The source may bring more.
    Open,
    /// The source has ended.
    Ended,
    /// A fault ends the line, once what waits was brought.
    Failing(SourceFault),
    /// That fault was returned.
    Failed(SourceFault),
}
