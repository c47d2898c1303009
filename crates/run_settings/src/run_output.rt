//! The output of a run.

use crate::formats::{BestFormat, ReportFormat, RowFormat};
use crate::period_style::PeriodStyle;

/// What is printed of a replay.
#[derive(Clone, Copy, Debug, PartialEq, Eq)]
pub enum RunOutput {
    /// All lines.
    Lines,
    /// The best lines alone, in a format.
    Bests(BestFormat),
    /// Statistics, in a format.
    Stats(ReportFormat),
    /// The gaps alone, in a format.
    Gaps(RowFormat),
    /// Rows of what each line brought in each period.
    Periods(PeriodStyle),
    /// Rows of how long each symbol's national bests stood in each period.
    BestTimes(PeriodStyle),
}
