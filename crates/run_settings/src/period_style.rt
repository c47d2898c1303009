//! How the rows of periods are written.

use crate::formats::RowFormat;
use crate::period_length::PeriodLength;

/// How the rows of periods are written, and how long a period is.
#[derive(Clone, Copy, Debug, PartialEq, Eq)]
pub struct PeriodStyle {
    pub format: RowFormat,
    pub length: PeriodLength,
}
