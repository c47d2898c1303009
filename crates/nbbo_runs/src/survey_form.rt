//! The form in which the lines of a capture are printed.

use run_settings::{StatsFormat, TimeStyle};

/// The form in which the lines of a capture are printed.
#[derive(Clone, Copy, Debug, PartialEq, Eq)]
pub struct SurveyForm {
    pub format: StatsFormat,
    /// The style of their times.
    pub times: TimeStyle,
}
