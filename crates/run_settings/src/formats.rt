//! The forms in which what a replay prints is passed on.
ghost use Rattle.std.specs.Prelude.{◌≡◌};
ghost use Rattle.run_settings.specs.Styles.{all_numbers};

use crate::venue_names::VenueNames;

/// How times are written.
#[derive(Clone, Copy, Debug, PartialEq, Eq)]
pub enum TimeStyle {
    /// As a number: of seconds from 1970 on, with nine decimals, or of nanoseconds.
    Seconds,
    /// As a date and a time of day in UTC, with nine decimals of a second.
    Utc,
}

/// How the values of rows are written.
#[derive(Clone, Copy, Debug, PartialEq, Eq)]
pub struct ValueStyle {
    pub times: TimeStyle,
    pub venues: VenueNames,
}

impl ValueStyle {
    /// Times as numbers, and venues, too.
    pub fn numbers() -> ValueStyle
        ensures { result ≡ all_numbers }
    {
        ValueStyle {
            times: TimeStyle::Seconds,
            venues: VenueNames::Numbers,
        }
    }
}

/// The form of the best lines, where they alone are passed on.
#[derive(Clone, Copy, Debug, PartialEq, Eq)]
pub enum BestFormat {
    /// The lines as they are.
    Text,
    /// A header line, and then a row of comma-separated values for each.
    Csv(ValueStyle),
    /// A JSON object for each, on a line of its own.
    Json(ValueStyle),
}

/// The form of the statistics of a capture.
#[derive(Clone, Copy, Debug, PartialEq, Eq)]
pub enum ReportFormat {
    /// Tables.
    Table(ValueStyle),
    /// A header line, and then a row of comma-separated values for each figure.
    Csv(ValueStyle),
    /// One JSON object.
    Json(ValueStyle),
}

/// The form of the lines that a capture has, and of the counts of a run that listens.
#[derive(Clone, Copy, Debug, PartialEq, Eq)]
pub enum StatsFormat {
    /// A table.
    Table,
    /// One JSON object.
    Json,
}

/// The form of the rows of gaps, or of periods.
#[derive(Clone, Copy, Debug, PartialEq, Eq)]
pub enum RowFormat {
    /// A header line, and then a row of comma-separated values for each.
    Csv(ValueStyle),
    /// A JSON object for each, on a line of its own.
    Json(ValueStyle),
}
