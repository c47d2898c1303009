//! What `nbbo stats --types` counts.
ghost use Rattle.std.specs.Prelude.{◌≤◌};
ghost use Rattle.run_settings.specs.Lists.{AreOfVenues};
ghost use Rattle.run_settings.specs.RunInputs.{captured_lines_in};

use run_settings::{RowFormat, RunInput, TimeSpan};

/// What `nbbo stats --types` counts, and the form of its rows.
#[derive(Debug, Drop)]
pub struct TypeSettings {
    /// How many venues there are, 16 at most.
    pub venues: usize,
    /// The input. The lines of a packet capture are of these venues.
    pub input: RunInput,
    /// The form of the rows.
    pub format: RowFormat,
    /// The span in which the datagrams come whose messages are counted.
    pub span: TimeSpan,
    ghost few: { venues ≤ 16 },
    ghost of_venues: { AreOfVenues venues (captured_lines_in input) },
}
