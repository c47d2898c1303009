//! The tasks of the program.

use crate::normalise_request::NormaliseRequest;
use crate::type_settings::TypeSettings;
use run_settings::{CapturedLine, ListenSettings, RunSettings, StatsFormat, TimeStyle};

/// The task of the program.
#[derive(Debug, Drop)]
pub enum Task {
    /// `nbbo replay` or `nbbo stats`.
    Run(RunSettings),
    /// `nbbo stats --types`.
    CountTypes(TypeSettings),
    /// `nbbo convert`, with the lines whose datagrams are converted.
    Convert(Vec<CapturedLine>),
    /// `nbbo lines`, with the form of its rows and the style of their times.
    Discover(StatsFormat, TimeStyle),
    /// `nbbo normalise`.
    Normalise(NormaliseRequest),
    /// `nbbo listen`.
    Listen(ListenSettings),
}
