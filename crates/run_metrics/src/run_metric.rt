//! The metrics that there are of a run.
ghost use Rattle.std.specs.Prelude.{◌≡◌};
ghost use Rattle.run_metrics.specs.Metrics.{run_help, run_kind, run_name, run_value};

use crate::figures::RunFigures;
use crate::parts::{COUNTER, GAUGE};

/// A figure of a run.
#[derive(Clone, Copy, Debug, PartialEq, Eq)]
pub(crate) enum RunMetric {
    /// How long it has gone on.
    Seconds,
    /// The changes of the national best.
    Changes,
    /// Those that wait to be printed.
    Waiting,
    /// The rows that were printed.
    Printed,
    /// The texts that standard error hasn't taken.
    Untaken,
}

impl RunMetric {
    /// The metric's name.
    pub(crate) fn name(self) -> &'static str
        ensures { result.now ≡ run_name self }
    {
        match self {
            RunMetric::Seconds => "nbbo_run_seconds",
            RunMetric::Changes => "nbbo_best_changes_total",
            RunMetric::Waiting => "nbbo_waiting_changes",
            RunMetric::Printed => "nbbo_printed_rows_total",
            RunMetric::Untaken => "nbbo_untaken_texts_total",
        }
    }

    /// What the metric says.
    pub(crate) fn help(self) -> &'static str
        ensures { result.now ≡ run_help self }
    {
        match self {
            RunMetric::Seconds => "Seconds since the run began.",
            RunMetric::Changes => "Changes of the national best.",
            RunMetric::Waiting => "Changes of the national best that wait to be printed.",
            RunMetric::Printed => "Rows of changes that were printed.",
            RunMetric::Untaken => "Texts that standard error didn't take.",
        }
    }

    /// Whether the metric only grows, as its type says.
    pub(crate) fn kind(self) -> &'static str
        ensures { result.now ≡ run_kind self }
    {
        match self {
            RunMetric::Seconds | RunMetric::Waiting => GAUGE,
            RunMetric::Changes | RunMetric::Printed | RunMetric::Untaken => COUNTER,
        }
    }

    /// The metric's value.
    pub(crate) fn value(self, figures: &RunFigures<'_>) -> u64
        ensures { result ≡ run_value self figures.now }
    {
        match self {
            RunMetric::Seconds => figures.seconds,
            RunMetric::Changes => figures.changes,
            RunMetric::Waiting => figures.waiting,
            RunMetric::Printed => figures.printed,
            RunMetric::Untaken => figures.untaken,
        }
    }
}
