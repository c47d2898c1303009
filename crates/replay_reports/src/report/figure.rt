//! The figures of a report: each with its label, its name and its value.
ghost use Rattle.std.specs.Prelude.{◌≡◌};
ghost use Rattle.replay_reports.specs.report.Figures.{count_if, figure_named, shown_figure, time_if};
ghost use Rattle.replay_reports.specs.declared.report.figure.FigureValue.TheVariants.{Count};

/// The value of a figure.
#[derive(Clone, Copy, Debug, PartialEq, Eq)]
pub enum FigureValue {
    /// There is none, as there is no mean of no duration.
    Nothing,
    Count(u64),
    /// A time in nanoseconds from 1970 on.
    Time(u64),
}

/// A figure of a report.
#[derive(Clone, Copy, Debug, PartialEq, Eq)]
pub struct Figure {
    /// What stands before it in a table.
    pub label: &'static str,
    /// Its name in JSON and in comma-separated values.
    pub name: &'static str,
    pub value: FigureValue,
}

/// Returns a figure that is a count.
pub(crate) fn count(label: &'static str, name: &'static str, value: u64) -> Figure
    ensures { shown_figure result ≡ figure_named name.now (Count value) }
{
    Figure {
        label,
        name,
        value: FigureValue::Count(value),
    }
}

/// Returns a figure that is a number where there is one.
pub(crate) fn count_if(
    label: &'static str,
    name: &'static str,
    is_there: bool,
    value: u64,
) -> Figure
    ensures { shown_figure result ≡ figure_named name.now (count_if is_there value) }
{
    let value = match is_there {
        true => FigureValue::Count(value),
        false => FigureValue::Nothing,
    };
    Figure { label, name, value }
}

/// Returns a figure that is a time where there is one.
pub(crate) fn time(label: &'static str, name: &'static str, time: Option<u64>) -> Figure
    ensures { shown_figure result ≡ figure_named name.now (time_if time) }
{
    let value = match time {
        Some(time) => FigureValue::Time(time),
        None => FigureValue::Nothing,
    };
    Figure { label, name, value }
}
