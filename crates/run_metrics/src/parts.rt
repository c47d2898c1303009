//! The texts of which a page of metrics is made: the head of a metric, and rows.
ghost use Rattle.std.specs.Prelude.{◌≡◌, ◌++◌, OnOk};
ghost use Rattle.run_metrics.specs.Metrics.{end_row, head_text, line_row, line_start, line_time_row, refusal_row, row_start, run_row, run_time_row, time_end, value_end, venue_row};

use std::alloc::AllocError;
use text_out::TextPart::{Bytes, Number, Places, Text};
use text_out::put_parts;

/// The type of a metric that only grows.
pub(crate) const COUNTER: &str = "counter";

/// The type of a metric that also falls.
pub(crate) const GAUGE: &str = "gauge";

/// The type of a sum over what is counted beside it.
pub(crate) const SUMMARY: &str = "summary";

/// The nanoseconds of a second.
const SECOND: u64 = 1_000_000_000;

/// The name of the count of refusals.
const REFUSED: &str = "nbbo_refused_packets_total";

/// The name of what says which lines have ended.
const ENDED: &str = "nbbo_line_ended";

/// Appends what stands before the rows of a metric.
#[tactic(auto, unfolding(crate::specs::Metrics::head_text))]
pub(crate) fn put_head<'a>(
    text: &mut Vec<u8>,
    name: &'a str,
    help: &'a str,
    kind: &'a str,
) -> Result<(), AllocError>
    ensures { OnOk result (text.new.items
        ≡ text.old.items ++ head_text name.now help.now kind.now) }
{
    let name = Text(name);
    let space = Text(" ");
    put_parts(text, &[Text("# HELP "), name, space, Text(help)])?;
    put_parts(text, &[Text("\n# TYPE "), name, space, Text(kind)])?;
    text.extend_from_slice(b"\n")
}

/// Appends the row of a run's figure.
#[tactic(auto, unfolding(crate::specs::Metrics::run_row))]
pub(crate) fn put_run_row(text: &mut Vec<u8>, name: &str, value: u64) -> Result<(), AllocError>
    ensures { OnOk result (text.new.items ≡ text.old.items ++ run_row name.now value) }
{
    put_parts(text, &[Text(name), Text(" "), Number(value), Text("\n")])
}

/// Appends how a row of a venue begins: a metric's name, and the venue's label.
#[tactic(auto, unfolding(crate::specs::Metrics::row_start))]
fn put_row_start<'a>(text: &mut Vec<u8>, name: &'a str, venue: &'a [u8]) -> Result<(), AllocError>
    ensures { OnOk result (text.new.items ≡ text.old.items ++ row_start name.now venue.now) }
{
    put_parts(text, &[Text(name), Text("{venue=\""), Bytes(venue)])
}

/// Appends how a row of a line begins. `line` is the line's letter.
#[tactic(auto, unfolding(crate::specs::Metrics::line_start))]
fn put_line_start(
    text: &mut Vec<u8>,
    name: &str,
    venue: &[u8],
    line: &str,
) -> Result<(), AllocError>
    ensures { OnOk result (text.new.items
        ≡ text.old.items ++ line_start name.now venue.now line.now) }
{
    put_row_start(text, name, venue)?;
    put_parts(text, &[Text("\",line=\""), Text(line)])
}

/// Appends a value after labels, and ends the row.
#[tactic(auto, unfolding(crate::specs::Metrics::value_end))]
fn put_value(text: &mut Vec<u8>, value: u64) -> Result<(), AllocError>
    ensures { OnOk result (text.new.items ≡ text.old.items ++ value_end value) }
{
    put_parts(text, &[Text("\"} "), Number(value), Text("\n")])
}

/// Appends a time in nanoseconds as seconds, after what stands before it, and ends the row.
#[tactic(auto, unfolding(crate::specs::Metrics::time_end))]
fn put_time(text: &mut Vec<u8>, before: &str, time: u64) -> Result<(), AllocError>
    ensures { OnOk result (text.new.items ≡ text.old.items ++ time_end before.now time) }
{
    let seconds = Number(time / SECOND);
    put_parts(text, &[Text(before), seconds, Text("."), Places(time)])?;
    text.extend_from_slice(b"\n")
}

/// Appends the row of a venue's figure.
#[tactic(auto, unfolding(crate::specs::Metrics::venue_row))]
pub(crate) fn put_venue_row(
    text: &mut Vec<u8>,
    name: &str,
    venue: &[u8],
    value: u64,
) -> Result<(), AllocError>
    ensures { OnOk result (text.new.items ≡ text.old.items ++ venue_row name.now venue.now value) }
{
    put_row_start(text, name, venue)?;
    put_value(text, value)
}

/// Appends the row of a line's count. `venue` is the venue's label,
/// `line` the line's letter.
#[tactic(auto, unfolding(crate::specs::Metrics::line_row))]
pub(crate) fn put_line_row(
    text: &mut Vec<u8>,
    name: &str,
    venue: &[u8],
    line: &str,
    value: u64,
) -> Result<(), AllocError>
    ensures { OnOk result (text.new.items
        ≡ text.old.items ++ line_row name.now venue.now line.now value) }
{
    put_line_start(text, name, venue, line)?;
    put_value(text, value)
}

/// Appends the row of a time of a line, in nanoseconds, as seconds. `venue` is the venue's label,
/// `line` the line's letter.
#[tactic(auto, unfolding(crate::specs::Metrics::line_time_row))]
pub(crate) fn put_line_time_row(
    text: &mut Vec<u8>,
    name: &str,
    venue: &[u8],
    line: &str,
    time: u64,
) -> Result<(), AllocError>
    ensures { OnOk result (text.new.items
        ≡ text.old.items ++ line_time_row name.now venue.now line.now time) }
{
    put_line_start(text, name, venue, line)?;
    put_time(text, "\"} ", time)
}

/// Appends the row of a time of a run, in nanoseconds, as seconds.
#[tactic(auto, unfolding(crate::specs::Metrics::run_time_row))]
pub(crate) fn put_run_time_row(text: &mut Vec<u8>, name: &str, time: u64) -> Result<(), AllocError>
    ensures { OnOk result (text.new.items ≡ text.old.items ++ run_time_row name.now time) }
{
    text.extend_from_slice(name.as_bytes())?;
    put_time(text, " ", time)
}

/// Appends the row of how many datagrams of a line were refused by the refusal of a number.
#[tactic(auto, unfolding(crate::specs::Metrics::refusal_row))]
pub(crate) fn put_refusal_row(
    text: &mut Vec<u8>,
    venue: &[u8],
    line: &str,
    number: &str,
    value: u64,
) -> Result<(), AllocError>
    ensures { OnOk result (text.new.items
        ≡ text.old.items ++ refusal_row venue.now line.now number.now value) }
{
    put_line_start(text, REFUSED, venue, line)?;
    put_parts(text, &[Text("\",refusal=\""), Text(number)])?;
    put_value(text, value)
}

/// Appends the row of whether a line has ended by a cause.
#[tactic(auto, unfolding(crate::specs::Metrics::end_row))]
pub(crate) fn put_end_row(
    text: &mut Vec<u8>,
    venue: &[u8],
    line: &str,
    cause: &str,
    value: u64,
) -> Result<(), AllocError>
    ensures { OnOk result (text.new.items
        ≡ text.old.items ++ end_row venue.now line.now cause.now value) }
{
    put_line_start(text, ENDED, venue, line)?;
    put_parts(text, &[Text("\",by=\""), Text(cause)])?;
    put_value(text, value)
}
