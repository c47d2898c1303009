//! The rows of what lines brought in a period.
ghost use Rattle.std.specs.Prelude.{◌≡◌, ◌<◌, ◌≤◌, ◌++◌, OnErr, OnOk, length, slice_index_or};
ghost use Rattle.std.specs.List.{AllByRecursion};
ghost use Rattle.text_out.specs.Pages.{memory_of};
ghost use Rattle.event_sinks.specs.TextPages.{FailsPage, TakesPage};
ghost use Rattle.report_rows.specs.RowTexts.{IsShortCell, all_shown, row_room, texts_of};
ghost use Rattle.period_rows.specs.CountRows.{count_names, count_values, count_line_row, line_word, over_text, period_text, periods_text, text_at};
ghost use Rattle.period_rows.specs.LineFigures.{no_figures};

use crate::count_figures::CountFigures;
use crate::line_figures::LineFigures;
use event_sinks::{SinkStop, TextPage};
use report_rows::{Cell, KeptPeriod, put_row};
use run_settings::RowFormat;
use text_out::{LineBuffer, TextOut};

/// Returns the names of the columns. Of an object the time stands last.
pub(crate) fn count_names(format: RowFormat) -> [&'static str; 8]
    ensures names { texts_of result ≡ count_names format }
    ensures few { row_room (texts_of result) ≤ 1024 }
{
    match format {
        RowFormat::Csv(_) => [
            "time", "venue", "line", "packets", "bytes", "messages", "first", "missing",
        ],
        RowFormat::Json(_) => [
            "venue", "line", "packets", "bytes", "messages", "first", "missing", "time",
        ],
    }
}

/// Returns the letter of the line at a place.
fn line_word(place: usize) -> &'static str
    ensures word { result.now ≡ line_word place }
    ensures short { length result.now ≤ 40 }
{
    if place % 2 == 0 { "A" } else { "B" }
}

/// Returns the cells of the line at a place in the period that began at this time.
fn line_cells(
    format: RowFormat,
    begin: u64,
    place: usize,
    figures: &LineFigures,
) -> [Cell<'static>; 8]
    ensures values { all_shown result ≡ count_values format begin place figures.now }
    ensures short { AllByRecursion IsShortCell result }
{
    let time = Cell::Time(Some(begin));
    let venue = Cell::Venue(place / 2);
    let line = Cell::Word(line_word(place));
    let packets = Cell::Count(figures.packets);
    let bytes = Cell::Count(figures.bytes);
    let messages = Cell::Count(figures.messages);
    let first = Cell::Count(figures.first);
    let missing = Cell::Count(figures.missing);
    match format {
        RowFormat::Csv(_) => [time, venue, line, packets, bytes, messages, first, missing],
        RowFormat::Json(_) => [venue, line, packets, bytes, messages, first, missing, time],
    }
}

/// Appends the row of the line at a place.
fn put_line(
    text: &mut LineBuffer,
    format: RowFormat,
    begin: u64,
    place: usize,
    figures: &LineFigures,
)
    requires { 1024 ≤ text.old.room }
    ensures row { text.new.items ≡ text.old.items ++ count_line_row format begin place figures.now }
    ensures size { memory_of text.old ≤ memory_of text.new }
{
    let names = count_names(format);
    let cells = line_cells(format, begin, place, figures);
    put_row(text, format, &names, &cells);
}

/// Returns the figures of the line at a place, those of nothing where there is none.
fn figures_at(figures: &[LineFigures], place: usize) -> LineFigures
    ensures { result ≡ slice_index_or figures.now place no_figures }
{
    if place < figures.len() {
        return figures[place];
    }
    LineFigures::default()
}

/// Writes the rows of a period: one of each of the first lines.
pub(crate) fn write_period<W: TextOut>(
    page: &mut TextPage<W>,
    format: RowFormat,
    lines: usize,
    period: &KeptPeriod<CountFigures>,
) -> Result<(), SinkStop>
    ensures took { OnOk result (TakesPage W.adds W.failures page.old
        (period_text format lines period.now) page.new) }
    ensures failed { OnErr result (FailsPage W.adds W.failures page.old
        (page.old.text.items ++ period_text format lines period.now) page.new) }
{
    for place in 0..lines {
        page.write_full()?;
        let figures = figures_at(&period.figures, place);
        put_line(&mut page.text, format, period.begin, place, &figures);
    }
    Ok(())
}

/// Writes the rows of a period that is over, if one is.
pub(crate) fn write_over<W: TextOut>(
    page: &mut TextPage<W>,
    format: &RowFormat,
    lines: usize,
    over: &Option<KeptPeriod<CountFigures>>,
) -> Result<(), SinkStop>
    ensures took { OnOk result (TakesPage W.adds W.failures page.old
        (over_text format.now lines over.now) page.new) }
    ensures failed { OnErr result (FailsPage W.adds W.failures page.old
        (page.old.text.items ++ over_text format.now lines over.now) page.new) }
{
    match over {
        Some(period) => write_period(page, *format, lines, period),
        None => Ok(()),
    }
}

/// Writes the rows of the period at a place, from the earliest one on.
fn write_period_at<W: TextOut>(
    page: &mut TextPage<W>,
    format: RowFormat,
    lines: usize,
    periods: &[KeptPeriod<CountFigures>],
    place: usize,
) -> Result<(), SinkStop>
    requires { place < length periods.now }
    ensures took { OnOk result (TakesPage W.adds W.failures page.old
        (text_at format lines periods.now place) page.new) }
    ensures failed { OnErr result (FailsPage W.adds W.failures page.old
        (page.old.text.items ++ text_at format lines periods.now place) page.new) }
{
    let last = periods.len() - 1;
    write_period(page, format, lines, &periods[last - place])
}

/// Writes the rows of all periods, those of the earliest one first.
pub(crate) fn write_periods<W: TextOut>(
    page: &mut TextPage<W>,
    format: RowFormat,
    lines: usize,
    periods: &[KeptPeriod<CountFigures>],
) -> Result<(), SinkStop>
    ensures took { OnOk result (TakesPage W.adds W.failures page.old
        (periods_text format lines periods.now) page.new) }
    ensures failed { OnErr result (FailsPage W.adds W.failures page.old
        (page.old.text.items ++ periods_text format lines periods.now) page.new) }
{
    for place in 0..periods.len() {
        write_period_at(page, format, lines, periods, place)?;
    }
    Ok(())
}
