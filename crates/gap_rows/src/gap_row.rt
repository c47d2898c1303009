//! The row of a gap.
ghost use Rattle.std.specs.Prelude.{◌≡◌, ◌≤◌, ◌++◌, OnErr, OnOk, length, slice_index_or};
ghost use Rattle.std.specs.List.{AllByRecursion};
ghost use Rattle.text_out.specs.Pages.{memory_of};
ghost use Rattle.event_sinks.specs.TextPages.{FailsPage, TakesPage};
ghost use Rattle.report_rows.specs.RowTexts.{IsShortCell, all_shown, row_room, texts_of};
ghost use Rattle.gap_rows.specs.GapCells.{gap_end_word, gap_line_word, gap_names, gap_row, gap_rows_text, gap_values, no_gap};

use event_sinks::{SinkStop, TextPage};
use feed_types::VenueId;
use line_gaps::{EndedGap, GapEnd, GapLine};
use report_rows::{Cell, put_row};
use run_settings::RowFormat;
use text_out::{LineBuffer, TextOut};

/// Returns the names of the columns.
pub(crate) fn gap_names() -> [&'static str; 9]
    ensures names { texts_of result ≡ gap_names }
    ensures few { row_room (texts_of result) ≤ 1024 }
{
    [
        "venue", "line", "first", "last", "messages", "given_up", "began", "ended", "ended_by",
    ]
}

/// Returns the word of a line.
fn line_word(line: GapLine) -> &'static str
    ensures word { result.now ≡ gap_line_word line }
    ensures short { length result.now ≤ 40 }
{
    match line {
        GapLine::A => "A",
        GapLine::B => "B",
        GapLine::All => "all",
    }
}

/// Returns the word of what ended a gap.
fn end_word(by: GapEnd) -> &'static str
    ensures word { result.now ≡ gap_end_word by }
    ensures short { length result.now ≤ 40 }
{
    match by {
        GapEnd::A => "A",
        GapEnd::B => "B",
        GapEnd::Recovery => "recovery",
        GapEnd::Skip => "skip",
        GapEnd::Before => "before",
        GapEnd::Open => "open",
    }
}

/// Returns the cells of a gap of the venue.
fn gap_cells(venue: VenueId, gap: &EndedGap) -> [Cell<'static>; 9]
    ensures values { all_shown result ≡ gap_values venue gap.now }
    ensures short { AllByRecursion IsShortCell result }
{
    [
        Cell::Venue(venue.index()),
        Cell::Word(line_word(gap.line)),
        Cell::Count(gap.gap.run.first),
        Cell::Count(gap.gap.run.last),
        Cell::Count(gap.gap.messages),
        Cell::Count(gap.given_up),
        Cell::Time(gap.gap.began),
        Cell::Time(gap.ended),
        Cell::Word(end_word(gap.by)),
    ]
}

/// Appends the row of a gap of the venue.
#[cold]
#[inline(never)]
fn put_gap(text: &mut LineBuffer, format: RowFormat, venue: VenueId, gap: &EndedGap)
    requires { 1024 ≤ text.old.room }
    ensures row { text.new.items ≡ text.old.items ++ gap_row format venue gap.now }
    ensures size { memory_of text.old ≤ memory_of text.new }
{
    let names = gap_names();
    let cells = gap_cells(venue, gap);
    put_row(text, format, &names, &cells);
}

/// Returns the gap at a place, an empty one where there is none.
fn gap_at(gaps: &[EndedGap], place: usize) -> EndedGap
    ensures { result ≡ slice_index_or gaps.now place no_gap }
{
    if place < gaps.len() {
        return gaps[place];
    }
    EndedGap::default()
}

/// Writes the rows of gaps of the venue.
#[inline(always)]
pub(crate) fn write_gaps<W: TextOut>(
    page: &mut TextPage<W>,
    format: &RowFormat,
    venue: VenueId,
    gaps: &[EndedGap],
) -> Result<(), SinkStop>
    ensures took { OnOk result (TakesPage W.adds W.failures page.old
        (gap_rows_text format.now venue gaps.now) page.new) }
    ensures failed { OnErr result (FailsPage W.adds W.failures page.old
        (page.old.text.items ++ gap_rows_text format.now venue gaps.now) page.new) }
{
    for place in 0..gaps.len() {
        page.write_full()?;
        let gap = gap_at(gaps, place);
        put_gap(&mut page.text, *format, venue, &gap);
    }
    Ok(())
}
