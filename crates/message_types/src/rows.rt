//! The rows of what was counted.
ghost use Rattle.std.specs.Prelude.{◌≡◌, ◌≤◌, ◌++◌, IfOk, OnOk, length};
ghost use Rattle.std.specs.List.{AllByRecursion};
ghost use Rattle.report_rows.specs.FirstTexts.{first_texts};
ghost use Rattle.report_rows.specs.RowTexts.{IsShortCell, all_shown, header_text, row_room, texts_of};
ghost use Rattle.message_types.specs.TypeTexts.{column_names, count_row, rows_of_line, word_of_line, row_values, text_of_types, type_row, venue_rows};

use crate::counts::TypeCounts;
use crate::types::{TYPES, type_word};
use feed_types::{LineId, VenueId};
use report_rows::{Cell, put_header, put_row};
use run_settings::RowFormat;
use std::alloc::{AllocError, Global};
use text_out::LineBuffer;

/// The most bytes of a row.
const ROW: usize = 1_024;

/// Returns the names of the columns.
fn column_names() -> [&'static str; 4]
    ensures names { texts_of result ≡ column_names }
    ensures few { row_room (texts_of result) ≤ 1024 }
{
    ["venue", "line", "type", "messages"]
}

/// Returns the word of a line.
fn word_of_line(line: LineId) -> &'static str
    ensures word { result.now ≡ word_of_line line }
    ensures short { length result.now ≤ 40 }
{
    match line {
        LineId::A => "A",
        LineId::B => "B",
        LineId::Recovery => "recovery",
    }
}

/// Returns the cells of a type of a line.
fn row_cells(venue: VenueId, line: LineId, kind: &str, messages: u64) -> [Cell<'_>; 4]
    requires { length kind.now ≤ 40 }
    ensures values { all_shown result ≡ row_values venue line kind.now messages }
    ensures short { AllByRecursion IsShortCell result }
{
    [
        Cell::Venue(venue.index()),
        Cell::Word(word_of_line(line)),
        Cell::Word(kind),
        Cell::Count(messages),
    ]
}

/// Appends the row of a type of a line, unless no message was of it.
fn put_count(
    text: &mut LineBuffer,
    format: RowFormat,
    venue: VenueId,
    line: LineId,
    kind: &str,
    messages: u64,
) -> Result<(), AllocError>
    requires { length kind.now ≤ 40 }
    ensures { OnOk result (text.new.items
        ≡ text.old.items ++ count_row format venue line kind.now messages) }
{
    if messages == 0 {
        return Ok(());
    }
    text.make_room(ROW)?;
    let names = column_names();
    let cells = row_cells(venue, line, kind, messages);
    put_row(text, format, &names, &cells);
    Ok(())
}

/// Appends the rows of a line.
fn put_line(
    text: &mut LineBuffer,
    format: RowFormat,
    counts: &TypeCounts,
    venue: VenueId,
    line: LineId,
) -> Result<(), AllocError>
    ensures { OnOk result (text.new.items
        ≡ text.old.items ++ rows_of_line format counts.now venue line) }
{
    for place in 0..TYPES {
        let messages = counts.at(venue, line, place);
        put_count(text, format, venue, line, type_word(place), messages)?;
    }
    Ok(())
}

/// Appends the rows of a venue.
fn put_venue(
    text: &mut LineBuffer,
    format: RowFormat,
    counts: &TypeCounts,
    venue: VenueId,
) -> Result<(), AllocError>
    ensures { OnOk result (text.new.items
        ≡ text.old.items ++ venue_rows format counts.now venue) }
{
    put_line(text, format, counts, venue, LineId::A)?;
    put_line(text, format, counts, venue, LineId::B)?;
    put_line(text, format, counts, venue, LineId::Recovery)
}

/// Appends the rows of the first venues.
fn put_venues(
    text: &mut LineBuffer,
    format: RowFormat,
    counts: &TypeCounts,
    venues: usize,
) -> Result<(), AllocError>
    requires { venues ≤ 16 }
    ensures { OnOk result (text.new.items
        ≡ text.old.items ++ first_texts (venue_rows format counts.now) venues) }
{
    for place in 0..venues {
        put_venue(text, format, counts, VenueId::at(place))?;
    }
    Ok(())
}

/// Appends the names of the columns.
fn put_names(text: &mut LineBuffer, format: RowFormat) -> Result<(), AllocError>
    ensures { OnOk result (text.new.items
        ≡ text.old.items ++ header_text format column_names) }
{
    text.make_room(ROW)?;
    put_header(text, format, &column_names());
    Ok(())
}

/// Returns the bytes of a text.
fn bytes_of(alloc: Global, text: &LineBuffer) -> Result<Vec<u8>, AllocError>
    ensures { IfOk result (λ bytes. bytes.items ≡ text.now.items) }
{
    let mut bytes = Vec::with_capacity(alloc, text.len())?;
    bytes.extend_from_slice(text.as_slice())?;
    Ok(bytes)
}

/// Returns the rows of the first venues, after the names of the columns. Fails where memory is
/// refused.
pub(crate) fn text_of(
    alloc: Global,
    counts: &TypeCounts,
    format: RowFormat,
    venues: usize,
) -> Result<Vec<u8>, AllocError>
    requires { venues ≤ 16 }
    ensures { IfOk result (λ text.
        text.items ≡ text_of_types format venues counts.now) }
{
    let mut text = LineBuffer::new(alloc);
    put_names(&mut text, format)?;
    put_venues(&mut text, format, counts, venues)?;
    bytes_of(alloc, &text)
}
