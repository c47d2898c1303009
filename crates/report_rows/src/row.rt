//! Rows of cells, and what stands before the first row.
ghost use Rattle.std.specs.Prelude.{◌≡◌, ◌+◌, ◌*◌, ◌++◌, ◌<◌, ◌≤◌, [], length, slice_index_or};
ghost use Rattle.std.specs.List.{AllByRecursion};
ghost use Rattle.text_out.specs.Pages.{Appends};
ghost use Rattle.report_rows.specs.RowTexts.{IsShortCell, all_shown, comma_at, row_cell_text, first_cells, first_names, header_text, nothing, room_of, row_begin, row_end, row_room, row_text, texts_of};
ghost use Rattle.report_rows.specs.declared.cell.Cell.TheVariants.{Nothing};

use crate::cell::Cell;
use crate::cell_texts::{put_cell, put_text};
use run_settings::RowFormat;
use text_out::{LineBuffer, put_bytes};

/// Appends a comma, unless the place is the first one.
fn put_comma(text: &mut LineBuffer, place: usize)
    requires { 1 ≤ text.old.room }
    ensures { Appends text.old (comma_at place) 1 text.new }
{
    if place != 0 {
        put_bytes(text, *b",");
    }
}

/// Appends the cell at a place, after a comma unless it is the first one.
fn put_cell_at(
    text: &mut LineBuffer,
    format: &RowFormat,
    names: &[&str],
    cells: &[Cell<'_>],
    place: usize,
)
    requires named { place < length names.now }
    requires there { place < length cells.now }
    requires short { IsShortCell (slice_index_or cells.now place Nothing) }
    requires room { 63 + 2 * length (slice_index_or (texts_of names.now) place [])
        ≤ text.old.room }
    ensures { Appends text.old (comma_at place
        ++ row_cell_text format.now (slice_index_or (texts_of names.now) place [])
        (slice_index_or (all_shown cells.now) place nothing))
        (63 + 2 * length (slice_index_or (texts_of names.now) place [])) text.new }
{
    put_comma(text, place);
    put_cell(text, format, names[place], &cells[place]);
}

/// Appends all cells, with commas between them.
fn put_cells(text: &mut LineBuffer, format: &RowFormat, names: &[&str], cells: &[Cell<'_>])
    requires named { length cells.now ≡ length names.now }
    requires short { AllByRecursion IsShortCell cells.now }
    requires room { room_of (texts_of names.now) (length names.now) ≤ text.old.room }
    ensures { Appends text.old (first_cells format.now (texts_of names.now) (all_shown cells.now)
        (length names.now)) (room_of (texts_of names.now) (length names.now)) text.new }
{
    for place in 0..names.len() {
        put_cell_at(text, format, names, cells, place);
    }
}

/// Appends what stands before a row's first cell.
fn put_row_begin(text: &mut LineBuffer, format: RowFormat)
    requires { 1 ≤ text.old.room }
    ensures { Appends text.old (row_begin format) 1 text.new }
{
    match format {
        RowFormat::Csv(_) => {}
        RowFormat::Json(_) => put_bytes(text, *b"{"),
    }
}

/// Appends what stands after a row's last cell.
fn put_row_end(text: &mut LineBuffer, format: RowFormat)
    requires { 2 ≤ text.old.room }
    ensures { Appends text.old (row_end format) 2 text.new }
{
    match format {
        RowFormat::Csv(_) => put_bytes(text, *b"\n"),
        RowFormat::Json(_) => put_bytes(text, *b"}\n"),
    }
}

/// Appends the row of these cells, one for each column, in the format.
pub fn put_row(text: &mut LineBuffer, format: RowFormat, names: &[&str], cells: &[Cell<'_>])
    requires named { length cells.now ≡ length names.now }
    requires short { AllByRecursion IsShortCell cells.now }
    requires room { row_room (texts_of names.now) ≤ text.old.room }
    ensures { Appends text.old (row_text format (texts_of names.now) (all_shown cells.now))
        (row_room (texts_of names.now)) text.new }
{
    put_row_begin(text, format);
    put_cells(text, &format, names, cells);
    put_row_end(text, format);
}

/// Appends the name at a place, after a comma unless it is the first one.
fn put_name_at(text: &mut LineBuffer, names: &[&str], place: usize)
    requires named { place < length names.now }
    requires room { 63 + 2 * length (slice_index_or (texts_of names.now) place [])
        ≤ text.old.room }
    ensures { Appends text.old (comma_at place ++ slice_index_or (texts_of names.now) place [])
        (63 + 2 * length (slice_index_or (texts_of names.now) place [])) text.new }
{
    put_comma(text, place);
    put_text(text, names[place]);
}

/// Appends all names, with commas between them.
fn put_names(text: &mut LineBuffer, names: &[&str])
    requires { room_of (texts_of names.now) (length names.now) ≤ text.old.room }
    ensures { Appends text.old (first_names (texts_of names.now) (length names.now))
        (room_of (texts_of names.now) (length names.now)) text.new }
{
    for place in 0..names.len() {
        put_name_at(text, names, place);
    }
}

/// Appends what stands before the first row: the names of the columns, or nothing.
pub fn put_header(text: &mut LineBuffer, format: RowFormat, names: &[&str])
    requires { row_room (texts_of names.now) ≤ text.old.room }
    ensures { Appends text.old (header_text format (texts_of names.now))
        (row_room (texts_of names.now)) text.new }
{
    match format {
        RowFormat::Csv(_) => {
            put_names(text, names);
            put_bytes(text, *b"\n");
        }
        RowFormat::Json(_) => {}
    }
}
