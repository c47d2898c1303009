//! The text of a cell, in each format.
ghost use Rattle.std.specs.Prelude.{◌≤◌, ◌+◌, ◌*◌, length};
ghost use Rattle.text_out.specs.Pages.{Appends};
ghost use Rattle.report_rows.specs.RowTexts.{IsShortCell, row_cell_text, csv_cell, json_count, json_label, json_member, json_styled, json_time_cell, json_value, json_word, nanoseconds_member, cells_shown};

use crate::cell::Cell;
use best_rows::{
    put_csv_name, put_quoted, put_seconds, put_time, put_time_value, put_venue, put_venue_value,
};
use run_settings::{RowFormat, TimeStyle, ValueStyle};
use text_out::{LineBuffer, put_bytes, put_number};

/// Appends bytes, one after the other.
fn put_slice(text: &mut LineBuffer, bytes: &[u8])
    requires { length bytes.now ≤ text.old.room }
    ensures { Appends text.old bytes.now (length bytes.now) text.new }
{
    for byte in bytes {
        put_bytes(text, [*byte]);
    }
}

/// Appends a text.
pub(crate) fn put_text(text: &mut LineBuffer, part: &str)
    requires { length part.now ≤ text.old.room }
    ensures { Appends text.old part.now (length part.now) text.new }
{
    put_slice(text, part.as_bytes());
}

/// Appends a cell as one of comma-separated values.
fn put_csv_cell(text: &mut LineBuffer, style: &ValueStyle, cell: &Cell<'_>)
    requires short { IsShortCell cell.now }
    requires room { 40 ≤ text.old.room }
    ensures { Appends text.old (csv_cell style.now (cells_shown cell.now)) 40 text.new }
{
    match cell {
        Cell::Nothing => {}
        Cell::Count(count) => put_number(text, *count),
        Cell::Seconds(nanoseconds) => put_seconds(text, *nanoseconds),
        Cell::Time(None) => {}
        Cell::Time(Some(time)) => put_time(text, style.times, *time),
        Cell::Word(word) => put_text(text, word),
        Cell::Name(name) => put_csv_name(text, *name),
        Cell::Venue(venue) => put_venue(text, &style.venues, *venue),
    }
}

/// Appends a word in quotation marks.
fn put_json_word(text: &mut LineBuffer, word: &str)
    requires short { length word.now ≤ 40 }
    requires room { 42 ≤ text.old.room }
    ensures { Appends text.old (json_word word.now) 42 text.new }
{
    put_bytes(text, *b"\"");
    put_text(text, word);
    put_bytes(text, *b"\"");
}

/// Appends a time in the style as a value of JSON, or null where it isn't known.
fn put_json_styled(text: &mut LineBuffer, style: TimeStyle, time: Option<u64>)
    requires { 32 ≤ text.old.room }
    ensures { Appends text.old (json_styled style time) 32 text.new }
{
    match time {
        None => put_bytes(text, *b"null"),
        Some(time) => put_time_value(text, style, time),
    }
}

/// Appends a time as nanoseconds, or null where it isn't known.
fn put_json_count(text: &mut LineBuffer, time: Option<u64>)
    requires { 20 ≤ text.old.room }
    ensures { Appends text.old (json_count time) 20 text.new }
{
    match time {
        None => put_bytes(text, *b"null"),
        Some(time) => put_number(text, time),
    }
}

/// Appends a time in nanoseconds as a member of its own, after a comma.
fn put_nanoseconds(text: &mut LineBuffer, name: &str, time: Option<u64>)
    requires { 27 + length name.now ≤ text.old.room }
    ensures { Appends text.old (nanoseconds_member name.now time) (27 + length name.now) text.new }
{
    put_bytes(text, *b",\"");
    put_text(text, name);
    put_bytes(text, *b"_ns\":");
    put_json_count(text, time);
}

/// Appends a time as the value of a member, and in nanoseconds as one more member.
fn put_json_time(text: &mut LineBuffer, style: TimeStyle, name: &str, time: Option<u64>)
    requires { 59 + length name.now ≤ text.old.room }
    ensures { Appends text.old (json_time_cell style name.now time)
        (59 + length name.now) text.new }
{
    put_json_styled(text, style, time);
    put_nanoseconds(text, name, time);
}

/// Appends a cell as the value of a member of this name.
fn put_json_value(text: &mut LineBuffer, style: &ValueStyle, name: &str, cell: &Cell<'_>)
    requires short { IsShortCell cell.now }
    requires room { 59 + length name.now ≤ text.old.room }
    ensures { Appends text.old (json_value style.now name.now (cells_shown cell.now))
        (59 + length name.now)
        text.new }
{
    match cell {
        Cell::Nothing => put_bytes(text, *b"null"),
        Cell::Count(count) => put_number(text, *count),
        Cell::Seconds(nanoseconds) => put_seconds(text, *nanoseconds),
        Cell::Time(time) => put_json_time(text, style.times, name, *time),
        Cell::Word(word) => put_json_word(text, word),
        Cell::Name(symbol) => put_quoted(text, symbol.name(), b'\\'),
        Cell::Venue(venue) => put_venue_value(text, &style.venues, *venue),
    }
}

/// Appends a name as what stands before a member's value.
fn put_json_label(text: &mut LineBuffer, name: &str)
    requires { 3 + length name.now ≤ text.old.room }
    ensures { Appends text.old (json_label name.now) (3 + length name.now) text.new }
{
    put_bytes(text, *b"\"");
    put_text(text, name);
    put_bytes(text, *b"\":");
}

/// Appends a cell as a member of this name.
fn put_json_member(text: &mut LineBuffer, style: &ValueStyle, name: &str, cell: &Cell<'_>)
    requires short { IsShortCell cell.now }
    requires room { 62 + 2 * length name.now ≤ text.old.room }
    ensures { Appends text.old (json_member style.now name.now (cells_shown cell.now))
        (62 + 2 * length name.now) text.new }
{
    put_json_label(text, name);
    put_json_value(text, style, name, cell);
}

/// Appends a cell of the column of this name in the format.
pub(crate) fn put_cell(text: &mut LineBuffer, format: &RowFormat, name: &str, cell: &Cell<'_>)
    requires short { IsShortCell cell.now }
    requires room { 62 + 2 * length name.now ≤ text.old.room }
    ensures { Appends text.old (row_cell_text format.now name.now (cells_shown cell.now))
        (62 + 2 * length name.now) text.new }
{
    match format {
        RowFormat::Csv(style) => put_csv_cell(text, style, cell),
        RowFormat::Json(style) => put_json_member(text, style, name, cell),
    }
}
