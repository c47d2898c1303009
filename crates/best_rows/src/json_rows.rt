//! Rows that are JSON objects.
ghost use Rattle.std.specs.Prelude.{◌≤◌};
ghost use Rattle.journal_book.specs.Changes.{notice_of};
ghost use Rattle.text_out.specs.Pages.{Appends};
ghost use Rattle.best_rows.specs.RowTexts.{json_row, json_side};
ghost use Rattle.best_rows.specs.Times.{json_known_time, json_time};

use crate::quoting::put_quoted;
use crate::row_time::RowTime;
use crate::rows::put_state;
use crate::time_styles::put_time_value;
use crate::venue_texts::put_venue_value;
use feed_types::Best;
use nbbo_book::Change;
use run_settings::{TimeStyle, ValueStyle, VenueNames};
use text_out::{LineBuffer, put_bytes, put_number, put_price};

/// Appends a side as an object of its venue, price and size, or null.
fn put_json_side(text: &mut LineBuffer, venues: &VenueNames, side: &Option<Best>)
    requires { 80 ≤ text.old.room }
    ensures { Appends text.old (json_side venues.now side.now) 80 text.new }
{
    match side {
        None => put_bytes(text, *b"null"),
        Some(best) => {
            put_bytes(text, *b"{\"venue\":");
            put_venue_value(text, venues, best.venue.index());
            put_bytes(text, *b",\"price\":");
            put_price(text, best.price);
            put_bytes(text, *b",\"size\":");
            put_number(text, best.size);
            put_bytes(text, *b"}");
        }
    }
}

/// Appends a time that is known as two more members, in the style and in nanoseconds.
pub fn put_known_time(text: &mut LineBuffer, style: TimeStyle, time: u64)
    requires { 71 ≤ text.old.room }
    ensures { Appends text.old (json_known_time style time) 71 text.new }
{
    put_bytes(text, *b",\"time\":");
    put_time_value(text, style, time);
    put_bytes(text, *b",\"time_ns\":");
    put_number(text, time);
}

/// Appends a time as two more members, null where it isn't known.
fn put_json_time(text: &mut LineBuffer, style: TimeStyle, time: RowTime)
    requires { 71 ≤ text.old.room }
    ensures { Appends text.old (json_time style time) 71 text.new }
{
    match time {
        RowTime::Absent => {}
        RowTime::Given(None) => put_bytes(text, *b",\"time\":null,\"time_ns\":null"),
        RowTime::Given(Some(time)) => put_known_time(text, style, time),
    }
}

/// Appends the object of a change of the national best, under this number, on a line, with its
/// time and its venues in the style.
pub fn put_json(
    text: &mut LineBuffer,
    style: &ValueStyle,
    time: RowTime,
    number: u64,
    change: &Change,
)
    requires { 359 ≤ text.old.room }
    ensures { Appends text.old (json_row style.now time (notice_of number change.now)) 359
        text.new }
{
    put_bytes(text, *b"{\"notice\":");
    put_number(text, number);
    put_bytes(text, *b",\"position\":");
    put_number(text, change.position);
    put_bytes(text, *b",\"symbol\":");
    put_quoted(text, change.symbol.name(), b'\\');
    put_bytes(text, *b",\"bid\":");
    put_json_side(text, &style.venues, &change.national.bid);
    put_bytes(text, *b",\"offer\":");
    put_json_side(text, &style.venues, &change.national.offer);
    put_bytes(text, *b",\"state\":\"");
    put_state(text, change.national.state());
    put_bytes(text, *b"\"");
    put_json_time(text, style.times, time);
    put_bytes(text, *b"}\n");
}
