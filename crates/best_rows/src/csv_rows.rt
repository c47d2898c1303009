//! Rows of comma-separated values.
ghost use Rattle.std.specs.Prelude.{◌≤◌};
ghost use Rattle.journal_book.specs.Changes.{notice_of};
ghost use Rattle.text_out.specs.Pages.{Appends};
ghost use Rattle.best_rows.specs.RowTexts.{csv_row, csv_side};
ghost use Rattle.best_rows.specs.Times.{csv_time};

use crate::quoting::put_csv_name;
use crate::row_time::RowTime;
use crate::rows::put_state;
use crate::time_styles::put_time;
use crate::venue_texts::put_venue;
use feed_types::Best;
use nbbo_book::Change;
use run_settings::{TimeStyle, ValueStyle, VenueNames};
use text_out::{LineBuffer, put_bytes, put_number, put_price};

/// Appends the venue, the price and the size of a side, each empty where there is none.
fn put_csv_side(text: &mut LineBuffer, venues: &VenueNames, side: &Option<Best>)
    requires { 55 ≤ text.old.room }
    ensures { Appends text.old (csv_side venues.now side.now) 55 text.new }
{
    match side {
        None => put_bytes(text, *b",,"),
        Some(best) => {
            put_venue(text, venues, best.venue.index());
            put_bytes(text, *b",");
            put_price(text, best.price);
            put_bytes(text, *b",");
            put_number(text, best.size);
        }
    }
}

/// Appends a time as one more value, in the style.
fn put_csv_time(text: &mut LineBuffer, style: TimeStyle, time: RowTime)
    requires { 31 ≤ text.old.room }
    ensures { Appends text.old (csv_time style time) 31 text.new }
{
    match time {
        RowTime::Absent => {}
        RowTime::Given(None) => put_bytes(text, *b","),
        RowTime::Given(Some(time)) => {
            put_bytes(text, *b",");
            put_time(text, style, time);
        }
    }
}

/// Appends the row of a change of the national best, under this number, with its time and its
/// venues in the style.
pub fn put_csv(
    text: &mut LineBuffer,
    style: &ValueStyle,
    time: RowTime,
    number: u64,
    change: &Change,
)
    requires { 214 ≤ text.old.room }
    ensures { Appends text.old (csv_row style.now time (notice_of number change.now)) 214 text.new }
{
    put_number(text, number);
    put_bytes(text, *b",");
    put_number(text, change.position);
    put_bytes(text, *b",");
    put_csv_name(text, change.symbol);
    put_bytes(text, *b",");
    put_csv_side(text, &style.venues, &change.national.bid);
    put_bytes(text, *b",");
    put_csv_side(text, &style.venues, &change.national.offer);
    put_bytes(text, *b",");
    put_state(text, change.national.state());
    put_csv_time(text, style.times, time);
    put_bytes(text, *b"\n");
}
