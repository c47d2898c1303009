//! Times as dates with a time of day, in UTC.
ghost use Rattle.std.specs.Prelude.{◌≡◌, ◌≤◌, Ok, length, pos};
ghost use Rattle.text_out.specs.Pages.{Appends};
ghost use Rattle.jiff_fmt.specs.Temporal.{parse_timestamp};
ghost use Rattle.best_rows.specs.UtcTexts.{utc_text};

use arrayvec::ArrayString;
use jiff_core::Timestamp;
use jiff_fmt::temporal::DateTimePrinter;
use text_out::{LineBuffer, put_bytes};

/// Appends the bytes of a text.
fn put_text(text: &mut LineBuffer, spelled: &[u8])
    requires short { length spelled.now ≤ 30 }
    requires room { 30 ≤ text.old.room }
    ensures { Appends text.old spelled.now 30 text.new }
{
    for byte in spelled {
        put_bytes(text, [*byte]);
    }
}

/// The instant of a time in nanoseconds from 1970 on.
fn instant_of(time: u64) -> Timestamp
    ensures { result.nanosecond ≡ pos time }
{
    Timestamp {
        nanosecond: i128::from(time),
    }
}

/// The text of a time in nanoseconds from 1970 on, which jiff reads as that time.
fn utc_text(time: u64) -> ArrayString<33>
    ensures text { result.bytes ≡ utc_text time }
    ensures size { length result.bytes ≡ 30 }
    ensures back { parse_timestamp result.bytes ≡ Ok (pos time) }
{
    DateTimePrinter::new()
        .precision(Some(9))
        .timestamp_text(instant_of(time))
}

/// Appends a time in nanoseconds from 1970 on as a date and a time of day in UTC.
pub fn put_utc(text: &mut LineBuffer, time: u64)
    requires { 30 ≤ text.old.room }
    ensures { Appends text.old (utc_text time) 30 text.new }
{
    let spelled = utc_text(time);
    put_text(text, spelled.as_str().as_bytes());
}
