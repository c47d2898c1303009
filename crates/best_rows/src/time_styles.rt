//! Times in a style.
ghost use Rattle.std.specs.Prelude.{◌≤◌};
ghost use Rattle.text_out.specs.Pages.{Appends};
ghost use Rattle.best_rows.specs.Times.{json_time_value, time_text};

use crate::seconds::put_seconds;
use crate::utc::put_utc;
use run_settings::TimeStyle;
use text_out::{LineBuffer, put_bytes};

/// Appends a time in nanoseconds from 1970 on, in the style.
pub fn put_time(text: &mut LineBuffer, style: TimeStyle, time: u64)
    requires { 30 ≤ text.old.room }
    ensures { Appends text.old (time_text style time) 30 text.new }
{
    match style {
        TimeStyle::Seconds => put_seconds(text, time),
        TimeStyle::Utc => put_utc(text, time),
    }
}

/// Appends a time in nanoseconds from 1970 on as a value of JSON, in the style: a number of
/// seconds, or a date as a text.
pub fn put_time_value(text: &mut LineBuffer, style: TimeStyle, time: u64)
    requires { 32 ≤ text.old.room }
    ensures { Appends text.old (json_time_value style time) 32 text.new }
{
    match style {
        TimeStyle::Seconds => put_seconds(text, time),
        TimeStyle::Utc => {
            put_bytes(text, *b"\"");
            put_utc(text, time);
            put_bytes(text, *b"\"");
        }
    }
}
