//! Times, put into a text.
ghost use Rattle.std.specs.Prelude.{◌≡◌, ◌++◌, IfOk, OnOk};
ghost use Rattle.line_discovery.specs.SurveyTexts.{date_member, time_cell, time_columns, time_value};

use best_rows::put_time;
use run_settings::TimeStyle;
use std::alloc::{AllocError, Global};
use text_out::{LineBuffer, put_filled, put_number};

/// Returns a time in nanoseconds from 1970 on as a number of these, or as a date.
fn time_value(alloc: Global, style: TimeStyle, time: u64) -> Result<LineBuffer, AllocError>
    ensures { IfOk result (λ value. value.items ≡ time_value style time) }
{
    let mut value = LineBuffer::new(alloc);
    value.make_room(30)?;
    match style {
        TimeStyle::Seconds => put_number(&mut value, time),
        TimeStyle::Utc => put_time(&mut value, TimeStyle::Utc, time),
    }
    Ok(value)
}

/// Returns how many columns a time has.
fn time_columns(style: TimeStyle) -> usize
    ensures { result ≡ time_columns style }
{
    match style {
        TimeStyle::Seconds => 20,
        TimeStyle::Utc => 30,
    }
}

/// Appends a time at the end of its columns.
pub(crate) fn put_time_cell(
    alloc: Global,
    text: &mut Vec<u8>,
    style: TimeStyle,
    time: Option<u64>,
) -> Result<(), AllocError>
    ensures { OnOk result (text.new.items ≡ text.old.items ++ time_cell style time) }
{
    match time {
        None => put_filled(text, time_columns(style), " ", b"-"),
        Some(time) => {
            let value = time_value(alloc, style, time)?;
            put_filled(text, time_columns(style), " ", value.as_slice())
        }
    }
}

/// Appends a member of an object with a date.
pub(crate) fn put_date_member(
    alloc: Global,
    text: &mut Vec<u8>,
    label: &str,
    time: Option<u64>,
) -> Result<(), AllocError>
    ensures { OnOk result (text.new.items ≡ text.old.items ++ date_member label.now time) }
{
    text.extend_from_slice(label.as_bytes())?;
    match time {
        None => text.extend_from_slice(b"null"),
        Some(time) => {
            let value = time_value(alloc, TimeStyle::Utc, time)?;
            text.extend_from_slice(b"\"")?;
            text.extend_from_slice(value.as_slice())?;
            text.extend_from_slice(b"\"")
        }
    }
}
