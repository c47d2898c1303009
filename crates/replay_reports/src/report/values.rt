//! Values and venues as texts.
ghost use Rattle.std.specs.Prelude.{◌≡◌, ◌++◌, IfOk, OnOk};
ghost use Rattle.run_settings.specs.VenueNames.{venue_text};
ghost use Rattle.best_rows.specs.Times.{time_text};
ghost use Rattle.best_rows.specs.VenueValues.{json_venue};
ghost use Rattle.replay_reports.specs.report.ReportTexts.{json_of_value, json_time_of, value_text};

use crate::report::figure::FigureValue;
use best_rows::put_time;
use run_settings::{TimeStyle, VenueName, VenueNames};
use std::alloc::{AllocError, Global};
use text_out::{LineBuffer, put_digits};

/// Appends a venue: its name where venues have names, else its number.
pub(crate) fn put_venue(
    text: &mut Vec<u8>,
    names: &VenueNames,
    venue: usize,
) -> Result<(), AllocError>
    ensures { OnOk result (text.new.items ≡ text.old.items ++ venue_text names.now venue) }
{
    match names {
        VenueNames::Numbers => put_digits(text, venue as u64),
        VenueNames::Named(names) => text.extend_from_slice(VenueName::at(names, venue).text()),
    }
}

/// Appends a venue as JSON has it: its name in quotation marks, or its number.
pub(crate) fn put_json_venue(
    text: &mut Vec<u8>,
    names: &VenueNames,
    venue: usize,
) -> Result<(), AllocError>
    ensures { OnOk result (text.new.items ≡ text.old.items ++ json_venue names.now venue) }
{
    match names {
        VenueNames::Numbers => put_digits(text, venue as u64),
        VenueNames::Named(names) => {
            text.extend_from_slice(b"\"")?;
            text.extend_from_slice(VenueName::at(names, venue).text())?;
            text.extend_from_slice(b"\"")
        }
    }
}

/// Returns a time in nanoseconds from 1970 on, in the style.
fn date_of(alloc: Global, style: TimeStyle, time: u64) -> Result<LineBuffer, AllocError>
    ensures { IfOk result (λ date. date.items ≡ time_text style time) }
{
    let mut date = LineBuffer::new(alloc);
    date.make_room(30)?;
    put_time(&mut date, style, time);
    Ok(date)
}

/// Appends a time in nanoseconds from 1970 on, in the style.
fn put_date(
    alloc: Global,
    text: &mut Vec<u8>,
    style: TimeStyle,
    time: u64,
) -> Result<(), AllocError>
    ensures { OnOk result (text.new.items ≡ text.old.items ++ time_text style time) }
{
    let date = date_of(alloc, style, time)?;
    text.extend_from_slice(date.as_slice())
}

/// Appends a value, in the place of none this text.
pub(crate) fn put_value(
    alloc: Global,
    text: &mut Vec<u8>,
    style: TimeStyle,
    none: &[u8],
    value: FigureValue,
) -> Result<(), AllocError>
    ensures { OnOk result (text.new.items ≡ text.old.items ++ value_text style none.now value) }
{
    match value {
        FigureValue::Nothing => text.extend_from_slice(none),
        FigureValue::Count(number) => put_digits(text, number),
        FigureValue::Time(time) => put_date(alloc, text, style, time),
    }
}

/// Appends a time as JSON has it: as nanoseconds, or as a date in quotation marks.
fn put_json_time(
    alloc: Global,
    text: &mut Vec<u8>,
    style: TimeStyle,
    time: u64,
) -> Result<(), AllocError>
    ensures { OnOk result (text.new.items ≡ text.old.items ++ json_time_of style time) }
{
    match style {
        TimeStyle::Seconds => put_digits(text, time),
        TimeStyle::Utc => {
            text.extend_from_slice(b"\"")?;
            put_date(alloc, text, TimeStyle::Utc, time)?;
            text.extend_from_slice(b"\"")
        }
    }
}

/// Appends a value as JSON has it.
pub(crate) fn put_json_value(
    alloc: Global,
    text: &mut Vec<u8>,
    style: TimeStyle,
    value: FigureValue,
) -> Result<(), AllocError>
    ensures { OnOk result (text.new.items ≡ text.old.items ++ json_of_value style value) }
{
    match value {
        FigureValue::Nothing => text.extend_from_slice(b"null"),
        FigureValue::Count(number) => put_digits(text, number),
        FigureValue::Time(time) => put_json_time(alloc, text, style, time),
    }
}
