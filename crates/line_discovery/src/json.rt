//! What was counted of a capture, as JSON.
ghost use Rattle.std.specs.Prelude.{◌≡◌, ◌++◌, IfOk, OnOk, flat_map};
ghost use Rattle.line_discovery.specs.SurveyTexts.{escaped_code, json_dates, json_head, json_members, json_of, json_rest, json_line, session_name, text_of_survey};
ghost use Rattle.line_discovery.specs.Tables.{rows_of};

use crate::address_text::put_place;
use crate::counts::SurveyCounts;
use crate::line_key::LineKey;
use crate::line_row::LineRow;
use crate::look::put_look_member;
use crate::table::EndpointTable;
use crate::text::{high_of, low_of, other_key, session_name};
use crate::times::put_date_member;
use crate::unlisted::{Unlisted, rest_of};
use feed_types::SessionName;
use run_settings::{StatsFormat, TimeStyle};
use std::alloc::{AllocError, Global};
use text_out::{NumberStyle, put_labelled};

/// How numbers are put.
const NUMBERS: NumberStyle = NumberStyle {
    columns: 0,
    nothing: "null",
};

/// Appends printable ASCII as the inside of a string.
fn put_escaped(text: &mut Vec<u8>, bytes: &[u8]) -> Result<(), AllocError>
    ensures { OnOk result (text.new.items
        ≡ text.old.items ++ flat_map escaped_code bytes.now) }
{
    for byte in bytes {
        if *byte == b'"' || *byte == b'\\' {
            text.extend_from_slice(&[b'\\', *byte])?;
        } else {
            text.extend_from_slice(&[*byte])?;
        }
    }
    Ok(())
}

/// Appends the name of a session as the inside of a string.
fn put_session(text: &mut Vec<u8>, session: &Option<SessionName>) -> Result<(), AllocError>
    ensures { OnOk result (text.new.items
        ≡ text.old.items ++ flat_map escaped_code (session_name session.now)) }
{
    put_escaped(text, session_name(session))
}

/// Appends where a line is, and its session.
fn put_head(alloc: Global, text: &mut Vec<u8>, key: &LineKey) -> Result<(), AllocError>
    ensures { OnOk result (text.new.items ≡ text.old.items ++ json_head key.now) }
{
    text.extend_from_slice(b"{\"address\":\"")?;
    put_place(alloc, text, 0, key)?;
    text.extend_from_slice(b"\",\"session\":\"")?;
    put_session(text, &key.session)
}

/// Appends the times of a line as dates, where these are asked for.
fn put_dates(
    alloc: Global,
    text: &mut Vec<u8>,
    style: TimeStyle,
    row: &LineRow,
) -> Result<(), AllocError>
    ensures { OnOk result (text.new.items ≡ text.old.items ++ json_dates style row.now) }
{
    match style {
        TimeStyle::Seconds => Ok(()),
        TimeStyle::Utc => {
            put_date_member(alloc, text, ",\"first_time\":", low_of(row.times))?;
            put_date_member(alloc, text, ",\"last_time\":", high_of(row.times))
        }
    }
}

/// Appends what was counted of a line.
fn put_members(
    alloc: Global,
    text: &mut Vec<u8>,
    style: TimeStyle,
    others: &EndpointTable,
    rows: &[LineRow],
    row: &LineRow,
) -> Result<(), AllocError>
    ensures { OnOk result (text.new.items
        ≡ text.old.items ++ json_members style (rows_of others.now) rows.now row.now) }
{
    let members = [
        ("\",\"packets\":", Some(row.packets)),
        (",\"messages\":", Some(row.messages)),
        (",\"first\":", low_of(row.numbers)),
        (",\"last\":", high_of(row.numbers)),
        (",\"bytes\":", Some(row.bytes)),
        (
            ",\"other_datagrams\":",
            Some(others.packets_of(&other_key(&row.key))),
        ),
        (",\"first_time_ns\":", low_of(row.times)),
        (",\"last_time_ns\":", high_of(row.times)),
    ];
    put_labelled(text, NUMBERS, &members)?;
    put_dates(alloc, text, style, row)?;
    put_look_member(text, rows, row)?;
    text.extend_from_slice(b"}\n")
}

/// Appends the row of a line as an object.
fn put_row(
    alloc: Global,
    text: &mut Vec<u8>,
    style: TimeStyle,
    others: &EndpointTable,
    rows: &[LineRow],
    row: &LineRow,
) -> Result<(), AllocError>
    ensures { OnOk result (text.new.items
        ≡ text.old.items ++ json_line style (rows_of others.now) rows.now row.now) }
{
    put_head(alloc, text, &row.key)?;
    put_members(alloc, text, style, others, rows, row)
}

/// Appends the rows of lines.
fn put_rows(
    alloc: Global,
    text: &mut Vec<u8>,
    style: TimeStyle,
    others: &EndpointTable,
    rows: &[LineRow],
) -> Result<(), AllocError>
    ensures { OnOk result (text.new.items
        ≡ text.old.items ++ flat_map (json_line style (rows_of others.now) rows.now) rows.now) }
{
    for row in rows {
        put_row(alloc, text, style, others, rows, row)?;
    }
    Ok(())
}

/// Appends what is in no row as an object.
fn put_rest(text: &mut Vec<u8>, rest: &Unlisted) -> Result<(), AllocError>
    ensures { OnOk result (text.new.items ≡ text.old.items ++ json_rest rest.now) }
{
    let members = [
        ("{\"other_datagrams\":", Some(rest.others)),
        (",\"other_addresses\":", Some(rest.addresses)),
        (",\"frames_without_datagram\":", Some(rest.blanks)),
        (",\"unlisted_packets\":", Some(rest.unlisted)),
        (",\"unlisted_others\":", Some(rest.unlisted_others)),
    ];
    put_labelled(text, NUMBERS, &members)?;
    text.extend_from_slice(b"}\n")
}

/// Appends the objects.
fn put_json(
    alloc: Global,
    text: &mut Vec<u8>,
    style: TimeStyle,
    others: &EndpointTable,
    rows: &[LineRow],
    rest: &Unlisted,
) -> Result<(), AllocError>
    ensures { OnOk result (text.new.items
        ≡ text.old.items ++ json_of style (rows_of others.now) rows.now rest.now) }
{
    put_rows(alloc, text, style, others, rows)?;
    put_rest(text, rest)
}

/// Returns what was counted as JSON.
pub(crate) fn json_text(
    alloc: Global,
    counts: &SurveyCounts,
    style: TimeStyle,
) -> Result<Vec<u8>, AllocError>
    ensures { IfOk result (λ text.
        text.items ≡ text_of_survey StatsFormat.Json style counts.now) }
{
    let mut text = Vec::new(alloc);
    let rest = rest_of(counts);
    let rows = counts.lines.rows();
    put_json(alloc, &mut text, style, &counts.others, rows, &rest)?;
    Ok(text)
}
