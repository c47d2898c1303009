//! What was counted of a capture, as a table.
ghost use Rattle.std.specs.Prelude.{◌≡◌, ◌++◌, IfOk, OnOk, flat_map};
ghost use Rattle.line_discovery.specs.SurveyTexts.{high_of, low_of, other_key, session_name, table_head, table_of, table_rest, table_row, text_of_survey};
ghost use Rattle.line_discovery.specs.Tables.{rows_of};

use crate::address_text::put_place;
use crate::counts::SurveyCounts;
use crate::json::json_text;
use crate::line_key::LineKey;
use crate::line_row::LineRow;
use crate::look::put_looks;
use crate::span::Span;
use crate::table::EndpointTable;
use crate::times::put_time_cell;
use crate::unlisted::{Unlisted, rest_of};
use crate::words::put_words;
use feed_types::SessionName;
use run_settings::{StatsFormat, TimeStyle};
use std::alloc::{AllocError, Global};
use text_out::{NumberStyle, put_labelled};

/// The heads of the first columns ..
const HEAD: &[u8] =
    b"address and port         session          packets      messages         first     ";

/// .. of the others ..
const REST_OF_HEAD: &[u8] = b"     last         bytes         other";

/// .. and of the times.
const NUMBERS_HEAD: &[u8] = b"           first time            last time\n";

const DATES_HEAD: &[u8] = b"                     first time                      last time\n";

/// How counts are put.
const COUNTS: NumberStyle = NumberStyle {
    columns: 13,
    nothing: "-",
};

/// The lowest number of a span.
pub(crate) fn low_of(span: Option<Span>) -> Option<u64>
    ensures { result ≡ low_of span }
{
    match span {
        Some(span) => Some(span.low),
        None => None,
    }
}

/// The highest number of a span.
pub(crate) fn high_of(span: Option<Span>) -> Option<u64>
    ensures { result ≡ high_of span }
{
    match span {
        Some(span) => Some(span.high),
        None => None,
    }
}

/// The key of the other datagrams to the same address and port.
pub(crate) fn other_key(key: &LineKey) -> LineKey
    ensures { result ≡ other_key key.now }
{
    LineKey {
        address: key.address,
        port: key.port,
        session: None,
    }
}

/// The name of a session.
pub(crate) fn session_name(session: &Option<SessionName>) -> &[u8]
    ensures { result.now ≡ session_name session.now }
{
    match session {
        Some(name) => name,
        None => &[],
    }
}

/// Appends the row of a line.
fn put_row(
    alloc: Global,
    text: &mut Vec<u8>,
    style: TimeStyle,
    others: &EndpointTable,
    row: &LineRow,
) -> Result<(), AllocError>
    ensures { OnOk result (text.new.items
        ≡ text.old.items ++ table_row style (rows_of others.now) row.now) }
{
    let counts = [
        (" ", Some(row.packets)),
        (" ", Some(row.messages)),
        (" ", low_of(row.numbers)),
        (" ", high_of(row.numbers)),
        (" ", Some(row.bytes)),
        (" ", Some(others.packets_of(&other_key(&row.key)))),
    ];
    put_place(alloc, text, 24, &row.key)?;
    text.extend_from_slice(b" ")?;
    text.extend_from_slice(session_name(&row.key.session))?;
    put_labelled(text, COUNTS, &counts)?;
    put_time_cell(alloc, text, style, low_of(row.times))?;
    put_time_cell(alloc, text, style, high_of(row.times))?;
    text.extend_from_slice(b"\n")
}

/// Appends the rows of lines.
fn put_rows(
    alloc: Global,
    text: &mut Vec<u8>,
    style: TimeStyle,
    others: &EndpointTable,
    rows: &[LineRow],
) -> Result<(), AllocError>
    ensures { OnOk result (text.new.items
        ≡ text.old.items ++ flat_map (table_row style (rows_of others.now)) rows.now) }
{
    for row in rows {
        put_row(alloc, text, style, others, row)?;
    }
    Ok(())
}

/// Appends what is in no row.
fn put_rest(text: &mut Vec<u8>, rest: &Unlisted) -> Result<(), AllocError>
    ensures { OnOk result (text.new.items ≡ text.old.items ++ table_rest rest.now) }
{
    let cells = [
        ("\ndatagrams that are no packets      ", Some(rest.others)),
        (
            "\n  addresses and ports they went to ",
            Some(rest.addresses),
        ),
        ("\nframes without a UDP datagram      ", Some(rest.blanks)),
        ("\npackets past the first 4096 rows   ", Some(rest.unlisted)),
        (
            "\nothers past the first 4096 rows    ",
            Some(rest.unlisted_others),
        ),
    ];
    put_labelled(text, COUNTS, &cells)?;
    text.extend_from_slice(b"\n")
}

/// Appends the heads of all columns.
fn put_head(text: &mut Vec<u8>, style: TimeStyle) -> Result<(), AllocError>
    ensures { OnOk result (text.new.items ≡ text.old.items ++ table_head style) }
{
    text.extend_from_slice(HEAD)?;
    text.extend_from_slice(REST_OF_HEAD)?;
    match style {
        TimeStyle::Seconds => text.extend_from_slice(NUMBERS_HEAD),
        TimeStyle::Utc => text.extend_from_slice(DATES_HEAD),
    }
}

/// Appends the table.
fn put_table(
    alloc: Global,
    text: &mut Vec<u8>,
    style: TimeStyle,
    others: &EndpointTable,
    rows: &[LineRow],
    rest: &Unlisted,
) -> Result<(), AllocError>
    ensures { OnOk result (text.new.items
        ≡ text.old.items ++ table_of style (rows_of others.now) rows.now rest.now) }
{
    put_head(text, style)?;
    put_rows(alloc, text, style, others, rows)?;
    put_rest(text, rest)?;
    put_looks(text, rows)?;
    put_words(alloc, text, rows)
}

/// Returns the table of what was counted.
fn table_text(alloc: Global, counts: &SurveyCounts, style: TimeStyle) -> Result<Vec<u8>, AllocError>
    ensures { IfOk result (λ text.
        text.items ≡ text_of_survey StatsFormat.Table style counts.now) }
{
    let mut text = Vec::new(alloc);
    let rest = rest_of(counts);
    let rows = counts.lines.rows();
    put_table(alloc, &mut text, style, &counts.others, rows, &rest)?;
    Ok(text)
}

/// Returns what was counted as a text in the format, with times in the style. Fails where memory is
/// refused.
pub(crate) fn text_of(
    alloc: Global,
    counts: &SurveyCounts,
    format: StatsFormat,
    style: TimeStyle,
) -> Result<Vec<u8>, AllocError>
    ensures { IfOk result (λ text. text.items ≡ text_of_survey format style counts.now) }
{
    match format {
        StatsFormat::Table => table_text(alloc, counts, style),
        StatsFormat::Json => json_text(alloc, counts, style),
    }
}
