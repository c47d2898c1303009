//! Which sessions look like ITCH.
ghost use Rattle.std.specs.Prelude.{◌≡◌, ◌++◌, OnOk, flat_map};
ghost use Rattle.std.specs.List.{list_any};
ghost use Rattle.line_discovery.specs.Looks.{is_first_of, look_member, look_row, look_text, looks_like_itch, shows_itch, shows_own};

use crate::line_key::is_same;
use crate::line_row::LineRow;
use crate::standing::is_of_session;
use crate::text::session_name;
use std::alloc::AllocError;
use text_out::TextPart::{Bytes, Text};
use text_out::put_parts;

/// Returns whether a row is of the session and had a message of the standard's forms.
fn shows_itch(row: &LineRow, one: &LineRow) -> bool
    ensures { result ≡ shows_itch row.now one.now }
{
    is_of_session(row, one) && one.itch > 0
}

/// Returns whether a row is of the session and had a message of this project's forms.
fn shows_own(row: &LineRow, one: &LineRow) -> bool
    ensures { result ≡ shows_own row.now one.now }
{
    is_of_session(row, one) && one.own > 0
}

/// Returns whether the session of a row had a message of the standard's forms.
fn has_itch(rows: &[LineRow], row: &LineRow) -> bool
    ensures { result ≡ list_any (shows_itch row.now) rows.now }
{
    rows.iter().any(|one| shows_itch(row, one))
}

/// Returns whether the session of a row had a message of this project's forms.
fn has_own(rows: &[LineRow], row: &LineRow) -> bool
    ensures { result ≡ list_any (shows_own row.now) rows.now }
{
    rows.iter().any(|one| shows_own(row, one))
}

/// Returns whether the session of a row looks like ITCH: it had messages of the standard's forms,
/// and none of this project's.
fn looks_like_itch(rows: &[LineRow], row: &LineRow) -> bool
    ensures { result ≡ looks_like_itch rows.now row.now }
{
    has_itch(rows, row) && !has_own(rows, row)
}

/// Returns whether no row before this one is of its session.
fn is_first_of(rows: &[LineRow], row: &LineRow) -> bool
    ensures { result ≡ is_first_of rows.now row.now }
{
    for one in rows {
        if is_of_session(row, one) {
            return is_same(&one.key, &row.key);
        }
    }
    false
}

/// Appends that the session of a row looks like ITCH.
fn put_look(text: &mut Vec<u8>, row: &LineRow) -> Result<(), AllocError>
    ensures { OnOk result (text.new.items ≡ text.old.items ++ look_text row.now) }
{
    let name = Bytes(session_name(&row.key.session));
    let hint = Text("  nbbo normalise turns its messages into quotations\n");
    put_parts(text, &[Text("looks like ITCH: "), name, hint])
}

/// Appends it at the first row of a session that does.
fn put_look_row(text: &mut Vec<u8>, rows: &[LineRow], row: &LineRow) -> Result<(), AllocError>
    ensures { OnOk result (text.new.items ≡ text.old.items ++ look_row rows.now row.now) }
{
    if is_first_of(rows, row) && looks_like_itch(rows, row) {
        return put_look(text, row);
    }
    Ok(())
}

/// Appends which sessions look like ITCH.
pub(crate) fn put_looks(text: &mut Vec<u8>, rows: &[LineRow]) -> Result<(), AllocError>
    ensures { OnOk result (text.new.items
        ≡ text.old.items ++ flat_map (look_row rows.now) rows.now) }
{
    for row in rows {
        put_look_row(text, rows, row)?;
    }
    Ok(())
}

/// Appends the member of an object that says so of a line, if its session does.
pub(crate) fn put_look_member(
    text: &mut Vec<u8>,
    rows: &[LineRow],
    row: &LineRow,
) -> Result<(), AllocError>
    ensures { OnOk result (text.new.items ≡ text.old.items ++ look_member rows.now row.now) }
{
    if looks_like_itch(rows, row) {
        return text.extend_from_slice(b",\"looks_like\":\"itch\"");
    }
    Ok(())
}
