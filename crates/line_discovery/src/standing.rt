//! Whether a session is a venue of the words, or why they leave it out.
ghost use Rattle.std.specs.Prelude.{◌≡◌, ◌++◌, IfOk, OnOk, flat_map, take};
ghost use Rattle.line_discovery.specs.Standings.{is_at_place, is_first_at, is_of_session, left_by, left_of, left_row, pair_standing, session_lines, standing_by, standing_of, standing_with};

use crate::line_key::{is_same, is_same_session};
use crate::line_row::LineRow;
use crate::session_word::can_be_listed;
use crate::text::{other_key, session_name};
use feed_types::SessionName;
use std::alloc::{AllocError, Global};
use text_out::TextPart::{Bytes, Text};
use text_out::put_parts;

/// Whether the session of a row is a venue of the words, or why they leave it out.
#[derive(Clone, Copy, Debug, PartialEq, Eq)]
pub(crate) enum Standing {
    /// Another row of the session came first, which has its standing.
    Follows,
    /// A venue, with this second line.
    Venue(LineRow),
    /// The session came at one address and port.
    OneLine,
    /// The session came at more than two.
    ManyLines,
    /// At one of the two another session came first.
    SecondSession,
    /// A list can't have its name.
    BadName,
}

/// Returns whether two rows are of the same address and port.
fn is_at_place(row: &LineRow, one: &LineRow) -> bool
    ensures { result ≡ is_at_place row.now one.now }
{
    is_same(&other_key(&one.key), &other_key(&row.key))
}

/// Returns whether no row before this one has its address and port.
fn is_first_at(rows: &[LineRow], row: &LineRow) -> bool
    ensures { result ≡ is_first_at rows.now row.now }
{
    for one in rows {
        if is_at_place(row, one) {
            return is_same(&one.key, &row.key);
        }
    }
    false
}

/// Returns whether two rows are of the same session.
pub(crate) fn is_of_session(row: &LineRow, one: &LineRow) -> bool
    ensures { result ≡ is_of_session row.now one.now }
{
    is_same_session(&one.key.session, &row.key.session)
}

/// Returns the first rows of a row's session, in order, at most three. Fails where memory is
/// refused.
fn session_lines(alloc: Global, rows: &[LineRow], row: &LineRow) -> Result<Vec<LineRow>, AllocError>
    ensures { IfOk result (λ lines. lines.items ≡ take 3 (session_lines rows.now row.now)) }
{
    rows.iter()
        .copied()
        .filter(|one| is_of_session(row, one))
        .take(3)
        .collect(alloc)
}

/// Returns the standing of a session that came at just these two.
fn pair_standing(rows: &[LineRow], row: &LineRow, other: &LineRow) -> Standing
    ensures { result ≡ pair_standing rows.now row.now other.now }
{
    if !is_first_at(rows, row) || !is_first_at(rows, other) {
        return Standing::SecondSession;
    }
    if !can_be_listed(session_name(&row.key.session)) {
        return Standing::BadName;
    }
    Standing::Venue(*other)
}

/// Returns the standing of a session by its first row and the others.
fn standing_with(rows: &[LineRow], row: &LineRow, others: &[LineRow]) -> Standing
    ensures { result ≡ standing_with rows.now row.now others.now }
{
    match others {
        [] => Standing::OneLine,
        [other] => pair_standing(rows, row, other),
        _ => Standing::ManyLines,
    }
}

/// Returns the standing of a row by all rows of its session.
fn standing_by(rows: &[LineRow], row: &LineRow, lines: &[LineRow]) -> Standing
    ensures { result ≡ standing_by rows.now row.now lines.now }
{
    match lines {
        [first, others @ ..] => {
            if is_same(&first.key, &row.key) {
                return standing_with(rows, row, others);
            }
            Standing::Follows
        }
        _ => Standing::Follows,
    }
}

/// Returns the standing of a row. Fails where memory is refused.
pub(crate) fn standing_of(
    alloc: Global,
    rows: &[LineRow],
    row: &LineRow,
) -> Result<Standing, AllocError>
    ensures { IfOk result (λ standing. standing ≡ standing_of rows.now row.now) }
{
    let lines = session_lines(alloc, rows, row)?;
    Ok(standing_by(rows, row, lines.as_slice()))
}

/// Appends that the words leave out a session, and why.
pub(crate) fn put_left_row<'a>(
    text: &mut Vec<u8>,
    session: &'a Option<SessionName>,
    reason: &'a str,
) -> Result<(), AllocError>
    ensures { OnOk result (text.new.items
        ≡ text.old.items ++ left_row session.now reason.now) }
{
    let name = Bytes(session_name(session));
    let label = Text("left out of the words: ");
    put_parts(text, &[label, name, Text("  "), Text(reason), Text("\n")])
}

/// Appends that the words leave out the session of a row, if they do, and why.
fn put_left(text: &mut Vec<u8>, row: &LineRow, standing: &Standing) -> Result<(), AllocError>
    ensures { OnOk result (text.new.items ≡ text.old.items ++ left_by row.now standing.now) }
{
    let session = &row.key.session;
    match standing {
        Standing::Follows | Standing::Venue(_) => Ok(()),
        Standing::OneLine => put_left_row(text, session, "came at one address and port"),
        Standing::ManyLines => {
            put_left_row(text, session, "came at more than two addresses and ports")
        }
        Standing::SecondSession => put_left_row(
            text,
            session,
            "came after another session at an address and port",
        ),
        Standing::BadName => put_left_row(
            text,
            session,
            "is all spaces, or has a comma or a quotation mark",
        ),
    }
}

/// Appends the sessions that no venue has, each with its reason.
pub(crate) fn put_left_out(
    alloc: Global,
    text: &mut Vec<u8>,
    rows: &[LineRow],
) -> Result<(), AllocError>
    ensures { OnOk result (text.new.items
        ≡ text.old.items ++ flat_map (left_of rows.now) rows.now) }
{
    for row in rows {
        put_left(text, row, &standing_of(alloc, rows, row)?)?;
    }
    Ok(())
}
