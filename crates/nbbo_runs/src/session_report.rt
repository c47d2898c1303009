//! What is said of sessions that nothing names, and of named ones that never began, on standard
//! error.
ghost use Rattle.text_out.specs.Members.{writing_of};
ghost use Rattle.std.specs.Prelude.{◌≡◌, false, flat_map};
ghost use Rattle.text_out.specs.StandardError.{SaysEach};
ghost use Rattle.nbbo_runs.specs.NamedSessions.{never_begins};
ghost use Rattle.nbbo_runs.specs.Sessions.{datagrams_text, full_texts, named_texts, refused_texts, row_texts, session_texts, sessions_texts};

use crate::named_sessions::NamedSessions;
use crate::session_row::SessionRow;
use feed_types::VenueId;
use run_notes::write_session_name;
use text_out::{TextOut, write_number, write_stderr};

/// The most rows of sessions.
const MOST: usize = 64;

/// The ends of lines, which say why datagrams are refused.
const UNNAMED: &str = ", which isn't named\n";

const NEVER_BEGUN: &str = ", which never began: the one before it wasn't over\n";

/// What stands between a count of datagrams and the session's name.
fn datagrams(count: u64) -> &'static str
    ensures { result.now ≡ datagrams_text count }
{
    if count == 1 {
        " datagram of session "
    } else {
        " datagrams of session "
    }
}

/// Writes which venue refused how many datagrams.
fn write_refused<E: TextOut>(venue: VenueId, count: u64, errors: &mut E)
    ensures { SaysEach (writing_of E.TextOut) (refused_texts venue count) errors.old errors.new }
{
    write_stderr("nbbo: venue ", errors);
    write_number(venue.index() as u64, errors);
    write_stderr(" refused ", errors);
    write_number(count, errors);
    write_stderr(datagrams(count), errors);
}

/// Writes what was refused of a session, and why.
fn write_row<E: TextOut>(row: &SessionRow, why: &str, errors: &mut E)
    ensures { SaysEach (writing_of E.TextOut) (row_texts why.now row.now) errors.old errors.new }
{
    write_refused(row.session.venue, row.datagrams, errors);
    write_session_name(&row.session.name, errors);
    write_stderr(why, errors);
}

/// Writes what was refused of a session that is named, if it came and never began.
fn write_named<E: TextOut>(row: &SessionRow, never_begins: bool, errors: &mut E)
    ensures { SaysEach (writing_of E.TextOut)
        (named_texts never_begins row.now) errors.old errors.new }
{
    if row.datagrams > 0 && never_begins {
        write_row(row, NEVER_BEGUN, errors);
    }
}

/// Writes what was refused of a session, if nothing names it or it never began.
fn write_session<E: TextOut>(named: &NamedSessions<'_>, row: &SessionRow, errors: &mut E)
    ensures { SaysEach (writing_of E.TextOut)
        (session_texts named.now.next.now named.now.ordinals.now row.now) errors.old errors.new }
{
    if row.is_named {
        write_named(row, named.never_begins(&row.session), errors);
    } else {
        write_row(row, UNNAMED, errors);
    }
}

/// Writes what was refused of these sessions.
fn write_rows<E: TextOut>(named: &NamedSessions<'_>, rows: &[SessionRow], errors: &mut E)
    ensures { SaysEach (writing_of E.TextOut)
        (flat_map (session_texts named.now.next.now named.now.ordinals.now) rows.now)
        errors.old errors.new }
{
    for row in rows {
        write_session(named, row, errors);
    }
}

/// Writes that there are as many rows as can be, where there are.
fn write_full<E: TextOut>(rows: usize, errors: &mut E)
    ensures { SaysEach (writing_of E.TextOut) (full_texts rows) errors.old errors.new }
{
    if rows < MOST {
        return;
    }
    write_stderr("nbbo: sessions after the first 64 aren't counted\n", errors);
}

/// Writes what is to be said of these sessions.
pub(crate) fn write_sessions<E: TextOut>(
    named: &NamedSessions<'_>,
    rows: &[SessionRow],
    errors: &mut E,
)
    ensures { SaysEach (writing_of E.TextOut)
        (sessions_texts named.now.next.now named.now.ordinals.now rows.now) errors.old errors.new }
{
    write_rows(named, rows, errors);
    write_full(rows.len(), errors);
}
