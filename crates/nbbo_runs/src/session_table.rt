//! The table of the sessions that came and aren't their venue's first.
ghost use Rattle.std.specs.Prelude.{◌≡◌, [], ◌∷◌, ◌++◌, map};
ghost use Rattle.line_discovery.specs.KeyedRows.{grown_by, has_row, rows_grown};
ghost use Rattle.nbbo_runs.specs.Sessions.{by_session, session_rows, with_sighting};

use crate::session_row::{SessionRow, SessionSighting, VenueSession, is_same};
use arrayvec::ArrayVec;
use feed_types::Past;
use std::marker::Model;

/// The most rows.
const MOST: usize = 64;

/// A row for each session that was seen, in the order in which they first were, at most 64.
/// Contracts see what was seen.
#[derive(Drop)]
pub struct SessionTable {
    rows: ArrayVec<SessionRow, MOST>,
    past: Past<SessionSighting>,
}

impl Model for SessionTable {
    ghost use Rattle.std.specs.Prelude.{List};
    ghost use Rattle.line_discovery.specs.KeyedRows.{IsKeyedTable};
    ghost use Rattle.nbbo_runs.specs.declared.session_row.SessionSighting.{SessionSighting};
    ghost use Rattle.nbbo_runs.specs.Sessions.{by_session};

    ghost Value = { List SessionSighting };

    ghost view = { λ t. t.past.items };

    ghost invariant = { λ t. IsKeyedTable by_session t.rows.items t.past.items };
}

/// Whether there is a row of this session.
fn has_session(rows: &[SessionRow], session: &VenueSession) -> bool
    ensures { result ≡ has_row by_session rows.now session.now }
{
    rows.iter().any(|row| is_same(&row.session, session))
}

/// Counts what was seen in the row of its session, if there is one.
fn count_row(rows: &mut [SessionRow], sighting: &SessionSighting)
    ensures { rows.new ≡ map (grown_by by_session with_sighting sighting.now) rows.old }
{
    for place in 0..rows.len() {
        rows[place].count(sighting);
    }
}

/// Counts what was seen in the row of its session, in a new one where there is none, unless there
/// are 64.
fn count_in(rows: &mut ArrayVec<SessionRow, MOST>, sighting: &SessionSighting)
    ensures { rows.new.items
        ≡ rows_grown by_session with_sighting rows.old.items sighting.now }
{
    let found = has_session(rows.as_slice(), &sighting.session);
    count_row(rows.as_mut_slice(), sighting);
    if !found && rows.len() < MOST {
        let mut row = SessionRow::empty(sighting.session);
        row.grow(sighting);
        rows.push(row);
    }
}

impl SessionTable {
    /// Returns the table of nothing.
    pub(crate) fn new() -> SessionTable
        ensures { result ≡ [] }
    {
        SessionTable {
            rows: ArrayVec::new(),
            past: Past::new(),
        }
    }

    /// Counts one thing more.
    #[inline(never)]
    pub(crate) fn count(&mut self, sighting: &SessionSighting)
        ensures { self.new ≡ self.old ++ sighting.now ∷ [] }
    {
        count_in(&mut self.rows, sighting);
        self.past = self.past.with(sighting);
    }

    /// Returns the rows.
    pub(crate) fn rows(&self) -> &[SessionRow]
        ensures { result.now ≡ session_rows self.now }
    {
        self.rows.as_slice()
    }
}
