//! What came of a session at a venue.
ghost use Rattle.std.specs.Prelude.{◌≡◌};
ghost use Rattle.line_discovery.specs.KeyedRows.{grown_by};
ghost use Rattle.nbbo_runs.specs.Sessions.{by_session, first_row, is_same_session, with_sighting};

use feed_types::{SessionName, VenueId};

/// A session at a venue.
#[derive(Clone, Copy, Debug, Default, PartialEq, Eq)]
pub struct VenueSession {
    /// The venue.
    pub venue: VenueId,
    /// The session's name.
    pub name: SessionName,
}

/// Whether the sessions are the same.
pub(crate) fn is_same(one: &VenueSession, other: &VenueSession) -> bool
    ensures { result ≡ is_same_session one.now other.now }
{
    one.venue.index() == other.venue.index() && one.name == other.name
}

/// A session as it was seen: in a datagram, or in a renewal, which names it.
#[derive(Clone, Copy, Debug, PartialEq, Eq)]
pub struct SessionSighting {
    /// The session.
    pub session: VenueSession,
    /// Whether a renewal names it.
    pub is_renewal: bool,
}

/// What came of a session at a venue.
#[derive(Clone, Copy, Debug, Default, PartialEq, Eq)]
pub struct SessionRow {
    /// The session.
    pub session: VenueSession,
    /// How many datagrams came; at most 2^64 - 1.
    pub datagrams: u64,
    /// Whether a renewal names it.
    pub is_named: bool,
}

impl SessionRow {
    /// Returns the row of a session of which nothing came.
    pub(crate) fn empty(session: VenueSession) -> SessionRow
        ensures { result ≡ first_row session }
    {
        SessionRow {
            session,
            datagrams: 0,
            is_named: false,
        }
    }

    /// Counts what was seen of this session.
    pub(crate) fn grow(&mut self, sighting: &SessionSighting)
        ensures { self.new ≡ with_sighting sighting.now self.old }
    {
        if sighting.is_renewal {
            self.is_named = true;
        } else {
            self.datagrams = self.datagrams.saturating_add(1);
        }
    }

    /// Counts what was seen, if it is of this session.
    pub(crate) fn count(&mut self, sighting: &SessionSighting)
        ensures { self.new ≡ grown_by by_session with_sighting sighting.now self.old }
    {
        if is_same(&self.session, &sighting.session) {
            self.grow(sighting);
        }
    }
}
