//! Which of the sessions that were named to follow a venue's first one never began.
ghost use Rattle.std.specs.Prelude.{◌≡◌, ◌-◌, drop, replicate, slice_index_or};
ghost use Rattle.std.specs.List.{list_any};
ghost use Rattle.std.specs.Str.{bytes_eq};
ghost use Rattle.run_settings.specs.NextSessions.{names_after};
ghost use Rattle.event_sinks.specs.SinkEvents.{told_by};
ghost use Rattle.nbbo_runs.specs.NamedSessions.{first_ordinals, never_begins, ordinals_with};

use crate::session_row::VenueSession;
use event_sinks::ReplayedEvent;
use run_settings::NextSession;

/// The most venues of a capture.
const VENUES: usize = 16;

/// The ordinals of the venues' present sessions; a venue's first session has 1.
pub(crate) type Ordinals = [u64; VENUES];

/// Returns the ordinals where no session has followed another.
pub(crate) fn first_ordinals() -> Ordinals
    ensures { result ≡ first_ordinals }
{
    [1; VENUES]
}

/// Notes the ordinal of the session that began by an event, if one did.
#[inline(always)]
pub(crate) fn note_renewal(ordinals: &mut Ordinals, event: &ReplayedEvent<'_>)
    ensures { ordinals.new ≡ ordinals_with ordinals.old (told_by event.now) }
{
    match event {
        ReplayedEvent::Renewal {
            venue,
            answer: Ok(ordinal),
        } => {
            let place = venue.index();
            if place < ordinals.len() {
                ordinals[place] = *ordinal;
            }
        }
        _ => {}
    }
}

/// Returns whether this session is one of those that follow the venue's first one, past the first
/// of them, `begun` in number.
fn is_left(next: &[NextSession], session: &VenueSession, begun: u64) -> bool
    ensures { result ≡ list_any (bytes_eq session.now.name)
        (drop begun (names_after session.now.venue next.now)) }
{
    let mut left = begun;
    for one in next {
        if one.venue.index() == session.venue.index() {
            if left > 0 {
                left -= 1;
            } else if session.name == one.name {
                return true;
            }
        }
    }
    false
}

/// Returns the ordinal of a venue's present session.
fn ordinal_at(ordinals: &[u64], place: usize) -> u64
    ensures { result ≡ slice_index_or ordinals.now place 1 }
{
    if place < ordinals.len() {
        return ordinals[place];
    }
    1
}

/// The sessions that were named to follow the venues' first ones, and the ordinals of the venues'
/// last sessions.
#[derive(Clone, Copy)]
pub(crate) struct NamedSessions<'a> {
    pub(crate) next: &'a [NextSession],
    pub(crate) ordinals: &'a [u64],
}

impl NamedSessions<'_> {
    /// Returns whether the session is named, and never began.
    pub(crate) fn never_begins(&self, session: &VenueSession) -> bool
        ensures { result ≡ never_begins self.now.next.now self.now.ordinals.now session.now }
    {
        let ordinal = ordinal_at(self.ordinals, session.venue.index());
        is_left(self.next, session, ordinal.saturating_sub(1))
    }
}
