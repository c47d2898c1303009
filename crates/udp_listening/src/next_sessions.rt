//! The sessions that follow the venues' first ones in a run.
ghost use Rattle.std.specs.Prelude.{◌≡◌, ◌∷◌, ◌++◌, [], IfOk, Some};
ghost use Rattle.std.specs.List.{last_or};
ghost use Rattle.run_settings.specs.NextSessions.{names_after};
ghost use Rattle.udp_listening.specs.NamedNext.{AreNamedNext};
ghost use Rattle.udp_listening.specs.Settings.{end_followed};

use feed_types::{Anything, SessionName, VenueId};
use live_feed::LiveFeed;
use run_settings::{EndRule, NextSession};
use std::alloc::{AllocError, Global};

/// Returns the names of the sessions that follow the venue's first one, in order.
pub(crate) fn names_after(
    alloc: Global,
    venue: VenueId,
    next: &[NextSession],
) -> Result<Vec<SessionName>, AllocError>
    ensures { IfOk result (λ names. names.items ≡ names_after venue next.now) }
{
    let mut names = Vec::new(alloc);
    for session in next {
        if session.venue == venue {
            names.push(session.name)?;
        }
    }
    Ok(names)
}

/// Names the sessions that follow the first ones of the feed's first `venues` venues. A venue that
/// none of these follow keeps the names that it had.
pub(crate) fn name_all(
    alloc: Global,
    feed: &mut LiveFeed<Anything>,
    venues: usize,
    next: &[NextSession],
) -> Result<(), AllocError>
    ensures lanes { feed.new ≡ record feed.old { next = feed.new.next } }
    ensures named { IfOk result (λ _. AreNamedNext venues next.now feed.old.next feed.new.next) }
{
    for place in 0..venues {
        if let Some(venue) = VenueId::from_index(place) {
            let names = names_after(alloc, venue, next)?;
            if !names.is_empty() {
                feed.name_next(venue, names);
            }
        }
    }
    Ok(())
}

/// The sessions of a venue, as its lines have them.
#[derive(Drop)]
pub(crate) struct VenueSessions {
    /// Those before the last one, in order.
    pub(crate) earlier: Vec<SessionName>,
    pub(crate) last: SessionName,
}

/// Returns the sessions of a venue, of which `first` is the first, and these follow.
pub(crate) fn sessions_of(
    alloc: Global,
    first: SessionName,
    following: &[SessionName],
) -> Result<VenueSessions, AllocError>
    ensures all { IfOk result (λ sessions. sessions.earlier.items ++ sessions.last ∷ []
        ≡ first ∷ following.now) }
    ensures last { IfOk result (λ sessions. last_or (Some first) following.now
        ≡ Some sessions.last) }
{
    let mut sessions = VenueSessions {
        earlier: Vec::new(alloc),
        last: first,
    };
    for name in following {
        sessions.earlier.push(sessions.last)?;
        sessions.last = *name;
    }
    Ok(sessions)
}

/// Returns which ends end the lines of a venue, whose first session these follow, in a run that
/// ends with these.
pub(crate) fn end_by(following: &[SessionName], end: EndRule) -> EndRule
    ensures { result ≡ end_followed following.now end }
{
    match end {
        EndRule::AnySession if !following.is_empty() => EndRule::OwnSession,
        end => end,
    }
}
