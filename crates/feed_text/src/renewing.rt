//! Renewals into the sessions that were named to follow a venue's first one.
ghost use Rattle.std.specs.Prelude.{◌≡◌, ℕ, Bool, List, MatchBool, MatchOption, slice_get};
ghost use Rattle.line_arbiter.specs.Histories.{History};
ghost use Rattle.feed_text.specs.Following.{Follows};
ghost use Rattle.feed_text.specs.ReplayStates.{state_of_replay};
ghost use Rattle.feed_text.specs.Renewing.{IsNextName, IsPresentOver, RenewsOrStays};
ghost use Rattle.run_settings.specs.NextSessions.{names_after};

use crate::joining::is_of_session;
use crate::replay_sink::{PublishStop, ReplaySink};
use crate::venue::VenueReplay;
use event_sinks::{EventSink, ReplayedEvent};
use feed_types::{SessionName, VenueId};
use mold_packet::read_packet;
use run_settings::NextSession;

/// Returns the name of the session of the venue at this place, of those that follow its first one.
fn name_after(next: &[NextSession], venue: VenueId, place: u64) -> Option<SessionName>
    ensures { result ≡ slice_get (names_after venue next.now) place }
{
    let mut left = place;
    for session in next {
        if session.venue == venue {
            if left == 0 {
                return Some(session.name);
            }
            left -= 1;
        }
    }
    None
}

impl VenueReplay {
    /// Whether the present session is over, and all of it was sent.
    fn is_over(&self) -> bool
        ensures { (width place : ℕ) (h : History) → Follows width place self.now h
            → MatchBool result (IsPresentOver h) (IsPresentOver h → ⊥) }
    {
        let cursors = self.arbiter.status();
        match cursors.end {
            Some(end) => end == cursors.sent,
            None => false,
        }
    }

    /// Returns the name of the session that follows the present one, where that is over, if one was
    /// named.
    fn next_name(&self, next: &[NextSession], venue: VenueId) -> Option<SessionName>
        ensures { (width place : ℕ) (h : History) → Follows width place self.now h
            → MatchOption result ((name : List ℕ) → IsNextName next.now venue h name → ⊥)
            (λ name. IsNextName next.now venue h name) }
    {
        if !self.is_over() {
            return None;
        }
        name_after(next, venue, self.arbiter.ordinal() - 1)
    }

    /// Begins the session that follows the present one before a datagram of these bytes, where that
    /// is a packet of it and it may begin, and publishes the answer. Returns whether it has begun.
    #[inline(never)]
    pub fn renew_before<K: EventSink>(
        &mut self,
        next: &[NextSession],
        venue: VenueId,
        bytes: &[u8],
        output: &mut ReplaySink<K>,
    ) -> Result<bool, PublishStop>
        ensures { (width : ℕ) (gaps : Bool) (h : History) → Follows width venue self.old h
            → RenewsOrStays (record { takes = K.takes; fails = K.fails })
            width gaps next.now venue bytes.now h
            (state_of_replay output.old) (state_of_replay output.new) self.new result }
    {
        mold_packet::one_reading();
        let Some(name) = self.next_name(next, venue) else {
            return Ok(false);
        };
        let Ok(packet) = read_packet(bytes) else {
            return Ok(false);
        };
        if !is_of_session(&packet, name) {
            return Ok(false);
        }
        match self.next_session(name) {
            Ok(ordinal) => {
                output.tell(&ReplayedEvent::Renewal {
                    venue,
                    answer: &Ok(ordinal),
                })?;
                Ok(true)
            }
            Err(_) => Ok(false),
        }
    }
}
