//! Gaps that have stood long enough to be given up.
ghost use Rattle.std.specs.Prelude.{◌≡◌, ◌<◌, ℕ, Some, MatchBool, MatchOption};
ghost use Rattle.line_arbiter.specs.Fits.{cursors_of};
ghost use Rattle.line_arbiter.specs.Histories.{History};
ghost use Rattle.line_arbiter.specs.LastSent.{last_sent};
ghost use Rattle.feed_text.specs.Following.{FollowAll, Follows};
ghost use Rattle.feed_text.specs.Rules.{HasStood, IsLowestOverdue, IsOverdue, IsOverdueAt, ReplayPoint, next_come};
ghost use Rattle.capture_records.specs.Capture.{skip_record};
ghost use Rattle.feed_text.specs.Standings.{IsStandingKept};

use crate::standing_gap::StandingGap;
use crate::standing_gaps::StandingGaps;
use crate::venue::VenueReplay;
use crate::venues::ReplayVenues;
use feed_types::VenueId;
use line_arbiter::ArbiterStatus;
use mold_packet::Request;

/// What is given up: what the venue lacks below the number.
#[derive(Clone, Copy, Debug, PartialEq, Eq)]
pub struct GapSkip {
    pub venue: VenueId,
    pub number: u64,
}

/// How long a gap stands before it is given up, and the time that it is now, in nanoseconds.
#[derive(Clone, Copy, Debug, PartialEq, Eq)]
pub struct GapClock {
    pub span: u64,
    pub time: u64,
}

/// Whether a gap that begins with this number has stood for the clock's span.
fn has_stood(clock: &GapClock, number: u64, standing: &StandingGap) -> bool
    ensures { MatchBool result (HasStood clock.now.span clock.now.time number (Some standing.now))
        (HasStood clock.now.span clock.now.time number (Some standing.now) → ⊥) }
{
    if standing.number != number || clock.time < standing.since {
        return false;
    }
    clock.span <= clock.time - standing.since
}

/// Returns the first number past the gap that has come, or where none has that isn't known to
/// exist. No number is past 2^64 - 1.
fn next_come(cursors: &ArbiterStatus, gap: &Request) -> u64
    ensures { (h : History) → cursors.now ≡ cursors_of (last_sent h) h.present.packets
        → result ≡ next_come h gap.now }
{
    if cursors.held == 0 {
        cursors.known.saturating_add(1)
    } else {
        gap.number.saturating_add(u64::from(gap.count))
    }
}

impl VenueReplay {
    /// Returns the number below which what the venue lacks is given up, where its gap is the one
    /// that stands, and has stood for the clock's span.
    fn overdue(&self, clock: &GapClock, standing: &StandingGap) -> Option<u64>
        ensures { (window place : ℕ) (h : History) → Follows window place self.now h
            → MatchOption result
            ((number : ℕ) → IsOverdue window clock.now.span clock.now.time h (Some standing.now)
            number → ⊥)
            (λ number. IsOverdue window clock.now.span clock.now.time h (Some standing.now)
            number) }
    {
        let Some(gap) = self.arbiter.gap() else {
            return None;
        };
        if !has_stood(clock, gap.number, standing) {
            return None;
        }
        let next = next_come(&self.arbiter.status(), &gap);
        if next > gap.number { Some(next) } else { None }
    }
}

impl ReplayVenues {
    /// The same of the venue at this place, if there is one and a gap of it is kept.
    fn overdue_at(&self, clock: &GapClock, kept: &StandingGaps, place: usize) -> Option<u64>
        requires { place < 16 }
        ensures { (window : ℕ) (at : ReplayPoint) → FollowAll window self.now.items at.histories
            → IsStandingKept kept.now at.standing → MatchOption result
            ((number : ℕ) → IsOverdueAt window clock.now.span clock.now.time at place number → ⊥)
            (λ number. IsOverdueAt window clock.now.span clock.now.time at place number) }
    {
        let Some(standing) = kept.gaps[place] else {
            return None;
        };
        if place >= self.venues.len() {
            return None;
        }
        let venue = &self.venues[place];
        venue.overdue(clock, &standing)
    }

    /// Returns the skip of the lowest venue's gap that has stood for the clock's span, if there is
    /// one.
    pub fn overdue(&self, clock: &GapClock, kept: &StandingGaps) -> Option<GapSkip>
        ensures { (window : ℕ) (at : ReplayPoint) → FollowAll window self.now.items at.histories
            → IsStandingKept kept.now at.standing → MatchOption result
            ((place number : ℕ) → IsOverdueAt window clock.now.span clock.now.time at place number
            → ⊥)
            (λ skip. IsLowestOverdue window clock.now.span clock.now.time at
            (skip_record skip.venue skip.number)) }
    {
        let mut place = 0;
        while place < 16 {
            if let Some(number) = self.overdue_at(clock, kept, place) {
                return Some(GapSkip {
                    venue: VenueId::at(place),
                    number,
                });
            }
            place += 1;
        }
        None
    }
}
