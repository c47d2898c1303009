//! The gaps of a run's venues as the thread beside the run sees them.
ghost use Rattle.std.specs.List.{range_with_len};
ghost use Rattle.std.specs.Prelude.{◌≡◌, ◌≤◌, ◌/◌, IfOk, map};
ghost use Rattle.text_out.specs.Members.{writing_of};
ghost use Rattle.text_out.specs.StandardError.{SaysEach};
ghost use Rattle.run_watches.specs.GivenUps.{NotesGivenUp, giving_up_at, noted_texts};
ghost use Rattle.run_watches.specs.RunLines.{told_gaps, watched_gaps, watched_venue};
ghost use Rattle.run_watches.specs.RunNews.{IsNewsOfGaps, SaysNews};

use crate::gap_rule::GapRule;
use crate::gap_watch::GapWatch;
use feed_types::{MissingRange, VenueId};
use run_settings::{ListenSettings, VenueNames};
use std::alloc::{AllocError, Global};
use text_out::TextOut;
use venue_lines::VenueStatus;

/// How many milliseconds are between two looks at least: so long two lines may bring the same
/// packets apart.
const LOOK_MS: u64 = 20;

/// The venues of a run whose gaps are told and may be given up.
#[derive(Drop)]
pub struct GapWatches {
    rule: GapRule,
    gaps: Vec<GapWatch>,
    /// How many milliseconds after the beginning they are looked at next.
    due_ms: u64,
}

impl GapWatches {
    /// The venues of the settings; none where the settings have no further option.
    pub fn of(alloc: Global, settings: &ListenSettings) -> Result<GapWatches, AllocError>
        ensures { IfOk result (λ watches. watched_gaps watches ≡ told_gaps settings.now) }
    {
        let venues = if settings.has_further_options() {
            settings.feed.sessions.len()
        } else {
            0
        };
        Ok(GapWatches {
            rule: GapRule::of(settings),
            gaps: first_venues(alloc, venues)?,
            due_ms: 0,
        })
    }

    /// How many messages of the venue at a place were given up; 0 where there is none.
    pub(crate) fn given_up(&self, place: usize) -> u64 {
        match self.gaps.get(place) {
            Some(gap) => gap.given_up(),
            None => 0,
        }
    }

    /// Notes that a venue has given up these messages by itself, where gaps are given up and its
    /// gaps are watched, and says it.
    pub(crate) fn note_given_up<E: TextOut>(
        &mut self,
        names: &VenueNames,
        elapsed_ms: u64,
        venue: VenueId,
        missing: MissingRange,
        errors: &mut E,
    )
        ensures gaps { watched_gaps self.new ≡ watched_gaps self.old }
        ensures notes { NotesGivenUp self.old venue missing self.new }
        ensures says { SaysEach (writing_of E.TextOut)
            (noted_texts names.now (elapsed_ms / 1000) (giving_up_at self.old venue) missing)
            errors.old errors.new }
    {
        if !self.rule.gives_up() {
            return;
        }
        match self.gaps.get_mut(venue.index()) {
            Some(gap) => gap.note_given_up(names, elapsed_ms / 1_000, missing, errors),
            None => {}
        }
    }

    /// Looks at the venues, `elapsed_ms` milliseconds after the beginning, unless it has done so
    /// just before: says what is new of their gaps, and gives up what is due. `status` returns what
    /// a venue has come to, or None where there is none; `skip` goes on from a message of a venue,
    /// and returns whether it did. Where it didn't, a later look tries again.
    pub fn look<S, K, E>(
        &mut self,
        names: &VenueNames,
        elapsed_ms: u64,
        status: S,
        skip: K,
        errors: &mut E,
    )
    where
        S: Fn(VenueId) -> Option<VenueStatus>,
        K: Fn(VenueId, u64) -> bool,
        E: TextOut,
        requires status { S.IsAlwaysCallable status }
        requires skip { K.IsAlwaysCallable skip }
        ensures gaps { watched_gaps self.new ≡ watched_gaps self.old }
        ensures says { SaysNews (writing_of E.TextOut) names.now
            (IsNewsOfGaps (watched_gaps self.old)) errors.old errors.new }
    {
        if elapsed_ms < self.due_ms {
            return;
        }
        self.due_ms = elapsed_ms.saturating_add(LOOK_MS);
        let rule = self.rule;
        let gaps = &mut self.gaps;
        for place in 0..gaps.len() {
            match gaps.get_mut(place) {
                Some(gap) => gap.look(names, &rule, elapsed_ms, &status, &skip, errors),
                None => {}
            }
        }
    }
}

/// The first `count` venues, of 16 at most, none of which was looked at yet.
fn first_venues(alloc: Global, count: usize) -> Result<Vec<GapWatch>, AllocError>
    requires { count ≤ 16 }
    ensures { IfOk result (λ gaps. map watched_venue gaps.items ≡ range_with_len 0 count) }
{
    let mut gaps = Vec::new(alloc);
    for place in 0..count {
        gaps.push(GapWatch::new(VenueId::at(place)))?;
    }
    Ok(gaps)
}
