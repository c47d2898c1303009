//! The records that are put in before those of a capture.
ghost use Rattle.std.specs.Prelude.{◌≡◌, ◌<◌, MatchOption, Ok, OnOk, true, length};
ghost use Rattle.capture_records.specs.Capture.{IsRecord, record_of, skip_record};
ghost use Rattle.feed_text.specs.Following.{FollowAll};
ghost use Rattle.capture_records.specs.Formats.{TimedRecord, timed_record};
ghost use Rattle.feed_text.specs.ReplayStates.{state_of_replay};
ghost use Rattle.feed_text.specs.Rules.{GivesUpOverdue, PutsIn, ReplayPoint};
ghost use Rattle.feed_text.specs.PuttingIn.{GivesUpNone, IsPlain, KeepsFor, PutsNoSkip, PutsOne, StandsFor, clock_of, left_in};
ghost use Rattle.feed_text.specs.Running.{FollowSome, KeepsVenues, TakesPutIn};
ghost use Rattle.feed_text.specs.Standings.{Knows};

use crate::overdue::{GapClock, GapSkip};
use crate::replay::ReplayConfig;
use crate::replay_sink::{PublishStop, ReplaySink};
use crate::standing_gaps::StandingGaps;
use crate::venues::ReplayVenues;
use capture_records::Record;
use event_sinks::EventSink;
use feed_types::VenueId;
use run_settings::SkipRule;

/// The nanoseconds of a millisecond.
const MILLISECOND: u64 = 1_000_000;

/// What is looked at of the record that comes next: its venue and its time, and the bytes of a
/// datagram. Of another record there are none, which are no packet.
#[derive(Clone, Copy, Debug)]
pub struct Coming<'a> {
    pub venue: VenueId,
    pub time: Option<u64>,
    pub bytes: &'a [u8],
}

/// Returns what is looked at of a record.
#[inline(always)]
fn coming_of<'a>(next: &Record<'a>, time: Option<u64>) -> Coming<'a>
    ensures { StandsFor result (timed_record (record_of next.now) time) }
{
    match *next {
        Record::Datagram { venue, bytes, .. } => Coming { venue, time, bytes },
        Record::Renewal { venue, .. } => Coming {
            venue,
            time,
            bytes: &[],
        },
        Record::Skip { venue, .. } => Coming {
            venue,
            time,
            bytes: &[],
        },
        Record::SelfHelp { venue, .. } => Coming {
            venue,
            time,
            bytes: &[],
        },
    }
}

/// Returns the clock by which gaps are given up before a record with this time, if any are.
fn clock_of(rule: SkipRule, time: Option<u64>) -> Option<GapClock>
    ensures { result ≡ clock_of rule time }
{
    match (rule, time) {
        (SkipRule::After(milliseconds), Some(time)) => Some(GapClock {
            span: u64::from(milliseconds) * MILLISECOND,
            time,
        }),
        _ => None,
    }
}

/// Notes which gaps stand, where the rule asks for it.
fn note_for(rule: SkipRule, venues: &ReplayVenues, kept: &mut StandingGaps)
    ensures { (config : ReplayConfig) (at : ReplayPoint) → config.skips ≡ rule
        → FollowAll config.window venues.now.items at.histories
        → Knows config kept.old at → KeepsFor config kept.new at }
{
    if let SkipRule::After(_) = rule {
        kept.note(venues);
    }
}

/// Returns the skip of a gap that has stood long enough before a record with this time, if there is
/// one.
fn overdue_skip(
    config: &ReplayConfig<'_>,
    venues: &ReplayVenues,
    kept: &StandingGaps,
    time: Option<u64>,
) -> Option<GapSkip>
    ensures { (at : ReplayPoint) → FollowAll config.now.window venues.now.items at.histories
        → KeepsFor config.now kept.now at
        → MatchOption result (GivesUpNone config.now time at)
        (λ skip. GivesUpOverdue config.now.skips config.now.window time at
        (skip_record skip.venue skip.number)) }
{
    match clock_of(config.skips, time) {
        Some(clock) => venues.overdue(&clock, kept),
        None => None,
    }
}

/// Returns the skip that is put in before a record, if one is.
fn next_skip(
    config: &ReplayConfig<'_>,
    venues: &ReplayVenues,
    kept: &StandingGaps,
    coming: &Coming<'_>,
) -> Option<GapSkip>
    requires { coming.now.venue < length venues.now.items }
    ensures { (r : TimedRecord) (at : ReplayPoint) → StandsFor coming.now r
        → FollowAll config.now.window venues.now.items at.histories
        → KeepsFor config.now kept.now at
        → MatchOption result (PutsNoSkip config.now r at)
        (λ skip. PutsIn config.now at r (skip_record skip.venue skip.number)) }
{
    if let Some(skip) = overdue_skip(config, venues, kept, coming.time) {
        return Some(skip);
    }
    match venues.skip_before(config, coming.venue, coming.bytes) {
        Some(number) => Some(GapSkip {
            venue: coming.venue,
            number,
        }),
        None => None,
    }
}

/// Puts in one record before the one that comes, where one is put in, and publishes its events.
/// Returns whether there was one.
fn put_in_next<K: EventSink>(
    config: &ReplayConfig<'_>,
    venues: &mut ReplayVenues,
    kept: &mut StandingGaps,
    coming: &Coming<'_>,
    output: &mut ReplaySink<K>,
) -> Result<bool, PublishStop>
    requires venue { coming.now.venue < length venues.old.items }
    requires venues { output.old.journal.venues ≡ length venues.old.items }
    requires gaps { venues.old.gaps ≡ config.now.gaps }
    requires follow { FollowSome config.now venues.old kept.old }
    ensures kept { OnOk result (KeepsVenues venues.old venues.new) }
    ensures journal { OnOk result (output.new.journal.venues ≡ output.old.journal.venues) }
    ensures less { result ≡ Ok true → left_in venues.new.items < left_in venues.old.items }
    ensures puts { (r : TimedRecord) (at : ReplayPoint) → StandsFor coming.now r
        → FollowAll config.now.window venues.old.items at.histories
        → Knows config.now kept.old at
        → PutsOne (record { takes = K.takes; fails = K.fails }) config.now r at
        (state_of_replay output.old) (state_of_replay output.new) venues.new.items kept.new
        result }
{
    note_for(config.skips, venues, kept);
    if let Some(skip) = next_skip(config, venues, kept, coming) {
        kept.wait_for(skip.venue, coming.time);
        venues.skip_to(skip.venue, skip.number, output)?;
        return Ok(true);
    }
    kept.wait_for(coming.venue, coming.time);
    venues.renew_before(config, coming.venue, coming.bytes, output)
}

/// Puts in all records that are put in before the one that comes, one after the other, and
/// publishes the events of each.
#[inline(never)]
fn put_in_all<K: EventSink>(
    config: &ReplayConfig<'_>,
    venues: &mut ReplayVenues,
    kept: &mut StandingGaps,
    coming: &Coming<'_>,
    output: &mut ReplaySink<K>,
) -> Result<(), PublishStop>
    requires venue { coming.now.venue < length venues.old.items }
    requires venues { output.old.journal.venues ≡ length venues.old.items }
    requires gaps { venues.old.gaps ≡ config.now.gaps }
    requires follow { FollowSome config.now venues.old kept.old }
    ensures kept { OnOk result (KeepsVenues venues.old venues.new) }
    ensures journal { OnOk result (output.new.journal.venues ≡ output.old.journal.venues) }
    ensures taken { (r : TimedRecord) (at : ReplayPoint) → StandsFor coming.now r
        → FollowAll config.now.window venues.old.items at.histories
        → Knows config.now kept.old at
        → TakesPutIn (record { takes = K.takes; fails = K.fails }) config.now r at
        (state_of_replay output.old) (state_of_replay output.new) venues.new.items kept.new
        result }
{
    loop {
        if !put_in_next(config, venues, kept, coming, output)? {
            return Ok(());
        }
    }
}

/// Whether nothing is put in before any record.
#[inline(always)]
fn is_plain(config: &ReplayConfig<'_>) -> bool
    ensures { result ≡ true → IsPlain config.now }
{
    match config.skips {
        SkipRule::Never => config.next_sessions.is_empty(),
        _ => false,
    }
}

/// Takes what is put in before a record, where anything may be.
// Else the loop over records goes past it at once. The record isn't lent any further: it would be
// kept in memory then, which took some 15 instructions a record.
#[inline(always)]
pub fn follow_rule<K: EventSink>(
    config: &ReplayConfig<'_>,
    venues: &mut ReplayVenues,
    kept: &mut StandingGaps,
    next: &Record<'_>,
    output: &mut ReplaySink<K>,
) -> Result<(), PublishStop>
    requires kind { IsRecord (length venues.old.items) (record_of next.now) }
    requires venues { output.old.journal.venues ≡ length venues.old.items }
    requires gaps { venues.old.gaps ≡ config.now.gaps }
    requires follow { FollowSome config.now venues.old kept.old }
    ensures kept { OnOk result (KeepsVenues venues.old venues.new) }
    ensures journal { OnOk result (output.new.journal.venues ≡ output.old.journal.venues) }
    ensures taken { (at : ReplayPoint)
        → FollowAll config.now.window venues.old.items at.histories
        → Knows config.now kept.old at
        → TakesPutIn (record { takes = K.takes; fails = K.fails }) config.now
        (timed_record (record_of next.now) output.old.time) at
        (state_of_replay output.old) (state_of_replay output.new) venues.new.items kept.new
        result }
{
    if is_plain(config) {
        return Ok(());
    }
    let coming = coming_of(next, output.time);
    put_in_all(config, venues, kept, &coming, output)
}
