//! The venues of a replay.
ghost use Rattle.std.specs.Prelude.{◌≡◌, ◌<◌, ◌≤◌, ◌+◌, ℕ, List, IfOk, MatchOption, None, OnErr, OnOk, length, map, vec_capacity};
ghost use Rattle.capture_records.specs.Capture.{IsRecord, record_of, skip_record};
ghost use Rattle.line_arbiter.specs.Histories.{History, new_history};
ghost use Rattle.event_sinks.specs.SinkEvents.{at_time};
ghost use Rattle.feed_text.specs.Tellings.{lasts_told};
ghost use Rattle.feed_text.specs.ReplayStates.{state_of_replay};
ghost use Rattle.feed_text.specs.Following.{FollowAll, LeavesLacks, TakesRecord};
ghost use Rattle.feed_text.specs.Rules.{gap_at};
ghost use Rattle.feed_text.specs.Skipping.{SkipsAtVenue};
ghost use Rattle.feed_text.specs.RenewingVenues.{RenewsAtVenue};

use crate::replay::ReplayConfig;
use crate::replay_sink::{PublishStop, ReplaySink};
use crate::venue::VenueReplay;
use capture_records::Record;
use event_sinks::{EventSink, SinkStop, VenueGap};
use feed_types::{SessionName, VenueId};
use mold_packet::Request;
use std::alloc::{AllocError, Global};
use std::marker::Model;

/// The venues of a replay, by their numbers, and whether gap lines are asked for.
#[derive(Drop)]
pub struct ReplayVenues {
    pub(crate) venues: Vec<VenueReplay>,
    gaps: bool,
}

impl Model for ReplayVenues {
    ghost use Rattle.feed_text.specs.Following.{VenueList};

    ghost Value = { VenueList };

    ghost view = { λ v. record { items = v.venues.items; gaps = v.gaps } };
}

impl ReplayVenues {
    /// A venue for each session name, 16 at most, to which nothing came. They take the memory of
    /// their windows here, and none later.
    pub fn new(
        alloc: Global,
        sessions: &[SessionName],
        window: u32,
        gaps: bool,
    ) -> Result<ReplayVenues, AllocError>
        requires few { length sessions.now ≤ 16 }
        requires least { 1 ≤ window }
        requires most { window ≤ 65535 }
        ensures follow { IfOk result (λ v.
            FollowAll window v.items (map new_history sessions.now)) }
        ensures gaps { IfOk result (λ v. v.gaps ≡ gaps) }
    {
        let mut venues = Vec::new(alloc);
        for (place, session) in sessions.iter().enumerate() {
            let venue = VenueReplay::new(alloc, VenueId::at(place), *session, window)?;
            venues.push(venue)?;
        }
        Ok(ReplayVenues { venues, gaps })
    }

    /// Gives up what the venue lacks below the number, where it may be, and publishes the events of
    /// that.
    pub fn skip_to<K: EventSink>(
        &mut self,
        venue: VenueId,
        number: u64,
        output: &mut ReplaySink<K>,
    ) -> Result<(), PublishStop>
        requires venue { venue < length self.old.items }
        requires venues { output.old.journal.venues ≡ length self.old.items }
        ensures { TakesRecord (record { takes = K.takes; fails = K.fails }) self.old
            (skip_record venue number)
            (state_of_replay output.old) (state_of_replay output.new) self.new result }
    {
        let replay = &mut self.venues[venue.index()];
        replay.skip_to(venue, number, output)
    }

    /// Takes a record, and publishes its events. After a stop no other record can be taken: for a
    /// full journal all events that had room were published, and where the sink failed it did so
    /// within some of the first.
    // For the reason that parse_record is inlined, too.
    #[inline(always)]
    pub fn take<K: EventSink>(
        &mut self,
        next: Record<'_>,
        output: &mut ReplaySink<K>,
    ) -> Result<(), PublishStop>
        requires kind { IsRecord (length self.old.items) (record_of next) }
        requires venues { output.old.journal.venues ≡ length self.old.items }
        ensures { TakesRecord (record { takes = K.takes; fails = K.fails }) self.old
            (record_of next.entry)
            (state_of_replay output.old) (state_of_replay output.new) self.new result }
    {
        match next {
            Record::Datagram { venue, line, bytes } => {
                let replay = &mut self.venues[venue.index()];
                replay.take(venue, line, bytes, self.gaps, output)
            }
            Record::Renewal { venue, session } => {
                let replay = &mut self.venues[venue.index()];
                replay.renew(venue, session, output)
            }
            Record::Skip { venue, number } => self.skip_to(venue, number, output),
            Record::SelfHelp { venue, on } => output.declare(venue, on),
        }
    }

    /// Returns the number below which the rule gives up what the venue lacks before a datagram of
    /// these bytes, if it gives anything up.
    pub fn skip_before(
        &self,
        config: &ReplayConfig<'_>,
        venue: VenueId,
        bytes: &[u8],
    ) -> Option<u64>
        requires { venue < length self.now.items }
        ensures { (hs : List History) → FollowAll config.now.window self.now.items hs
            → MatchOption result
            ((number : ℕ) → SkipsAtVenue config.now hs venue bytes.now number → ⊥)
            (λ number. SkipsAtVenue config.now hs venue bytes.now number) }
    {
        let replay = &self.venues[venue.index()];
        replay.skip_before_datagram(config.skips, config.window, bytes)
    }

    /// Begins the venue's next session before a datagram of these bytes, where that is a packet of
    /// it and it may begin, and publishes the events of that. Returns whether it has begun.
    pub fn renew_before<K: EventSink>(
        &mut self,
        config: &ReplayConfig<'_>,
        venue: VenueId,
        bytes: &[u8],
        output: &mut ReplaySink<K>,
    ) -> Result<bool, PublishStop>
        requires { venue < length self.old.items }
        ensures { RenewsAtVenue (record { takes = K.takes; fails = K.fails })
            config.now.next_sessions.now venue bytes.now self.old self.new
            (state_of_replay output.old) (state_of_replay output.new) result }
    {
        let replay = &mut self.venues[venue.index()];
        replay.renew_before(config.next_sessions, venue, bytes, output)
    }

    /// Returns the run of messages that the venue lacks, if it lacks any.
    pub fn gap(&self, venue: VenueId) -> Option<Request>
        ensures { (window : ℕ) (hs : List History) → FollowAll window self.now.items hs
            → result ≡ gap_at window hs venue }
    {
        let place = venue.index();
        if place >= self.venues.len() {
            return None;
        }
        let replay = &self.venues[place];
        replay.gap()
    }

    /// Appends what each venue lacks, of each that lacks anything. There is memory for them.
    pub fn put_lacks(&self, lacks: &mut Vec<VenueGap>)
        requires { length lacks.old.items + length self.now.items ≤ vec_capacity lacks.old }
        ensures { LeavesLacks self.now lacks.old.items lacks.new.items }
    {
        for venue in &self.venues {
            venue.put_lack(lacks);
        }
    }

    /// Gives the sink the venues' last events.
    pub fn tell_last<K: EventSink>(&self, sink: &mut K) -> Result<(), SinkStop>
        ensures took { OnOk result
            ((window : ℕ) (hs : List History) → FollowAll window self.now.items hs
            → K.takes sink.old (at_time None (lasts_told 0 hs)) sink.new) }
        ensures failed { OnErr result
            ((window : ℕ) (hs : List History) → FollowAll window self.now.items hs
            → K.fails sink.old (at_time None (lasts_told 0 hs)) sink.new) }
    {
        for venue in &self.venues {
            venue.tell_last(sink)?;
        }
        Ok(())
    }
}
