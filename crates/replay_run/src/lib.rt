//! A replay is a run of the reference machine, so the headline holds of what it gives its sink.
//!
//! A replay takes a record at a time, and keeps no list of events and no machine. All the same, it
//! emits of a capture what the machine does over the capture's records as events, with each item
//! that is ready pushed and consumed at once (`specs/Events.antt`). Where it stops since its
//! journal is full, the machine refuses the next event for that reason (`specs/Full.antt`). So what
//! a sink is given is that of a run (`specs/Printed.antt`). [`replay`] states that for any format
//! of captures and any sink.
#![tactic(auto)]

ghost use Rattle.text_out.specs.Members.{reading_of};
ghost use Rattle.std.specs.Prelude.{◌≡◌, ◌<◌, ◌≤◌, ◌+◌, ◌++◌, ◌^◌, ℕ, List, OnOk, Some, length, map, slice_get};
ghost use Rattle.std.specs.List.{AllByRecursion};
ghost use Rattle.mold_packet.specs.Block.{IsMessage};
ghost use Rattle.line_arbiter.specs.Histories.{History};
ghost use Rattle.line_arbiter.specs.OfSession.{session_of_messages};
ghost use Rattle.filter_terms.specs.declared.terms.Terms.{Terms};
ghost use Rattle.feed_core.specs.Worlds.{Setting};
ghost use Rattle.feed_text.specs.declared.replay.ReplayConfig.{ReplayConfig};
ghost use Rattle.capture_records.specs.Capture.{CaptureRecord};
ghost use Rattle.feed_text.specs.EventReplays.{AnswersRun, venues_in};
ghost use Rattle.capture_records.specs.Formats.{TimedRecord, what_of};
ghost use Rattle.feed_text.specs.Lacks.{AppendsLacks};
ghost use Rattle.feed_text.specs.ReplayEvents.{ReplayEvent};
ghost use Rattle.feed_text.specs.Replays.{CanReplay};
ghost use Rattle.event_sinks.specs.SinkEvents.{TimedEvent};
ghost use Rattle.feed_text.specs.Texts.{EmitsAll, HasJournalRoom};
ghost use Rattle.feed_text.specs.Told.{IsToldToFull, IsToldUpTo};
ghost use Rattle.replay_run.specs.Events.{InAnySetting, IsReplayRun, replay_setting};
ghost use Rattle.replay_run.specs.Full.{IsRunToFull};
ghost use Rattle.replay_run.specs.Moving.{ComesThrough};
ghost use Rattle.replay_run.specs.Printed.{facts_of_run};

use capture_records::RecordFormat;
use event_sinks::{EventSink, Replayed, VenueGap};
use feed_text::replay::{ReplayConfig, replay_events};
use std::alloc::Global;
use text_out::CaptureIn;

/// The events that records emit are a run of the machine over the records as events, and the
/// headline holds of it, whatever the lanes hold.
pub fn a_replay_is_a_run()
    ensures { (config : ReplayConfig) (lane : ℕ) (filters : List Terms)
        (records : List CaptureRecord) (emitted : List ReplayEvent) (histories : List History)
        → 1 ≤ lane
        → EmitsAll config records emitted histories → HasJournalRoom config emitted
        → IsReplayRun (replay_setting config lane filters) records emitted histories }
{}

/// So what is told of all records or of some of them, and up to a full journal, is that of a run,
/// whatever the lanes hold.
pub fn what_is_told_is_of_a_run()
    ensures room { (config : ReplayConfig) (records left : List TimedRecord)
        (told : List TimedEvent) → (is : IsToldUpTo config records left told)
        → InAnySetting config
        (λ s. IsReplayRun s (map what_of is.taken) is.emitted is.histories) }
    ensures full { (config : ReplayConfig) (records : List TimedRecord) (told : List TimedEvent)
        → (is : IsToldToFull config records told)
        → InAnySetting config (λ s. IsRunToFull s (map what_of is.before.taken) is.last.what
        (is.before.emitted ++ is.first)) }
{}

/// And the machine moves: whatever the messages of a session are, some events bring its packets to
/// the venue whose first session has its name, and all of its items are consumed, and End, for any
/// window and lane and a journal with room for them. So the headline isn't one of a machine that
/// takes nothing.
pub fn a_session_comes_through()
    ensures { (s : Setting) (place : ℕ) (name : List ℕ) (messages : List (List ℕ))
        → 1 ≤ s.window → 1 ≤ s.lane → length messages < s.journal
        → slice_get s.sessions place ≡ Some name → length name ≡ 10
        → AllByRecursion IsMessage messages → length messages + 1 < 2 ^ 64
        → ComesThrough s place (session_of_messages name messages) }
{}

/// Reads a capture of a format to its end, and gives a sink the events of its records
/// ([`feed_text::replay::replay_events`]): those of a run of the machine over what is taken of the
/// records, of which the headline holds. So is what the sink is told before a fault is answered.
/// The gap of each venue at the end is appended to `lacks`.
#[inline(always)]
pub fn replay<R: CaptureIn, F: RecordFormat, K: EventSink>(
    alloc: Global,
    config: &ReplayConfig<'_>,
    format: &mut F,
    reader: &mut R,
    sink: K,
    lacks: &mut Vec<VenueGap>,
) -> Replayed<K, F::Fault>
    requires can { CanReplay config.now }
    requires of_venues { F.venues format.old ≡ venues_in config.now }
    ensures headline { AnswersRun
        (reading_of R.CaptureIn)
        (record { reads = F.reads; wants = F.wants; is_bad = F.is_bad; is_whole = F.is_whole })
        (record { takes = K.takes; fails = K.fails }) K.is_shown
        config.now (facts_of_run config.now) reader.old reader.new format.old format.new
        sink result.sink result.outcome }
    ensures lacks { OnOk result.outcome (AppendsLacks
        (reading_of R.CaptureIn)
        (record { reads = F.reads; wants = F.wants; is_bad = F.is_bad; is_whole = F.is_whole })
        config.now reader.old reader.new format.old format.new lacks.old.items lacks.new.items) }
{
    replay_events(alloc, config, format, reader, sink, lacks)
}
