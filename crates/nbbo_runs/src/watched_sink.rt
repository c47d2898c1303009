//! A sink whose symbols are watched.
ghost use Rattle.text_out.specs.Members.{reading_of};
ghost use Rattle.std.specs.Prelude.{◌≡◌, ℕ, ◌&&◌, not, true, IfOk, OnOk};
ghost use Rattle.feed_text.specs.EventReplays.{AnswersRun, venues_in};
ghost use Rattle.feed_text.specs.Lacks.{AppendsLacks};
ghost use Rattle.feed_text.specs.Replays.{CanReplay};
ghost use Rattle.replay_run.specs.Printed.{facts_of_run};
ghost use Rattle.event_sinks.specs.SinkEvents.{told_by};
ghost use Rattle.nbbo_runs.specs.AbsentSymbols.{IsNewMissing, LeavesAbsent, brings_item};
ghost use Rattle.run_notes.specs.AbsentSymbols.{AreKeysOf, has_key, symbols_with};

use crate::named_sessions::{Ordinals, first_ordinals, note_renewal};
use capture_records::RecordFormat;
use event_sinks::{EventSink, VenueGap, ReplayStop, Replayed, ReplayedEvent, SinkStop};
use feed_text::replay::ReplayConfig;
use feed_types::SymbolName;
use replay_run::replay;
use run_notes::AbsentSymbols;
use std::alloc::{AllocError, Global};
use text_out::CaptureIn;

/// A sink, the symbols of which no item came to it yet, and the ordinals of the venues' sessions
/// that began last.
#[derive(Drop)]
pub struct WatchedSink<K> {
    pub(crate) sink: K,
    pub(crate) absent: AbsentSymbols,
    pub(crate) ordinals: Ordinals,
}

/// Takes out the symbol of an event, if that is an item.
#[inline(always)]
fn note_event(absent: &mut AbsentSymbols, event: &ReplayedEvent<'_>)
    ensures { (key : ℕ) → has_key absent.new key
        ≡ (has_key absent.old key && not (brings_item key (told_by event.now))) }
{
    match event {
        ReplayedEvent::Item { item, .. } => absent.note_any(&item.item),
        _ => {}
    }
}

impl<K: EventSink> EventSink for WatchedSink<K> {
    ghost use Rattle.nbbo_runs.specs.AbsentSymbols.{TakesWatched};
    ghost use Rattle.nbbo_runs.specs.AbsentLaws.{watched_sink_more, watched_sink_none};

    ghost takes = { TakesWatched K.takes };

    ghost fails = { λ s told t. K.fails s.sink told t.sink };

    ghost is_shown = { λ s. K.is_shown s.sink };

    ghost takes_none = { watched_sink_none K.takes K.takes_none };

    ghost takes_more = { watched_sink_more K.takes K.takes_more };

    ghost fails_after = { λ s t u xs ys a b. K.fails_after s.sink t.sink u.sink xs ys a.0 b };

    ghost fails_longer = { λ s t xs ys a. K.fails_longer s.sink t.sink xs ys a };

    #[inline(always)]
    fn take(&mut self, time: Option<u64>, event: &ReplayedEvent<'_>) -> Result<(), SinkStop> {
        note_event(&mut self.absent, event);
        note_renewal(&mut self.ordinals, event);
        self.sink.take(time, event)
    }

    fn show(&mut self) -> Result<(), SinkStop> {
        self.sink.show()
    }
}

/// What a replay may miss at its end.
#[derive(Drop)]
pub struct Missing {
    /// Whether symbols are watched.
    pub(crate) is_watched: bool,
    /// The gaps of venues.
    pub(crate) gaps: Vec<VenueGap>,
    /// The symbols of which no item came, where they are watched.
    pub(crate) absent: AbsentSymbols,
    /// The ordinals of the venues' last sessions.
    pub(crate) ordinals: Ordinals,
}

impl Missing {
    /// Returns what is missing before anything is read. Symbols are watched, or not.
    pub(crate) fn new(alloc: Global, is_watched: bool) -> Missing
        ensures { IsNewMissing is_watched result }
    {
        Missing {
            is_watched,
            gaps: Vec::new(alloc),
            absent: AbsentSymbols::none(alloc),
            ordinals: first_ordinals(),
        }
    }

    /// Returns these symbols, where they are watched. Fails where memory is refused.
    fn watched(&self, alloc: Global, symbols: &[SymbolName]) -> Result<AbsentSymbols, AllocError>
        ensures { IfOk result (λ absent.
            self.now.is_watched ≡ true → AreKeysOf symbols.now absent) }
    {
        if self.is_watched {
            return AbsentSymbols::of(alloc, symbols);
        }
        Ok(AbsentSymbols::none(alloc))
    }
}

/// Reads a capture of a format to its end, and gives a sink the events of its records
/// ([`replay_run::replay`]). The gap of each venue at the end is appended to what is missing, and
/// the symbols of which no item came are left in it, where symbols are watched, and the ordinals
/// of the venues' last sessions.
#[inline(always)]
pub(crate) fn replay_watched<R: CaptureIn, F: RecordFormat, K: EventSink>(
    alloc: Global,
    config: &ReplayConfig<'_>,
    format: &mut F,
    reader: &mut R,
    sink: K,
    missing: &mut Missing,
) -> Replayed<K, F::Fault>
    requires can { CanReplay config.now }
    requires of_venues { F.venues format.old ≡ venues_in config.now }
    ensures headline { AnswersRun
        (reading_of R.CaptureIn)
        (record { reads = F.reads; wants = F.wants; is_bad = F.is_bad; is_whole = F.is_whole })
        (record { takes = K.takes; fails = K.fails }) K.is_shown
        config.now (facts_of_run config.now) reader.old reader.new format.old format.new
        sink result.sink result.outcome }
    ensures gaps { OnOk result.outcome (AppendsLacks
        (reading_of R.CaptureIn)
        (record { reads = F.reads; wants = F.wants; is_bad = F.is_bad; is_whole = F.is_whole })
        config.now reader.old reader.new format.old format.new
        missing.old.gaps.items missing.new.gaps.items) }
    ensures absent { OnOk result.outcome (LeavesAbsent
        (reading_of R.CaptureIn)
        (record { reads = F.reads; wants = F.wants; is_bad = F.is_bad; is_whole = F.is_whole })
        config.now reader.old reader.new format.old format.new result.outcome
        missing.old.is_watched (symbols_with missing.new.absent config.now.symbols.now)
        missing.new.ordinals) }
{
    let Ok(absent) = missing.watched(alloc, config.symbols) else {
        return Replayed {
            sink,
            outcome: Err(ReplayStop::NoMemory),
        };
    };
    let watched = WatchedSink {
        sink,
        absent,
        ordinals: first_ordinals(),
    };
    let Replayed {
        sink: watched,
        outcome,
    } = replay(alloc, config, format, reader, watched, &mut missing.gaps);
    missing.ordinals = watched.ordinals;
    let WatchedSink { sink, absent, .. } = watched;
    missing.absent = absent;
    Replayed { sink, outcome }
}
