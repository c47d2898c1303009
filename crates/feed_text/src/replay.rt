//! The replay of a capture.
ghost use Rattle.text_out.specs.Members.{reading_of, writing_of};
ghost use Rattle.std.specs.Prelude.{◌≡◌, ◌≤◌, ◌+◌, length, vec_capacity, IfOk, OnOk};
ghost use Rattle.journal_book.specs.NumberedBooks.{new_numbered};
ghost use Rattle.feed_text.specs.EventReplays.{AnswersRun, venues_in};
ghost use Rattle.feed_text.specs.Following.{LeavesLacks};
ghost use Rattle.feed_text.specs.Lacks.{AppendsLacks};
ghost use Rattle.capture_records.specs.OwnFormats.{own_parsing};
ghost use Rattle.feed_text.specs.Replays.{AnswersReplay, CanReplay, stop_by};
ghost use Rattle.feed_text.specs.Running.{ClosesSink, IsReplayStart};
ghost use Rattle.feed_text.specs.Told.{told_facts};

use crate::fault::ReplayFault;
use crate::replay_sink::ReplaySink;
use crate::run::run;
use crate::venues::ReplayVenues;
use capture_records::{CAPTURE_ROOM, OwnFormat, ReadBuffer, RecordFormat};
use event_sinks::{EventSink, ReplayStop, Replayed, TextPage, TextSink, VenueGap};
use feed_types::{SessionName, SymbolName};
use journal_book::NumberedBook;
use run_settings::{NextSession, SkipRule};
use std::alloc::{AllocError, Global};
use text_out::{CaptureIn, LineBuffer, TextOut};

/// The settings of a replay.
#[derive(Clone, Copy, Debug)]
pub struct ReplayConfig<'a> {
    /// The names of the venues' first sessions, ten bytes each, filled on the right with spaces: 1
    /// to 16, any names.
    pub sessions: &'a [SessionName],
    /// The symbols whose national best is printed where it changes, in the order in which changes
    /// are printed: at most 4,096, each once.
    pub symbols: &'a [SymbolName],
    /// The width of each venue's window in messages past the last item sent: 1 to 65,535.
    pub window: u32,
    /// The most entries that may be journaled. An item is one, and so is a declaration that changes
    /// something.
    pub journal: u32,
    /// Whether a gap line is printed where a datagram leaves a gap.
    pub gaps: bool,
    /// When a replay gives up what a venue lacks, beside the capture's own skips.
    pub skips: SkipRule,
    /// The sessions that follow the venues' first ones, in the order in which those of a venue
    /// follow one another.
    pub next_sessions: &'a [NextSession],
    /// The most calls of the reader that may be made.
    pub turns: u64,
}

/// What a replay takes memory for, before it reads anything.
struct Prepared {
    venues: ReplayVenues,
    journal: NumberedBook,
    unread: ReadBuffer<CAPTURE_ROOM>,
}

/// An empty journal. The symbols are few enough and distinct, so that only want of memory fails.
fn new_journal(alloc: Global, config: &ReplayConfig<'_>) -> Result<NumberedBook, AllocError>
    requires { CanReplay config.now }
    ensures { IfOk result (λ journal. journal
        ≡ new_numbered config.now.symbols.now (venues_in config.now) config.now.journal) }
{
    match NumberedBook::new(alloc, config.symbols, config.sessions.len(), config.journal) {
        Ok(journal) => Ok(journal),
        Err(_) => Err(AllocError),
    }
}

/// Takes all the memory that a replay needs: for the venues' windows, the symbols, the bytes of a
/// capture and what the venues may lack.
fn prepare(
    alloc: Global,
    config: &ReplayConfig<'_>,
    lacks: &mut Vec<VenueGap>,
) -> Result<Prepared, AllocError>
    requires { CanReplay config.now }
    ensures prepared { IfOk result (λ made.
        IsReplayStart config.now made.unread made.venues made.journal) }
    ensures lacks { lacks.new.items ≡ lacks.old.items }
    ensures room { OnOk result (length lacks.new.items + 16 ≤ vec_capacity lacks.new) }
{
    lacks.reserve(16)?;
    Ok(Prepared {
        venues: ReplayVenues::new(alloc, config.sessions, config.window, config.gaps)?,
        journal: new_journal(alloc, config)?,
        unread: ReadBuffer::new(alloc)?,
    })
}

/// Gives the sink the venues' last events, shows all, and appends what each venue lacks.
fn close<F, K: EventSink>(
    venues: &ReplayVenues,
    sink: &mut K,
    lacks: &mut Vec<VenueGap>,
) -> Result<(), ReplayStop<F>>
    requires { length lacks.old.items + length venues.now.items ≤ vec_capacity lacks.old }
    ensures closes { ClosesSink K.takes K.fails K.is_shown venues.now sink.old sink.new result }
    ensures lacks { OnOk result (LeavesLacks venues.now lacks.old.items lacks.new.items) }
{
    venues.tell_last(sink)?;
    sink.show()?;
    venues.put_lacks(lacks);
    Ok(())
}

/// Reads a capture of a format to its end, and gives a sink the events of its records and then the
/// venues' last ones. Where the configuration has a rule for it, what a venue lacks is given up as
/// though the capture had skips for it. What each venue lacks at the end is appended to `lacks`.
///
/// What the sink took is shown before the reader is called again, so that a pipe shows lines as
/// they come, and before a fault is answered. Every call of the reader is a turn, also one that was
/// interrupted. Memory is taken before anything is read. What was journaled is counted and given to
/// the sink and not kept, so that a capture of a whole day takes no more than a short one.
#[inline(always)]
pub fn replay_events<R: CaptureIn, F: RecordFormat, K: EventSink>(
    alloc: Global,
    config: &ReplayConfig<'_>,
    format: &mut F,
    reader: &mut R,
    sink: K,
    lacks: &mut Vec<VenueGap>,
) -> Replayed<K, F::Fault>
    requires can { CanReplay config.now }
    requires of_venues { F.venues format.old ≡ venues_in config.now }
    ensures replays { AnswersRun
        (reading_of R.CaptureIn)
        (record { reads = F.reads; wants = F.wants; is_bad = F.is_bad; is_whole = F.is_whole })
        (record { takes = K.takes; fails = K.fails }) K.is_shown
        config.now (told_facts config.now) reader.old reader.new format.old format.new
        sink result.sink result.outcome }
    ensures lacks { OnOk result.outcome (AppendsLacks
        (reading_of R.CaptureIn)
        (record { reads = F.reads; wants = F.wants; is_bad = F.is_bad; is_whole = F.is_whole })
        config.now reader.old reader.new format.old format.new lacks.old.items lacks.new.items) }
{
    let Ok(prepared) = prepare(alloc, config, lacks) else {
        return Replayed {
            sink,
            outcome: Err(ReplayStop::NoMemory),
        };
    };
    let Prepared {
        mut venues,
        journal,
        mut unread,
    } = prepared;
    let mut output = ReplaySink {
        journal,
        time: None,
        sink,
    };
    let outcome = match run(
        config,
        format,
        reader,
        &mut unread,
        &mut venues,
        &mut output,
    ) {
        Ok(()) => close(&venues, &mut output.sink, lacks),
        Err(stop) => Err(stop),
    };
    let ReplaySink { sink, .. } = output;
    Replayed { sink, outcome }
}

/// A replay of a capture to text that ended: the writer, as the last call left it, and how the
/// replay ended.
#[derive(Drop)]
pub struct ReplayRun<W> {
    pub writer: W,
    pub outcome: Result<(), ReplayFault>,
}

/// Returns the fault of a stop.
fn fault_of(stop: ReplayStop<()>) -> ReplayFault
    ensures { stop_by result ≡ stop }
{
    match stop {
        ReplayStop::ReadFailed => ReplayFault::ReadFailed,
        ReplayStop::SinkFailed => ReplayFault::WriteFailed,
        ReplayStop::Bad(()) => ReplayFault::BadRecord,
        ReplayStop::Short => ReplayFault::ShortRecord,
        ReplayStop::TooManyTurns => ReplayFault::TooManyTurns,
        ReplayStop::JournalFull => ReplayFault::JournalFull,
        ReplayStop::NoMemory => ReplayFault::NoMemory,
    }
}

/// Reads a capture of the project's own format to its end, and writes the lines of its records'
/// events and then those of its venues ([`replay_events`]). The text waits in a page of 65,536
/// bytes.
#[inline(never)]
pub fn replay<R: CaptureIn, W: TextOut>(
    alloc: Global,
    config: &ReplayConfig<'_>,
    reader: &mut R,
    writer: W,
    lacks: &mut Vec<VenueGap>,
) -> ReplayRun<W>
    requires { CanReplay config.now }
    ensures replays { AnswersReplay
        (reading_of R.CaptureIn) (writing_of W.TextOut)
        config.now (told_facts config.now) reader.old reader.new
        writer result.writer result.outcome }
    ensures lacks { OnOk result.outcome (AppendsLacks
        (reading_of R.CaptureIn)
        own_parsing config.now reader.old reader.new (venues_in config.now) (venues_in config.now)
        lacks.old.items lacks.new.items) }
{
    let Ok(text) = LineBuffer::for_page(alloc) else {
        return ReplayRun {
            writer,
            outcome: Err(ReplayFault::NoMemory),
        };
    };
    let sink = TextSink::new(TextPage::new(text, writer));
    let mut format = OwnFormat::new(config.sessions.len());
    let replayed = replay_events(alloc, config, &mut format, reader, sink, lacks);
    ReplayRun {
        writer: replayed.sink.into_writer(),
        outcome: replayed.outcome.map_err(fault_of),
    }
}
