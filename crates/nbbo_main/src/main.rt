//! The program `nbbo`.
//!
//! It replays captures, counts what is in them, lists the lines of packet captures, converts these,
//! and normalises captures of ITCH (`nbbo_runs`); and it listens on live lines (`udp_listening`).
//! `command_words` has the words of its command line, and their help.
//!
//! The contract is that of `nbbo_runs::run`: of any words, over any input, output and standard
//! error, it states what is read, what is written where, and the status, or that the words ask to
//! listen or to normalise. Outside of it stand, here, the opening of the three streams, of files in
//! their place (`streams.rt`) and of the sockets, the words as the system and files give them
//! (`word_files.rt`), the hints beside it, and the exit; and listening itself (`udp_listening`),
//! which tests show.
//!
//! Begin with `nbbo_runs`. `command_words` has what the words ask for, `udp_listening` live lines.
#![tactic(auto)]

ghost use Rattle.std.specs.Prelude.{◌≡◌, ◌≢◌, ◌<◌};
ghost use Rattle.command_words.specs.declared.refusal.Refusal.TheVariants.{NoMemory, NotText};

mod opening;
mod recording;
mod snapshot_files;
mod streams;
mod word_files;

use crate::opening::{why_unwritten, write_unopened};
use crate::recording::{end_recording, open_recording, start_recording};
use crate::snapshot_files::snapshot_files;
use crate::streams::{InputStream, OutputStream, opened_streams};
use crate::word_files::{WordsFault, words_of, write_unread};
use command_words::{Refusal, StreamFiles, explanation_of, settings, stream_files, symbol_words};
use line_recordings::{RecordingState, SkipRecords};
use nbbo_runs::{Next, ProgramRun, RunFacts, Terminals, hint_at_file, journal_hint, refuse, run};
use run_settings::ListenSettings;
use std::alloc::{AllocError, Global};
use std::fs::File;
use std::io::{ErrorKind, IsTerminal, Stderr};
use std::marker::Brand;
use std::os::fd::{AsRawFd, IntoRawFd};
use std::process::ExitCode;
use std::sync::Wait;
use std::sync::ledger::{Blank, Ledger};
use std::thread::Threads;
use text_out::{Count, StreamIn, StreamOut, TextOut, write_stderr};
use udp_listening::{
    BindFault, ErrorsProgress, ListenSockets, ListenStreams, NO_MEMORY, OutputState, PatientOutput,
    SocketTables, UnheldErrors, bind_metrics, bind_sockets, enlarge, listen_with, listening_line,
    metrics_line, record_lines, write_bind_fault,
};

/// The descriptor of standard error.
const STDERR: i32 = 2;

/// How many standard streams there are, which have the first descriptors.
const STREAMS: i32 = 3;

/// The refusal where there are no words.
fn unread(kind: ErrorKind) -> Refusal
    ensures memory { kind ≡ ErrorKind.OutOfMemory → result ≡ NoMemory }
    ensures text { kind ≢ ErrorKind.OutOfMemory → result ≡ NotText }
{
    if kind == ErrorKind::OutOfMemory {
        Refusal::NoMemory
    } else {
        Refusal::NotText
    }
}

/// Runs over the standard streams, and returns the status of the program. The blank pages count the
/// calls of the input, and the failures of each; those of a run that listens are counted apart.
fn run_streams<H, C: Ledger, R: Ledger, W: Ledger, E: Ledger + Send, L: Ledger, M, F, T>(
    rt: &HostRuntime,
    threads: &H,
    of_calls: Blank,
    of_reads: Blank,
    of_writes: Blank,
    of_errors: Blank,
    of_rows: Blank,
    of_texts: Blank,
    of_file: Blank,
    of_told: Blank,
) -> u8
where
    H: Threads + Wait + Sync,
    M: Ledger + Send,
    F: Ledger + Send + 'static,
    T: Ledger + Send + 'static,
    requires calls { of_calls.name ≡ C.name }
    requires call_parts { of_calls.parts ≡ C.parts }
    requires some_calls { 0 < of_calls.parts }
    requires reads { of_reads.name ≡ R.name }
    requires read_parts { of_reads.parts ≡ R.parts }
    requires some_reads { 0 < of_reads.parts }
    requires writes { of_writes.name ≡ W.name }
    requires write_parts { of_writes.parts ≡ W.parts }
    requires some_writes { 0 < of_writes.parts }
    requires errors { of_errors.name ≡ E.name }
    requires error_parts { of_errors.parts ≡ E.parts }
    requires some_errors { 0 < of_errors.parts }
    requires rows { of_rows.name ≡ L.name }
    requires row_parts { of_rows.parts ≡ L.parts }
    requires some_rows { 0 < of_rows.parts }
    requires texts { of_texts.name ≡ M.name }
    requires text_parts { of_texts.parts ≡ M.parts }
    requires some_texts { 0 < of_texts.parts }
    requires file { of_file.name ≡ F.name }
    requires file_parts { of_file.parts ≡ F.parts }
    requires some_file { 0 < of_file.parts }
    requires told { of_told.name ≡ T.name }
    requires told_parts { of_told.parts ≡ T.parts }
    requires some_told { 0 < of_told.parts }
{
    let counts: StreamCounts<C, R, W> = StreamCounts {
        calls: Count::new(of_calls),
        reads: Count::new(of_reads),
        writes: Count::new(of_writes),
    };
    let mut errors: StreamOut<Stderr, E> = StreamOut::new(rt.stderr(), Count::new(of_errors));
    let (given, input, output) = match open_run(rt, counts, &mut errors) {
        Ok(opened) => opened,
        Err(status) => return status,
    };
    let words = given.words.as_slice();
    let ProgramRun { next, facts, .. } = run(
        rt.alloc(),
        words,
        given.terminals,
        given.snapshots.as_slice(),
        input,
        output,
        &mut errors,
    );
    write_hints(rt, words, &facts, &mut errors);
    match next {
        Next::Ended(status) => {
            write_unwhole(&given.files, status, &mut errors);
            status
        }
        Next::Listens(settings) => {
            let counts = ListenCounts {
                rows: Count::new(of_rows),
                texts: Count::new(of_texts),
                recording: RecordingCounts {
                    file: Count::new(of_file),
                    told: Count::new(of_told),
                },
            };
            listen_live::<H, _, L, M, F, T>(rt, threads, &settings, counts, errors)
        }
    }
}

/// Writes a line where a word for a symbol names a file.
fn hint_at_symbols<E: TextOut>(rt: &HostRuntime, words: &[String], errors: &mut E) {
    if let Ok(symbols) = symbol_words(rt.alloc(), words) {
        hint_at_file(rt, symbols.as_slice(), errors);
    }
}

/// Writes the hints after a run: what is wrong with words that were refused, and at a terminal how
/// a journal gets more room.
fn write_hints<E: TextOut>(rt: &HostRuntime, words: &[String], facts: &RunFacts, errors: &mut E) {
    if let Some(refusal) = &facts.refusal {
        if let Some(text) = explanation_of(rt.alloc(), words, refusal) {
            write_stderr(text.as_str(), errors);
        }
    }
    let is_shown = facts.is_journal_full && rt.stderr().is_terminal();
    write_stderr(journal_hint(is_shown), errors);
}

/// The calls of the input, and the failures of it and of the output.
#[derive(Drop)]
struct StreamCounts<C: Ledger, R: Ledger, W: Ledger> {
    calls: Count<C>,
    reads: Count<R>,
    writes: Count<W>,
}

/// What a run is given beside its streams.
#[derive(Drop)]
struct GivenRun {
    words: Vec<String>,
    files: StreamFiles,
    /// The bytes of the files of snapshots, in the order of the words.
    snapshots: Vec<Vec<u8>>,
    terminals: Terminals,
}

/// Prints why the words are refused, and what would be right. Returns the status of the program.
fn refuse_words<W: Ledger, E: TextOut>(
    rt: &HostRuntime,
    words: &[String],
    refusal: Refusal,
    writes: Count<W>,
    errors: &mut E,
) -> u8 {
    let mut output = StreamOut::new(rt.stdout(), writes);
    let status = refuse(&refusal, &mut output, errors);
    let facts = RunFacts {
        is_journal_full: false,
        refusal: Some(refusal),
    };
    write_hints(rt, words, &facts, errors);
    status
}

/// Returns the files that the words name for the streams. Where they name one and ask for nothing
/// else that is right, they are refused here, so that no file is opened for them.
fn files_of(alloc: Global, words: &[String]) -> Result<StreamFiles, Refusal> {
    let files = stream_files(alloc, words)?;
    if files.input.is_some() || files.output.is_some() {
        let _task = settings(alloc, words)?;
    }
    Ok(files)
}

/// Writes after a run of this status that the file in place of standard output isn't whole, if
/// there is one and it isn't.
fn write_unwhole<E: TextOut>(files: &StreamFiles, status: u8, errors: &mut E) {
    let Some(name) = &files.output else {
        return;
    };
    if status != 0 {
        write_stderr("nbbo: output not whole: ", errors);
        write_stderr(name.as_str(), errors);
        write_stderr("\n", errors);
    }
}

/// Reads the words, and opens the files that they name: returns what a run is given, its input and
/// its output. Where the words are refused or a file isn't opened it is written why, and the status
/// of the program is returned.
fn open_run<C: Ledger, R: Ledger, W: Ledger, E: TextOut>(
    rt: &HostRuntime,
    counts: StreamCounts<C, R, W>,
    errors: &mut E,
) -> Result<
    (
        GivenRun,
        StreamIn<InputStream, C, R>,
        StreamOut<OutputStream, W>,
    ),
    u8,
> {
    let words = match words_of(rt) {
        Ok(words) => words,
        Err(WordsFault::Unread(kind)) => {
            return Err(refuse_words(rt, &[], unread(kind), counts.writes, errors));
        }
        Err(WordsFault::File(name, why)) => {
            write_unread(name.as_str(), why, errors);
            return Err(2);
        }
    };
    let files = match files_of(rt.alloc(), words.as_slice()) {
        Ok(files) => files,
        Err(refusal) => {
            return Err(refuse_words(rt, words.as_slice(), refusal, counts.writes, errors));
        }
    };
    let snapshots = snapshot_files(rt, words.as_slice(), errors).ok_or(1)?;
    let (input, output) = opened_streams(rt, &files, errors).ok_or(1)?;
    let terminals = Terminals {
        input: files.input.is_none() && rt.stdin().is_terminal(),
        errors: rt.stderr().is_terminal(),
    };
    if terminals.errors {
        hint_at_symbols(rt, words.as_slice(), errors);
    }
    let given = GivenRun {
        words,
        files,
        snapshots,
        terminals,
    };
    let input = StreamIn::new(input, counts.calls, counts.reads);
    let output = StreamOut::new(output, counts.writes);
    Ok((given, input, output))
}

/// Opens `/dev/null` in place of each standard stream that is closed, so that no socket gets its
/// number: input that was closed has ended, and output fails, as it did.
fn fill_streams(rt: &HostRuntime) {
    for _ in 0..STREAMS {
        let Ok(file) = File::open(rt, "/dev/null") else {
            return;
        };
        if file.as_raw_fd() >= STREAMS {
            return;
        }
        // It is left open.
        let _fd = file.into_raw_fd();
    }
}

/// Opens the sockets of the settings, and where it is told what the system drops at them its
/// tables. Where a socket is refused, all are closed.
fn bind_all(rt: &HostRuntime, settings: &ListenSettings) -> Result<ListenSockets, BindFault> {
    let lines = bind_sockets(rt, rt.alloc(), settings)?;
    let metrics = match settings.metrics {
        Some(address) => Some(bind_metrics(rt, address)?),
        None => None,
    };
    let tables = if settings.has_further_options() {
        SocketTables::open(rt, rt.alloc())
    } else {
        SocketTables::none(rt.alloc())
    };
    Ok(ListenSockets {
        lines,
        metrics,
        tables,
        skips: SkipRecords::none(rt.alloc()),
    })
}

/// Says where the sockets listen, how large their buffers are where a size was asked for, and where
/// metrics are served.
fn tell_sockets<E: TextOut>(
    alloc: Global,
    settings: &ListenSettings,
    sockets: &ListenSockets,
    errors: &mut E,
) -> Result<(), AllocError> {
    let lines = sockets.lines.as_slice();
    let line = listening_line(alloc, lines, settings.lines.as_slice())?;
    write_stderr(line.as_str(), errors);
    if let Some(bytes) = settings.buffer {
        let line = enlarge(alloc, lines, bytes)?;
        write_stderr(line.as_str(), errors);
    }
    if let (Some(listener), Some(asked)) = (&sockets.metrics, settings.metrics) {
        let line = metrics_line(alloc, listener, asked)?;
        write_stderr(line.as_str(), errors);
    }
    Ok(())
}

/// How the streams of a run that listens do, twice: for who writes on them, and for its monitor.
#[derive(Drop)]
struct StreamShares {
    output: OutputState,
    output_state: OutputState,
    errors: ErrorsProgress,
    errors_progress: ErrorsProgress,
}

impl StreamShares {
    /// Returns those of streams on which nothing was written.
    fn new(alloc: Global) -> Result<StreamShares, AllocError> {
        let output_state = OutputState::new(alloc)?;
        let errors_progress = ErrorsProgress::new(alloc, STDERR)?;
        Ok(StreamShares {
            output: output_state.share()?,
            output_state,
            errors: errors_progress.share()?,
            errors_progress,
        })
    }
}

/// The failures of what a recording writes: its file, and what it reports.
#[derive(Drop)]
struct RecordingCounts<F: Ledger, T: Ledger> {
    file: Count<F>,
    told: Count<T>,
}

/// The failures of what a run that listens writes: its rows, its texts on standard error, and what
/// its recording does.
#[derive(Drop)]
struct ListenCounts<L: Ledger, M: Ledger, F: Ledger, T: Ledger> {
    rows: Count<L>,
    texts: Count<M>,
    recording: RecordingCounts<F, T>,
}

/// Opens the file of the recording, if there is to be one. Where it isn't opened standard error has
/// why, and None is returned.
fn opened<E: TextOut>(
    rt: &HostRuntime,
    record_to: &Option<String>,
    errors: &mut E,
) -> Option<Option<File>> {
    let Some(name) = record_to else {
        return Some(None);
    };
    match open_recording(rt, name.as_str()) {
        Ok(file) => Some(Some(file)),
        Err(error) => {
            let why = why_unwritten(error.kind());
            write_unopened("nbbo: recording not opened: ", name.as_str(), why, errors);
            None
        }
    }
}

/// Starts the recording of a run over these sockets, where there is a file for it. None is returned
/// where memory or the recording's thread was refused.
fn recorded<H, F, T>(
    rt: &HostRuntime,
    threads: &H,
    sockets: &mut ListenSockets,
    venues: usize,
    file: Option<File>,
    counts: RecordingCounts<F, T>,
) -> Option<Option<RecordingState>>
where
    H: Threads,
    F: Ledger + Send + 'static,
    T: Ledger + Send + 'static,
{
    let Some(file) = file else {
        return Some(None);
    };
    let venues = record_lines(rt.alloc(), venues, sockets).ok()?;
    let file = StreamOut::new(file, counts.file);
    let errors = StreamOut::new(rt.stderr(), counts.told);
    let state = start_recording(rt, threads, venues, file, errors)?;
    Some(Some(state))
}

/// Listens on the lines of the settings, records what they bring where there is a file for it, and
/// returns the status of the program.
fn listen_live<H, E, L, M, F, T>(
    rt: &HostRuntime,
    threads: &H,
    settings: &ListenSettings,
    counts: ListenCounts<L, M, F, T>,
    mut errors: E,
) -> u8
where
    H: Threads + Wait + Sync,
    E: TextOut + Drop + Send,
    L: Ledger,
    M: Ledger + Send,
    F: Ledger + Send + 'static,
    T: Ledger + Send + 'static,
{
    let ListenCounts {
        rows: row_counts,
        texts: text_counts,
        recording: recording_counts,
    } = counts;
    fill_streams(rt);
    let Some(file) = opened(rt, &settings.record, &mut errors) else {
        return 1;
    };
    let mut sockets = match bind_all(rt, settings) {
        Ok(sockets) => sockets,
        Err(fault) => {
            let is_named = rt.stderr().is_terminal() || settings.has_further_options();
            write_bind_fault(rt.alloc(), fault, is_named, &mut errors);
            return 1;
        }
    };
    if tell_sockets(rt.alloc(), settings, &sockets, &mut errors).is_err() {
        write_stderr(NO_MEMORY, &mut errors);
        return 1;
    }
    let Ok(shares) = StreamShares::new(rt.alloc()) else {
        write_stderr(NO_MEMORY, &mut errors);
        return 1;
    };
    let venues = settings.feed.sessions.len();
    let Some(recording) = recorded(rt, threads, &mut sockets, venues, file, recording_counts) else {
        write_stderr(NO_MEMORY, &mut errors);
        return 1;
    };
    let output = PatientOutput::new(rt.stdout(), shares.output);
    let streams = ListenStreams {
        input: rt.stdin(),
        output: StreamOut::new(output, row_counts),
        errors: UnheldErrors::new(errors, text_counts, shares.errors),
        output_state: shares.output_state,
        errors_progress: shares.errors_progress,
    };
    let (status, _output, mut errors) = listen_with(
        threads,
        rt,
        rt.alloc(),
        settings,
        sockets,
        streams,
    );
    match recording {
        Some(state) => end_recording(rt, &state, status, &mut errors),
        None => status,
    }
}

fn main(rt: HostRuntime) -> ExitCode {
    ExitCode::from(run_streams::<
        HostRuntime,
        Brand,
        Brand,
        Brand,
        Brand,
        Brand,
        Brand,
        Brand,
        Brand,
    >(
        &rt,
        &rt,
        Blank::new(1),
        Blank::new(1),
        Blank::new(1),
        Blank::new(1),
        Blank::new(1),
        Blank::new(1),
        Blank::new(1),
        Blank::new(1),
    ))
}
