//! Runs over captures: replays that are printed, and conversions.
ghost use Rattle.text_out.specs.Members.{reading_of, writing_of};
ghost use Rattle.std.specs.Prelude.{◌≡◌, vec_len};
ghost use Rattle.run_settings.specs.Lists.{AreOfVenues};
ghost use Rattle.nbbo_runs.specs.Printing.{output_asked};
ghost use Rattle.nbbo_runs.specs.Runs.{RunsBy, RunsConversion, RunsOver};
ghost use Rattle.nbbo_runs.specs.Timeless.{with_times};

use crate::absent_report::tell_absent;
use crate::capture_report::write_late;
use crate::config::MAX_TURNS;
use crate::end_report::EndReport;
use crate::ending::status_of;
use crate::hints::input_hint;
use crate::own_capture::OwnCapture;
use crate::printing::print;
use crate::reported_gaps::{report_gaps, reports_gaps};
use crate::symbol_hint::symbol_hint;
use crate::terminals::Terminals;
use crate::timeless::tell_timeless;
use crate::watched_format::WatchedFormat;
use crate::watched_sink::Missing;
use event_sinks::ReplayStop;
use line_captures::{PacketFormat, convert};
use run_settings::{CapturedLine, RunInput, RunSettings};
use std::alloc::Global;
use text_out::{CaptureIn, TextOut, write_stderr};

/// The most venues of a capture.
const VENUES: usize = 16;

/// The end of a run: the status of the program, the output, and whether the journal was full.
pub struct RunEnd<W> {
    pub status: u8,
    pub output: W,
    pub is_journal_full: bool,
}

/// Returns whether a run ended since its journal was full.
fn is_journal_full<F>(outcome: &Result<(), ReplayStop<F>>) -> bool {
    matches!(outcome, Err(ReplayStop::JournalFull))
}

/// Replays a capture of a format, of which nothing was read, and prints it as the settings say.
/// Returns its end.
fn run_over<R: CaptureIn, F: EndReport + Drop, W: TextOut + Drop, E: TextOut>(
    alloc: Global,
    settings: &RunSettings,
    terminals: Terminals,
    mut format: F,
    input: &mut R,
    output: W,
    errors: &mut E,
) -> RunEnd<W>
    requires { F.venues format ≡ vec_len settings.now.feed.sessions }
    ensures { RunsOver
        (record {
          reading = reading_of R.CaptureIn;
          writing = writing_of W.TextOut;
          telling = writing_of E.TextOut;
        })
        (record { reads = F.reads; wants = F.wants; is_bad = F.is_bad; is_whole = F.is_whole })
        (output_asked
        (reading_of R.CaptureIn) (writing_of W.TextOut) settings.now)
        (with_times settings.now F.is_timed F.end_texts) settings.now terminals format
        (record { input = input.old; output = output; errors = errors.old })
        (record { input = input.new; output = result.output; errors = errors.new })
        result.status }
{
    write_stderr(input_hint(terminals.input), errors);
    write_stderr(symbol_hint(settings), errors);
    let is_told = reports_gaps(settings, terminals);
    let mut missing = Missing::new(alloc, is_told);
    let printed = print(alloc, settings, &mut format, input, output, &mut missing);
    report_gaps(&printed.outcome, is_told, missing.gaps.as_slice(), errors);
    let symbols = settings.feed.symbols.as_slice();
    tell_absent(&printed.outcome, is_told, symbols, &missing.absent, errors);
    format.write_end_report(&missing.ordinals, &printed.outcome, errors);
    tell_timeless(settings, format.has_times(), &printed.outcome, errors);
    write_late(printed.late, errors);
    RunEnd {
        status: status_of(&printed.outcome),
        is_journal_full: is_journal_full(&printed.outcome),
        output: printed.output,
    }
}

/// Replays the input, a capture of the project's own format or a packet capture, and prints it as
/// the settings say. Returns its end.
pub fn run_settings<R: CaptureIn, W: TextOut + Drop, E: TextOut>(
    alloc: Global,
    settings: &RunSettings,
    terminals: Terminals,
    input: &mut R,
    output: W,
    errors: &mut E,
) -> RunEnd<W>
    ensures { RunsBy
        (record {
          reading = reading_of R.CaptureIn;
          writing = writing_of W.TextOut;
          telling = writing_of E.TextOut;
        })
        (output_asked
        (reading_of R.CaptureIn) (writing_of W.TextOut) settings.now) settings.now terminals
        (record { input = input.old; output = output; errors = errors.old })
        (record { input = input.new; output = result.output; errors = errors.new })
        result.status settings.now.input }
{
    let venues = settings.feed.sessions.len();
    match &settings.input {
        RunInput::Own => {
            let format = OwnCapture::new(venues);
            if !reports_gaps(settings, terminals) {
                return run_over(alloc, settings, terminals, format, input, output, errors);
            }
            let format = WatchedFormat::new(format, settings);
            run_over(alloc, settings, terminals, format, input, output, errors)
        }
        RunInput::Packets(lines) => {
            let format = PacketFormat::new(lines.as_slice(), venues);
            let format = WatchedFormat::new(format, settings);
            run_over(alloc, settings, terminals, format, input, output, errors)
        }
    }
}

/// Converts the packet capture that the input is, onto the output. Returns the status of the
/// program.
pub fn run_conversion<R: CaptureIn, W: TextOut, E: TextOut>(
    alloc: Global,
    lines: &[CapturedLine],
    terminals: Terminals,
    input: &mut R,
    output: &mut W,
    errors: &mut E,
) -> u8
    requires { AreOfVenues 16 lines.now }
    ensures { RunsConversion
        (record {
          reading = reading_of R.CaptureIn;
          writing = writing_of W.TextOut;
          telling = writing_of E.TextOut;
        })
        lines.now terminals
        (record { input = input.old; output = output.old; errors = errors.old })
        (record { input = input.new; output = output.new; errors = errors.new }) result }
{
    write_stderr(input_hint(terminals.input), errors);
    let mut format = PacketFormat::new(lines, VENUES);
    let outcome = convert(alloc, MAX_TURNS, &mut format, input, output);
    format.write_end_report(&[], &outcome, errors);
    status_of(&outcome)
}
