//! A capture of ITCH lines as one of this project's own messages.
ghost use Rattle.text_out.specs.Members.{reading_of, writing_of};
ghost use Rattle.std.specs.Prelude.{◌≡◌, ◌≤◌, ◌<◌, ℕ, IfOk, length, map, slice_index_or, vec_len};
ghost use Rattle.run_settings.specs.Lists.{AreOfVenues};
ghost use Rattle.normalising.specs.Texts.{nowhere};
ghost use Rattle.nbbo_runs.specs.NormaliseRuns.{IsNormalisedFeed, NormalisesOver, NormalisesWith, RunsNormalising, captured_destination, end_number_of};

use crate::config::MAX_TURNS;
use crate::end_report::EndReport;
use crate::ending::status_of;
use crate::hints::input_hint;
use crate::normalise_report::write_run;
use crate::own_capture::OwnCapture;
use crate::snapshots::snapshots_of;
use crate::terminals::Terminals;
use capture_writing::Destination;
use command_words::NormaliseRequest;
use feed_types::LineId;
use line_captures::PacketFormat;
use normalising::{NormalisedFeed, OutputForm, normalise};
use packet_capture::Address;
use run_settings::{CapturedLine, EndNumberRule, NormaliseSettings, RunInput};
use std::alloc::{AllocError, Global};
use text_out::{CaptureIn, TextOut, write_stderr};
use venue_normaliser::{EndNumber, NormaliserSettings, Snapshot};

/// Returns where the frames of each venue go: to its line A.
fn destinations_of(
    alloc: Global,
    lines: &[CapturedLine],
    venues: usize,
) -> Result<Vec<Destination>, AllocError>
    ensures count { IfOk result (λ to. length to.items ≡ venues) }
    ensures each { IfOk result (λ to. (place : ℕ) → place < venues
        → slice_index_or to.items place nowhere ≡ captured_destination lines.now place nowhere) }
{
    let nowhere = Destination {
        address: [0; 4],
        port: 0,
    };
    let mut destinations = vec![in alloc; nowhere; venues]?;
    for line in lines {
        if let (LineId::A, Address::V4(address)) = (line.line, line.address) {
            if let Some(to) = destinations.get_mut(line.venue.index()) {
                *to = Destination {
                    address,
                    port: line.port,
                };
            }
        }
    }
    Ok(destinations)
}

/// Returns which number an end of session has.
fn end_number_of(rule: EndNumberRule) -> EndNumber
    ensures { result ≡ end_number_of rule }
{
    match rule {
        EndNumberRule::Next => EndNumber::Next,
        EndNumberRule::Last => EndNumber::Last,
    }
}

/// Returns what is normalised by the settings, with these snapshots, in a form.
fn feed_of<'a>(
    settings: &'a NormaliseSettings,
    snapshots: &'a [Option<Snapshot<'a>>],
    form: OutputForm<'a>,
) -> NormalisedFeed<'a>
    ensures is { IsNormalisedFeed settings.now snapshots.now result }
    ensures form { result.form ≡ form.entry }
{
    NormalisedFeed {
        sessions: settings.feed.sessions.as_slice(),
        snapshots,
        next_sessions: settings.next_sessions.as_slice(),
        symbols: settings.feed.symbols.as_slice(),
        normaliser: NormaliserSettings {
            window: settings.feed.window,
            most_orders: settings.orders as usize,
            end_number: end_number_of(settings.end_number),
        },
        skips: settings.skips,
        form,
    }
}

/// Normalises a capture of a format, and reports its outcome. Returns the status of the program.
fn run_over<R: CaptureIn, F: EndReport, W: TextOut, E: TextOut>(
    alloc: Global,
    settings: &NormaliseSettings,
    snapshots: &[Option<Snapshot<'_>>],
    form: OutputForm<'_>,
    format: &mut F,
    input: &mut R,
    output: &mut W,
    errors: &mut E,
) -> u8
    requires { F.venues format.old ≡ vec_len settings.now.feed.sessions }
    ensures { NormalisesOver
        (record {
          reading = reading_of R.CaptureIn;
          writing = writing_of W.TextOut;
          telling = writing_of E.TextOut;
        })
        (record { reads = F.reads; wants = F.wants; is_bad = F.is_bad; is_whole = F.is_whole })
        F.end_texts settings.now snapshots.now form.entry format.old
        (record { input = input.old; output = output.old; errors = errors.old })
        (record { input = input.new; output = output.new; errors = errors.new }) result }
{
    let feed = feed_of(settings, snapshots, form);
    let run = normalise(alloc, MAX_TURNS, &feed, format, input, output);
    write_run(format, &run, errors);
    status_of(&run.outcome)
}

/// Normalises the capture that the input is, onto the output, with these snapshots. Returns the
/// status of the program.
fn normalise_input<R: CaptureIn, W: TextOut, E: TextOut>(
    alloc: Global,
    settings: &NormaliseSettings,
    snapshots: &[Option<Snapshot<'_>>],
    input: &mut R,
    output: &mut W,
    errors: &mut E,
) -> u8
    ensures { NormalisesWith
        (record {
          reading = reading_of R.CaptureIn;
          writing = writing_of W.TextOut;
          telling = writing_of E.TextOut;
        })
        settings.now snapshots.now
        (record { input = input.old; output = output.old; errors = errors.old })
        (record { input = input.new; output = output.new; errors = errors.new }) result }
{
    let venues = settings.feed.sessions.len();
    match &settings.input {
        RunInput::Own => {
            let (form, mut format) = (OutputForm::Own, OwnCapture::new(venues));
            run_over(
                alloc,
                settings,
                snapshots,
                form,
                &mut format,
                input,
                output,
                errors,
            )
        }
        RunInput::Packets(lines) => {
            let Ok(destinations) = destinations_of(alloc, lines.as_slice(), venues) else {
                write_stderr("nbbo: no memory\n", errors);
                return 1;
            };
            let form = OutputForm::Capture(destinations.as_slice());
            let mut format = PacketFormat::new(lines.as_slice(), venues);
            run_over(
                alloc,
                settings,
                snapshots,
                form,
                &mut format,
                input,
                output,
                errors,
            )
        }
    }
}

/// Normalises the capture that the input is, onto the output. `files` are the bytes of the files
/// of snapshots that are asked for, in their order. Returns the status of the program.
pub fn run_normalisation<R: CaptureIn, W: TextOut, E: TextOut>(
    alloc: Global,
    request: &NormaliseRequest,
    files: &[Vec<u8>],
    terminals: Terminals,
    input: &mut R,
    output: &mut W,
    errors: &mut E,
) -> u8
    ensures { RunsNormalising
        (record {
          reading = reading_of R.CaptureIn;
          writing = writing_of W.TextOut;
          telling = writing_of E.TextOut;
        })
        request.now terminals (map (λ of. of.items) files.now)
        (record { input = input.old; output = output.old; errors = errors.old })
        (record { input = input.new; output = output.new; errors = errors.new }) result }
{
    let settings = &request.settings;
    let venues = settings.feed.sessions.len();
    let asked = request.snapshots.as_slice();
    let Some(snapshots) = snapshots_of(alloc, asked, files, venues, errors) else {
        return 1;
    };
    write_stderr(input_hint(terminals.input), errors);
    normalise_input(alloc, settings, snapshots.as_slice(), input, output, errors)
}
