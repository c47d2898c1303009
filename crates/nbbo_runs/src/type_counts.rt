//! Runs that count the messages of each line by type.
ghost use Rattle.text_out.specs.Members.{reading_of, writing_of};
ghost use Rattle.std.specs.Prelude.{◌≡◌};
ghost use Rattle.nbbo_runs.specs.TypeRuns.{CountsTypes, PrintsTypes, RunsTypes, RunsTypesOf};

use crate::config::MAX_TURNS;
use crate::end_report::EndReport;
use crate::ending::status_of;
use crate::hints::input_hint;
use crate::own_capture::OwnCapture;
use crate::printing::write_text;
use crate::terminals::Terminals;
use capture_records::RecordFormat;
use command_words::TypeSettings;
use event_sinks::ReplayStop;
use line_captures::{PacketFormat, convert};
use message_types::TypeSurvey;
use run_settings::RunInput;
use std::alloc::Global;
use text_out::{CaptureIn, TextOut, write_stderr};

/// Prints the rows of a survey, once a capture has begun in it; else nothing.
fn print_types<F: RecordFormat, W: TextOut>(
    alloc: Global,
    settings: &TypeSettings,
    survey: &TypeSurvey<F>,
    output: &mut W,
) -> Result<(), ReplayStop<F::Fault>>
    ensures { PrintsTypes (writing_of W.TextOut) F.is_whole settings.now survey.now output.old
        output.new result }
{
    if !survey.may_end() {
        return Ok(());
    }
    write_text(survey.text(alloc, settings.format, settings.venues), output)
}

/// Reads a capture, and prints the rows of what was counted, also up to a fault. A survey has no
/// records: to convert it is to read it, and writes nothing.
fn count_types<R: CaptureIn, F: RecordFormat, W: TextOut>(
    alloc: Global,
    settings: &TypeSettings,
    survey: &mut TypeSurvey<F>,
    input: &mut R,
    output: &mut W,
) -> Result<(), ReplayStop<F::Fault>>
    ensures { CountsTypes
        (reading_of R.CaptureIn)
        (record { reads = F.reads; wants = F.wants; is_bad = F.is_bad; is_whole = F.is_whole })
        (writing_of W.TextOut) settings.now input.old input.new survey.old survey.new
        output.old output.new result }
{
    let read = convert(alloc, MAX_TURNS, survey, input, output);
    let printed = print_types(alloc, settings, survey, output);
    printed.and(read)
}

/// Counts the messages of a capture of a format, of which nothing was read, on the output. Returns
/// the status of the program.
fn run_types_of<R: CaptureIn, F: EndReport + Drop, W: TextOut, E: TextOut>(
    alloc: Global,
    settings: &TypeSettings,
    terminals: Terminals,
    format: F,
    input: &mut R,
    output: &mut W,
    errors: &mut E,
) -> u8
    ensures { RunsTypesOf
        (record {
          reading = reading_of R.CaptureIn;
          writing = writing_of W.TextOut;
          telling = writing_of E.TextOut;
        })
        (record { reads = F.reads; wants = F.wants; is_bad = F.is_bad; is_whole = F.is_whole })
        F.end_texts settings.now terminals format
        (record { input = input.old; output = output.old; errors = errors.old })
        (record { input = input.new; output = output.new; errors = errors.new }) result }
{
    write_stderr(input_hint(terminals.input), errors);
    let mut survey = TypeSurvey::new(format, settings.span);
    let outcome = count_types(alloc, settings, &mut survey, input, output);
    survey.format().write_end_report(&[], &outcome, errors);
    status_of(&outcome)
}

/// Counts the messages of the input by type, a capture of the project's own format or a packet
/// capture, on the output. Returns the status of the program.
pub fn run_types<R: CaptureIn, W: TextOut, E: TextOut>(
    alloc: Global,
    settings: &TypeSettings,
    terminals: Terminals,
    input: &mut R,
    output: &mut W,
    errors: &mut E,
) -> u8
    ensures { RunsTypes
        (record {
          reading = reading_of R.CaptureIn;
          writing = writing_of W.TextOut;
          telling = writing_of E.TextOut;
        })
        settings.now terminals
        (record { input = input.old; output = output.old; errors = errors.old })
        (record { input = input.new; output = output.new; errors = errors.new }) result
        settings.now.input }
{
    let venues = settings.venues;
    match &settings.input {
        RunInput::Own => {
            let format = OwnCapture::new(venues);
            run_types_of(alloc, settings, terminals, format, input, output, errors)
        }
        RunInput::Packets(lines) => {
            let format = PacketFormat::new(lines.as_slice(), venues);
            run_types_of(alloc, settings, terminals, format, input, output, errors)
        }
    }
}
