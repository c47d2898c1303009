//! Runs that list the lines of a packet capture.
ghost use Rattle.text_out.specs.Members.{reading_of, writing_of};
ghost use Rattle.std.specs.Prelude.{codes};
ghost use Rattle.text_out.specs.StandardError.{SaysEach};
ghost use Rattle.nbbo_runs.specs.Discovery.{Discovers, PrintsSurvey, RunsDiscovery, no_packet_texts, survey_outcome_texts, survey_texts};

use crate::capture_report::{
    write_dropped, write_lost, write_other, write_outcome, write_protocols, write_second,
};
use crate::config::MAX_TURNS;
use crate::ending::status_of;
use crate::hints::input_hint;
use crate::printing::write_text;
use crate::survey_form::SurveyForm;
use crate::terminals::Terminals;
use capture_records::RecordFormat;
use event_sinks::ReplayStop;
use line_captures::{BadPiece, convert};
use line_discovery::EndpointSurvey;
use std::alloc::Global;
use text_out::{CaptureIn, TextOut, write_stderr};

/// The outcome of a run.
type Outcome = Result<(), ReplayStop<BadPiece>>;

/// Prints the lines of a survey, once a capture has begun in it; else nothing.
fn print_survey<W: TextOut>(
    alloc: Global,
    form: SurveyForm,
    survey: &EndpointSurvey,
    output: &mut W,
) -> Outcome
    ensures { PrintsSurvey (writing_of W.TextOut) form survey.now output.old output.new result }
{
    if !survey.may_end() {
        return Ok(());
    }
    write_text(survey.text(alloc, form.format, form.times), output)
}

/// Reads the packet capture that the input is, and prints its lines, also up to a fault. A survey
/// has no records: to convert it is to read it, and writes nothing.
fn discover<R: CaptureIn, W: TextOut>(
    alloc: Global,
    form: SurveyForm,
    survey: &mut EndpointSurvey,
    input: &mut R,
    output: &mut W,
) -> Outcome
    ensures { Discovers
        (reading_of R.CaptureIn) (writing_of W.TextOut)
        form input.old input.new survey.old survey.new output.old output.new result }
{
    let read = convert(alloc, MAX_TURNS, survey, input, output);
    let printed = print_survey(alloc, form, survey, output);
    printed.and(read)
}

/// Writes that no datagram is a packet, where none is.
fn write_no_packet<E: TextOut>(packets: u64, errors: &mut E)
    ensures { SaysEach (writing_of E.TextOut) (no_packet_texts packets) errors.old errors.new }
{
    if packets != 0 {
        return;
    }
    write_stderr("nbbo: no datagram is a MoldUDP64 packet\n", errors);
}

/// Writes the line of an outcome, if it has one.
fn write_survey_outcome<E: TextOut>(outcome: &Outcome, position: u64, packets: u64, errors: &mut E)
    ensures { SaysEach (writing_of E.TextOut)
        (survey_outcome_texts outcome.now position packets) errors.old errors.new }
{
    match outcome {
        Ok(()) => write_no_packet(packets, errors),
        Err(_) => write_outcome(outcome, position, packets, errors),
    }
}

/// Writes what there is to say of a capture that was surveyed.
fn write_survey<E: TextOut>(survey: &EndpointSurvey, outcome: &Outcome, errors: &mut E)
    ensures { SaysEach (writing_of E.TextOut)
        (survey_texts survey.now outcome.now) errors.old errors.new }
{
    let frames = survey.frames();
    write_protocols(&frames, errors);
    write_lost(&frames, errors);
    write_other(&frames, errors);
    write_dropped(&survey.dropped(), errors);
    write_survey_outcome(outcome, survey.position(), survey.packets(), errors);
    write_second(outcome, survey.second_start(), survey.position(), errors);
}

/// Lists the lines of the packet capture that the input is, on the output. Returns the status of
/// the program.
pub fn run_discovery<R: CaptureIn, W: TextOut, E: TextOut>(
    alloc: Global,
    form: SurveyForm,
    terminals: Terminals,
    input: &mut R,
    output: &mut W,
    errors: &mut E,
) -> u8
    ensures { RunsDiscovery
        (record {
          reading = reading_of R.CaptureIn;
          writing = writing_of W.TextOut;
          telling = writing_of E.TextOut;
        })
        form terminals
        (record { input = input.old; output = output.old; errors = errors.old })
        (record { input = input.new; output = output.new; errors = errors.new }) result }
{
    write_stderr(input_hint(terminals.input), errors);
    let Ok(mut survey) = EndpointSurvey::new(alloc) else {
        let outcome: Outcome = Err(ReplayStop::NoMemory);
        write_outcome(&outcome, 0, 0, errors);
        return status_of(&outcome);
    };
    let outcome = discover(alloc, form, &mut survey, input, output);
    write_survey(&survey, &outcome, errors);
    status_of(&outcome)
}
