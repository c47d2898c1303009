//! A run of the program over any input, output and standard error.
ghost use Rattle.text_out.specs.Members.{reading_of, writing_of};
ghost use Rattle.std.specs.Prelude.{◌≡◌, map, string_bytes};
ghost use Rattle.nbbo_runs.specs.Runs.{Leads, TellsRefusal};

use crate::discovery::run_discovery;
use crate::ending::WRITE_FAILED;
use crate::normalisation::run_normalisation;
use crate::runs::{RunEnd, run_conversion, run_settings};
use crate::survey_form::SurveyForm;
use crate::terminals::Terminals;
use crate::type_counts::run_types;
use command_words::{Refusal, Task, settings};
use run_settings::ListenSettings;
use std::alloc::Global;
use text_out::{CaptureIn, TextOut, write_all, write_stderr};

/// The result of a run.
#[derive(Debug, Drop)]
pub enum Next {
    /// The run is over; the status of the program.
    Ended(u8),
    /// The words ask to listen, and nothing else was done.
    Listens(ListenSettings),
}

/// What hints are made of after a run.
#[derive(Debug, Default, Drop)]
pub struct RunFacts {
    /// Whether the run ended since its journal was full.
    pub is_journal_full: bool,
    /// Why the words are refused, if they are.
    pub refusal: Option<Refusal>,
}

/// The result of a run, its input and output as the last calls left them, and what hints are made
/// of.
#[derive(Debug, Drop)]
pub struct ProgramRun<R, W> {
    pub next: Next,
    pub input: R,
    pub output: W,
    pub facts: RunFacts,
}

/// Prints why nothing is replayed: help and the version on the output, all else on standard error.
/// A text that was asked for and can't be written is a fault of writing. Returns the status of the
/// program.
pub fn refuse<W: TextOut, E: TextOut>(refusal: &Refusal, output: &mut W, errors: &mut E) -> u8
    ensures { TellsRefusal
        (writing_of W.TextOut) (writing_of E.TextOut)
        refusal.now output.old output.new errors.old errors.new result }
{
    let status = refusal.status();
    if status != 0 {
        write_stderr(refusal.text(), errors);
        return status;
    }
    match write_all(refusal.text().as_bytes(), output) {
        Ok(()) => status,
        Err(_) => {
            write_stderr(WRITE_FAILED, errors);
            1
        }
    }
}

/// Returns the result of a run that is over.
fn ended<R, W>(status: u8, input: R, output: W, facts: RunFacts) -> ProgramRun<R, W>
    ensures { result ≡ record {
      next = Next.Ended status;
      input = input;
      output = output;
      facts = facts;
    } }
{
    ProgramRun {
        next: Next::Ended(status),
        input,
        output,
        facts,
    }
}

/// Returns the result where the rest is left to the caller.
fn left<R, W>(next: Next, input: R, output: W) -> ProgramRun<R, W>
    ensures next { result.next ≡ next }
    ensures input { result.input ≡ input }
    ensures output { result.output ≡ output }
{
    ProgramRun {
        next,
        input,
        output,
        facts: RunFacts::default(),
    }
}

/// Does what the words ask for, of which the first is the program's name, except listening, which
/// takes sockets and threads: then the settings for it are returned.
///
/// The input is read only for a replay, a conversion, statistics, the lines of a capture, counts of
/// messages by type, or to be normalised. The lines of a replay, the rows of its best lines, its
/// statistics, the converted or normalised capture, the lines of a capture, or the counts by type
/// are all that is written on the output. Before a terminal is read, standard error says so.
/// `files` are the bytes of the files of snapshots that the words name, in their order.
pub fn run<R: CaptureIn + Drop, W: TextOut + Drop, E: TextOut>(
    alloc: Global,
    words: &[String],
    terminals: Terminals,
    files: &[Vec<u8>],
    mut input: R,
    mut output: W,
    errors: &mut E,
) -> ProgramRun<R, W>
    ensures { Leads
        (record {
          reading = reading_of R.CaptureIn;
          writing = writing_of W.TextOut;
          telling = writing_of E.TextOut;
        })
        (map (λ word. string_bytes word) words.now) terminals
        (map (λ of. of.items) files.now)
        (record { input = input; output = output; errors = errors.old })
        (record { input = result.input; output = result.output; errors = errors.new })
        result.next }
{
    match settings(alloc, words) {
        Ok(Task::Run(settings)) => {
            let RunEnd {
                status,
                output,
                is_journal_full,
            } = run_settings(alloc, &settings, terminals, &mut input, output, errors);
            let facts = RunFacts {
                is_journal_full,
                refusal: None,
            };
            ended(status, input, output, facts)
        }
        Ok(Task::Convert(lines)) => {
            let lines = lines.as_slice();
            let status = run_conversion(alloc, lines, terminals, &mut input, &mut output, errors);
            ended(status, input, output, RunFacts::default())
        }
        Ok(Task::Discover(format, times)) => {
            let form = SurveyForm { format, times };
            let status = run_discovery(alloc, form, terminals, &mut input, &mut output, errors);
            ended(status, input, output, RunFacts::default())
        }
        Ok(Task::CountTypes(settings)) => {
            let (from, to) = (&mut input, &mut output);
            let status = run_types(alloc, &settings, terminals, from, to, errors);
            ended(status, input, output, RunFacts::default())
        }
        Ok(Task::Listen(settings)) => left(Next::Listens(settings), input, output),
        Ok(Task::Normalise(request)) => {
            let (from, to) = (&mut input, &mut output);
            let status = run_normalisation(alloc, &request, files, terminals, from, to, errors);
            ended(status, input, output, RunFacts::default())
        }
        Err(refusal) => {
            let status = refuse(&refusal, &mut output, errors);
            let facts = RunFacts {
                is_journal_full: false,
                refusal: Some(refusal),
            };
            ended(status, input, output, facts)
        }
    }
}
