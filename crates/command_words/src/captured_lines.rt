//! The lines of a packet capture on the command line.
ghost use Rattle.std.specs.Prelude.{◌≤◌, IfOk, option_map};
ghost use Rattle.run_settings.specs.Lists.{AreOfVenues};
ghost use Rattle.run_settings.specs.RunInputs.{captured_lines_in};
ghost use Rattle.command_words.specs.CapturedLines.{ReadsAllLines, ReadsCapturedLines, ReadsInput};
ghost use Rattle.command_words.specs.Readings.{mapped};

use crate::addresses::read_lines;
use crate::refusal::Refusal;
use feed_types::MAX_VENUES;
use run_settings::{CapturedLine, RunInput, are_apart, lines_at};
use std::alloc::Global;

/// Returns the lines that a list names, two for each of `venues` venues, where no two are of one
/// address and port.
fn read_captured_lines(
    alloc: Global,
    list: &str,
    venues: usize,
) -> Result<Vec<CapturedLine>, Refusal>
    requires { venues ≤ 16 }
    ensures reads { ReadsCapturedLines list.now venues (mapped (λ lines. lines.items) result) }
    ensures venues { IfOk result (λ lines. AreOfVenues venues lines.items) }
{
    let addresses = read_lines(alloc, list, venues)?;
    let lines = lines_at(alloc, addresses.as_slice())?;
    if !are_apart(lines.as_slice()) {
        return Err(Refusal::BadLines);
    }
    Ok(lines)
}

/// Returns the input for `venues` venues: a packet capture where a list of its lines is given.
pub fn read_input(alloc: Global, list: Option<&str>, venues: usize) -> Result<RunInput, Refusal>
    requires { venues ≤ 16 }
    ensures reads { ReadsInput (option_map (λ list. list.now) list.entry) venues result }
    ensures venues { IfOk result (λ input. AreOfVenues venues (captured_lines_in input)) }
{
    match list {
        Some(list) => Ok(RunInput::Packets(read_captured_lines(alloc, list, venues)?)),
        None => Ok(RunInput::Own),
    }
}

/// Returns the lines that a list names, two for each of as many venues as it has addresses for.
pub fn read_all_lines(alloc: Global, list: &str) -> Result<Vec<CapturedLine>, Refusal>
    ensures reads { ReadsAllLines list.now (mapped (λ lines. lines.items) result) }
    ensures venues { IfOk result (λ lines. AreOfVenues 16 lines.items) }
{
    for fewer in 0..MAX_VENUES {
        match read_captured_lines(alloc, list, fewer + 1) {
            Ok(lines) => return Ok(lines),
            Err(Refusal::BadLines) => {}
            Err(_) => return Err(Refusal::NoMemory),
        }
    }
    Err(Refusal::BadLines)
}
