//! The requests of the words of the command line.
ghost use Rattle.std.specs.Prelude.{◌≡◌, IfErr, IfOk, OnOk, map, option_map, string_bytes};
ghost use Rattle.clap.specs.Matches.{found_of};
ghost use Rattle.clap.specs.Simple.{subcommand_of, subcommand_rows_of};
ghost use Rattle.clap.specs.Values.{kind_of};
ghost use Rattle.clap.specs.Walk.{rows_of};
ghost use Rattle.command_words.specs.CommandLine.{IsAccepted, IsOfVenues, IsRefusedByClap, NamesStreams, ReadsConversion, ReadsDiscovery, ReadsStatsTask, ReadsTask, ReadsWords, RefusesBy};
ghost use Rattle.command_words.specs.Commands.{nbbo_app};
ghost use Rattle.command_words.specs.ListenRequests.{ReadsListening};
ghost use Rattle.command_words.specs.NormaliseRequests.{ReadsNormalising};
ghost use Rattle.command_words.specs.OptionValues.{rows_of_command};
ghost use Rattle.command_words.specs.Readings.{Gives, Then};
ghost use Rattle.command_words.specs.RunRequests.{ReadsReplay, ReadsStats};
ghost use Rattle.command_words.specs.TypeRequests.{ReadsTypes};

use crate::captured_lines::read_all_lines;
use crate::commands::nbbo_command;
use crate::listen_words::listening_of;
use crate::normalise_words::normalising_of;
use crate::option_values::{flag_of, given_text, text_of};
use crate::refusal::Refusal;
use crate::run_words::{replay_of, stats_of};
use crate::stats_format::read_stats_format;
use crate::streams::{StreamFiles, streams_of};
use crate::task::Task;
use crate::time_style::read_time_style;
use crate::type_words::types_of;
use clap::error::ErrorKind;
use clap::{ArgMatches, Error};
use std::alloc::Global;

/// Returns the refusal for an error of the parser.
fn refusal_of(alloc: Global, error: &Error) -> Refusal
    ensures { RefusesBy (kind_of error.now) result }
{
    let kind = error.kind();
    if kind == ErrorKind::OutOfMemory {
        return Refusal::NoMemory;
    }
    match error.to_string(alloc) {
        Ok(text) if kind == ErrorKind::DisplayHelp || kind == ErrorKind::DisplayVersion => {
            Refusal::Shown(text)
        }
        Ok(text) => Refusal::Usage(text),
        Err(_) => Refusal::NoMemory,
    }
}

/// Returns the values that the words give to the commands and their options.
pub(crate) fn parsed<'a>(alloc: Global, words: &'a [String]) -> Result<ArgMatches<'a>, Refusal>
    ensures taken { OnOk result (IsAccepted (map (λ word. string_bytes word) words.entry.now)) }
    ensures values { IfOk result (λ m.
        subcommand_rows_of m
        ≡ subcommand_of nbbo_app (map (λ word. string_bytes word) words.entry.now)) }
    ensures refused { IfErr result (IsRefusedByClap
        (map (λ word. string_bytes word) words.entry.now)) }
{
    match nbbo_command(alloc)?.try_get_matches_from(words) {
        Ok(matches) => Ok(matches),
        Err(error) => Err(refusal_of(alloc, &error)),
    }
}

/// Returns the values of the options of the command of this name, where that is the subcommand.
fn options_of<'m, 'a>(matches: &'m ArgMatches<'a>, command: &str) -> Option<&'m ArgMatches<'a>>
    ensures { option_map (λ options. rows_of (found_of options.now)) result
        ≡ rows_of_command command.now (subcommand_rows_of matches.entry.now) }
{
    matches.subcommand_matches(command)
}

/// Returns the run of `listen` for which its options ask.
fn listening_task(alloc: Global, listen: &ArgMatches<'_>) -> Result<Task, Refusal>
    ensures reads { Then (ReadsListening (rows_of (found_of listen.now)))
        (λ settings. Gives (Ok (Task.Listen settings))) result }
    ensures venues { IfOk result IsOfVenues }
{
    Ok(Task::Listen(listening_of(alloc, listen)?))
}

/// Returns the run of `replay` for which its options ask.
fn replay_task(alloc: Global, replay: &ArgMatches<'_>) -> Result<Task, Refusal>
    ensures reads { Then (ReadsReplay (rows_of (found_of replay.now)))
        (λ settings. Gives (Ok (Task.Run settings))) result }
    ensures venues { IfOk result IsOfVenues }
{
    Ok(Task::Run(replay_of(alloc, replay)?))
}

/// Returns the counts by type for which the options of `stats` ask.
fn types_task(alloc: Global, stats: &ArgMatches<'_>) -> Result<Task, Refusal>
    ensures reads { Then (ReadsTypes (rows_of (found_of stats.now)))
        (λ settings. Gives (Ok (Task.CountTypes settings))) result }
    ensures venues { IfOk result IsOfVenues }
{
    Ok(Task::CountTypes(types_of(alloc, stats)?))
}

/// Returns the run of `stats` for which its options ask.
fn report_task(alloc: Global, stats: &ArgMatches<'_>) -> Result<Task, Refusal>
    ensures reads { Then (ReadsStats (rows_of (found_of stats.now)))
        (λ settings. Gives (Ok (Task.Run settings))) result }
    ensures venues { IfOk result IsOfVenues }
{
    Ok(Task::Run(stats_of(alloc, stats)?))
}

/// Returns the task of `stats` for which its options ask.
fn stats_task(alloc: Global, stats: &ArgMatches<'_>) -> Result<Task, Refusal>
    ensures reads { ReadsStatsTask (rows_of (found_of stats.now)) result }
    ensures venues { IfOk result IsOfVenues }
{
    if flag_of(stats, "types") {
        return types_task(alloc, stats);
    }
    report_task(alloc, stats)
}

/// Returns the run of `normalise` for which its options ask.
fn normalising_task(alloc: Global, normalise: &ArgMatches<'_>) -> Result<Task, Refusal>
    ensures reads { Then (ReadsNormalising (rows_of (found_of normalise.now)))
        (λ request. Gives (Ok (Task.Normalise request))) result }
    ensures venues { IfOk result IsOfVenues }
{
    Ok(Task::Normalise(normalising_of(alloc, normalise)?))
}

/// Returns the conversion for which the options of `convert` ask.
fn conversion_of(alloc: Global, convert: &ArgMatches<'_>) -> Result<Task, Refusal>
    ensures reads { ReadsConversion (rows_of (found_of convert.now)) result }
    ensures venues { IfOk result IsOfVenues }
{
    Ok(Task::Convert(read_all_lines(alloc, text_of(convert, "lines"))?))
}

/// Returns the list of lines for which the options of `lines` ask.
fn discovery_of(lines: &ArgMatches<'_>) -> Result<Task, Refusal>
    ensures { ReadsDiscovery (rows_of (found_of lines.now)) result }
{
    let format = read_stats_format(given_text(lines, "format"))?;
    let times = read_time_style(given_text(lines, "times"))?;
    Ok(Task::Discover(format, times))
}

/// Returns the task of the subcommand.
fn task_of(alloc: Global, matches: &ArgMatches<'_>) -> Result<Task, Refusal>
    ensures reads { ReadsTask (subcommand_rows_of matches.now) result }
    ensures venues { IfOk result IsOfVenues }
{
    if let Some(listen) = options_of(matches, "listen") {
        return listening_task(alloc, listen);
    }
    if let Some(convert) = options_of(matches, "convert") {
        return conversion_of(alloc, convert);
    }
    if let Some(stats) = options_of(matches, "stats") {
        return stats_task(alloc, stats);
    }
    if let Some(normalise) = options_of(matches, "normalise") {
        return normalising_task(alloc, normalise);
    }
    if let Some(lines) = options_of(matches, "lines") {
        return discovery_of(lines);
    }
    match options_of(matches, "replay") {
        Some(replay) => replay_task(alloc, replay),
        // Without a command there is no list of sessions either.
        None => Err(Refusal::BadSession),
    }
}

/// Returns the task that the words ask for, of which the first is the program's name, or why they
/// are refused. The lines that are converted are of at most 16 venues.
pub fn settings(alloc: Global, words: &[String]) -> Result<Task, Refusal>
    ensures reads { ReadsWords (map (λ word. string_bytes word) words.now) result }
    ensures venues { IfOk result IsOfVenues }
{
    task_of(alloc, &parsed(alloc, words)?)
}

/// Returns the files that the words name for standard input and standard output, or why they are
/// refused.
pub fn stream_files(alloc: Global, words: &[String]) -> Result<StreamFiles, Refusal>
    ensures { NamesStreams (map (λ word. string_bytes word) words.now) result }
{
    streams_of(alloc, &parsed(alloc, words)?)
}
