//! What is wrong with the words of a command line that is refused, and what would be right.
//!
//! It is told beside the refusal's own text, and no clause speaks of it.

use crate::command_line::parsed;
use crate::explained_lists::{
    lines_explained, next_explained, sessions_explained, snapshots_explained, venues_explained,
};
use crate::option_values::{flag_of, given_text};
use crate::quoting::{joined, quoted};
use crate::refusal::Refusal;
use crate::time_words::read_time;
use clap::ArgMatches;
use feed_types::SymbolName;
use std::alloc::{AllocError, Global};

/// The commands with options, of which the words are explained.
const COMMANDS: [&str; 6] = ["replay", "stats", "listen", "convert", "normalise", "lines"];

/// The options of `replay` that have a value, beside those for which the refusal has one line
/// alone.
const REPLAY_OPTIONS: [&str; 8] = [
    "skip-after",
    "from",
    "to",
    "format",
    "times",
    "venues",
    "input",
    "output",
];

/// The flags of `replay`, but for that of gap lines.
const REPLAY_FLAGS: [&str; 3] = ["join", "skip-gaps", "best-only"];

/// The options of `listen` that have a value, beside those for which the refusal has one line
/// alone.
const LISTEN_OPTIONS: [&str; 17] = [
    "request-after",
    "senders",
    "from",
    "most-ahead",
    "skip-after",
    "buffer",
    "end",
    "seconds",
    "silent-after",
    "record",
    "kept",
    "format",
    "times",
    "venues",
    "stats",
    "stats-format",
    "metrics",
];

/// The flags of `listen`.
const LISTEN_FLAGS: [&str; 4] = ["join", "complete", "until-input-ends", "follow"];

/// Returns the options of the command that the words ask for, and its name.
fn command_of<'m, 'a>(matches: &'m ArgMatches<'a>) -> Option<(&'static str, &'m ArgMatches<'a>)> {
    for command in COMMANDS {
        if let Some(options) = matches.subcommand_matches(command) {
            return Some((command, options));
        }
    }
    None
}

/// Returns whether one of these options or flags is given.
fn has_any(matches: &ArgMatches<'_>, options: &[&str], flags: &[&str]) -> bool {
    options
        .iter()
        .any(|name| given_text(matches, *name).is_some())
        || flags.iter().any(|name| flag_of(matches, *name))
}

/// Returns whether the command has options for which a refusal has one line alone.
fn is_plain(command: &str, matches: &ArgMatches<'_>) -> bool {
    if command == "listen" {
        return !has_any(matches, LISTEN_OPTIONS.as_slice(), LISTEN_FLAGS.as_slice());
    }
    command == "replay"
        && given_text(matches, "lines").is_none()
        && !has_any(matches, REPLAY_OPTIONS.as_slice(), REPLAY_FLAGS.as_slice())
}

/// Returns what is wrong with a list of senders, by the name by which it is given.
fn senders_explained(alloc: Global, options: &ArgMatches<'_>) -> Option<String> {
    let right = "isn't IP addresses, with or without a port";
    let name = if given_text(options, "senders").is_some() {
        "senders"
    } else {
        "from"
    };
    value_explained(alloc, options, name, right)
}

/// Returns what is wrong with the words for symbols.
fn symbols_explained(alloc: Global, options: &ArgMatches<'_>) -> Option<String> {
    let right = "is no symbol: 1 to 8 characters of printable ASCII without a space";
    for word in options.get_strs("symbols")? {
        if SymbolName::from_text(word.as_bytes()).is_none() {
            return quoted(alloc, "", *word, right).ok();
        }
    }
    None
}

/// Returns which symbol is named twice.
fn double_explained(alloc: Global, options: &ArgMatches<'_>) -> Option<String> {
    let words = options.get_strs("symbols")?;
    for place in 0..words.len() {
        if words[..place].contains(&words[place]) {
            return quoted(alloc, "", words[place], "is named twice").ok();
        }
    }
    None
}

/// Returns which formats a command has.
fn formats_of(command: &str, options: &ArgMatches<'_>) -> &'static str {
    if command == "lines" || given_text(options, "stats-format").is_some() {
        "is neither table nor json"
    } else if command != "stats" {
        "is none of text, csv and json"
    } else if flag_of(options, "gaps") || given_text(options, "every").is_some() {
        "is neither csv nor json"
    } else {
        "is none of table, csv and json"
    }
}

/// Returns what is wrong with a format.
fn format_explained(alloc: Global, command: &str, options: &ArgMatches<'_>) -> Option<String> {
    if command == "replay" && !flag_of(options, "best-only") {
        return joined(alloc, &["nbbo: --format without --best-only\n"]).ok();
    }
    let right = formats_of(command, options);
    if let Some(text) = given_text(options, "stats-format") {
        if given_text(options, "stats").is_none() {
            return joined(alloc, &["nbbo: --stats-format without --stats\n"]).ok();
        }
        return quoted(alloc, "--stats-format: ", text, right).ok();
    }
    quoted(alloc, "--format: ", given_text(options, "format")?, right).ok()
}

/// Returns which of the two times of a span is none.
fn time_explained(alloc: Global, options: &ArgMatches<'_>) -> Option<String> {
    let right = "is no time: as 2026-11-28T14:30:00Z, or 1795876200.000000000 as rows have it";
    if let Some(text) = given_text(options, "from") {
        if read_time(text).is_none() {
            return quoted(alloc, "--from: ", text, right).ok();
        }
    }
    quoted(alloc, "--to: ", given_text(options, "to")?, right).ok()
}

/// Returns what is wrong with the value of an option, and what it takes.
fn value_explained(
    alloc: Global,
    options: &ArgMatches<'_>,
    name: &str,
    right: &str,
) -> Option<String> {
    let label = joined(alloc, &["--", name, ": "]).ok()?;
    quoted(alloc, label.as_str(), given_text(options, name)?, right).ok()
}

/// Returns what is wrong with the values of options that are refused so, if more is to be said.
fn explained(
    alloc: Global,
    command: &str,
    options: &ArgMatches<'_>,
    refusal: &Refusal,
) -> Option<String> {
    let address = "is no IP address and port";
    let asked = "is no IP address and port that each line can send to";
    let period = "is no period: as 100ms or 1s, from 1ms to 3600s";
    match refusal {
        Refusal::BadSession => sessions_explained(alloc, options),
        Refusal::BadNextSession => next_explained(alloc, options),
        Refusal::BadLines => lines_explained(alloc, command, options),
        Refusal::BadVenues => venues_explained(alloc, options),
        Refusal::BadSnapshot => snapshots_explained(alloc, options),
        Refusal::BadSymbol => symbols_explained(alloc, options),
        Refusal::DuplicateSymbol => double_explained(alloc, options),
        Refusal::BadFormat => format_explained(alloc, command, options),
        Refusal::BadTime => time_explained(alloc, options),
        Refusal::BadPeriod => value_explained(alloc, options, "every", period),
        Refusal::BadTimeStyle => {
            value_explained(alloc, options, "times", "is neither seconds nor utc")
        }
        Refusal::BadEnd => {
            value_explained(alloc, options, "end", "is neither any nor own nor none")
        }
        Refusal::BadRequest => value_explained(alloc, options, "request", asked),
        Refusal::BadSender => senders_explained(alloc, options),
        Refusal::BadRecording => value_explained(alloc, options, "record", "is no file's name"),
        Refusal::BadMetrics => value_explained(alloc, options, "metrics", address),
        Refusal::BadEndNumber => {
            value_explained(alloc, options, "end-number", "is neither next nor last")
        }
        Refusal::BadInput => value_explained(alloc, options, "input", "is no file's name"),
        Refusal::BadOutput => value_explained(alloc, options, "output", "is no file's name"),
        _ => None,
    }
}

/// Returns what is wrong with words that are refused so, and what would be right, where more is to
/// be said than the refusal's own line.
pub fn explanation_of(alloc: Global, words: &[String], refusal: &Refusal) -> Option<String> {
    let matches = parsed(alloc, words).ok()?;
    let (command, options) = command_of(&matches)?;
    if is_plain(command, options) {
        return None;
    }
    explained(alloc, command, options, refusal)
}

/// Returns the words that are to name symbols. Fails where memory is refused.
pub fn symbol_words(alloc: Global, words: &[String]) -> Result<Vec<&str>, AllocError> {
    let mut symbols = Vec::new(alloc);
    if let Ok(matches) = parsed(alloc, words) {
        if let Some((_, options)) = command_of(&matches) {
            if let Some(found) = options.get_strs("symbols") {
                symbols.extend_from_slice(found)?;
            }
        }
    }
    Ok(symbols)
}
