//! What is wrong with a list of sessions or of lines on a refused command line.

use crate::limits::text;
use crate::option_values::{given_text, text_of};
use crate::quoting::{joined, quoted};
use crate::sessions::first_name;
use crate::snapshot_words::names_file;
use crate::venue_list::is_venue_name;
use clap::ArgMatches;
use feed_types::{MAX_SESSIONS, MAX_VENUES};
use std::alloc::{AllocError, Global};
use std::net::SocketAddr;

/// What a session is.
const RIGHT_SESSION: &str = "is no session: 1 to 10 characters of printable ASCII";

/// What the name of a venue is.
const RIGHT_NAME: &str = "is no name: 1 to 16 digits, letters, '-', '.' and '_'";

/// What each venue's line A is to be where frames are written to it.
const NO_DESTINATION: &str = "is no line A of IPv4, to which the frames of its venue are written";

/// Returns how many texts stand between the commas of a list.
fn count_in(list: &str) -> usize {
    let mut count: usize = 1;
    for byte in list.as_bytes() {
        if *byte == b',' {
            count = count.saturating_add(1);
        }
    }
    count
}

/// Returns whether a text is neither an IP address and port nor that of a line that isn't there.
fn is_no_line(text: &str) -> bool {
    text != "-" && SocketAddr::parse_ascii(text.as_bytes()).is_err()
}

/// Returns whether a text is no session.
fn is_no_session(text: &str) -> bool {
    let bytes = text.as_bytes();
    bytes.is_empty() || bytes.len() > 10 || bytes.iter().any(|&b| b < 0x20 || b > 0x7e)
}

/// Returns the first text of a list that is no line.
fn bad_line_in(alloc: Global, list: &str) -> Option<&str> {
    let texts: Vec<&str> = list.split(',').collect(alloc).ok()?;
    for text in texts.as_slice() {
        if is_no_line(*text) {
            return Some(*text);
        }
    }
    None
}

/// Returns the first name of a list that is no session's, where others may follow each after
/// slashes, or may not.
fn bad_session_in(alloc: Global, list: &str, chained: bool) -> Option<&str> {
    let texts: Vec<&str> = list.split(',').collect(alloc).ok()?;
    for text in texts.as_slice() {
        let name = first_name(*text, chained);
        if is_no_session(name) {
            return Some(name);
        }
    }
    None
}

/// Returns the first address of a list that stood there before.
fn second_in(alloc: Global, list: &str) -> Option<&str> {
    let texts: Vec<&str> = list.split(',').collect(alloc).ok()?;
    for place in 0..texts.len() {
        if texts[place] != "-" && texts[..place].contains(&texts[place]) {
            return Some(texts[place]);
        }
    }
    None
}

/// Returns whether both lines of a venue of a list aren't there.
fn has_bare_venue(alloc: Global, list: &str) -> bool {
    let Ok(texts): Result<Vec<&str>, AllocError> = list.split(',').collect(alloc) else {
        return false;
    };
    for venue in 0..texts.len() / 2 {
        if texts[2 * venue] == "-" && texts[2 * venue + 1] == "-" {
            return true;
        }
    }
    false
}

/// Returns the first name of a venue's sessions that is none.
fn bad_name_in<'a>(names: &[&'a str]) -> Option<&'a str> {
    for name in names {
        if is_no_session(*name) {
            return Some(*name);
        }
    }
    None
}

/// Returns the first name of a venue's sessions that stood there before, but for spaces at its end.
fn second_name_in<'a>(names: &[&'a str]) -> Option<&'a str> {
    for place in 0..names.len() {
        for earlier in 0..place {
            if names[earlier].trim_ascii_end() == names[place].trim_ascii_end() {
                return Some(names[place]);
            }
        }
    }
    None
}

/// Returns the sentence that a list has `addresses` addresses, and which number would be right.
fn count_explained(alloc: Global, addresses: usize, right: &[&str]) -> Option<String> {
    let addresses = addresses.to_string(alloc).ok()?;
    let mut text = joined(
        alloc,
        &["nbbo: --lines: ", addresses.as_str(), " addresses"],
    )
    .ok()?;
    for part in right {
        text.push_str(*part).ok()?;
    }
    Some(text)
}

/// Returns what is wrong with the number of addresses of a list of lines, if anything is.
fn lines_counted(alloc: Global, options: &ArgMatches<'_>, addresses: usize) -> Option<String> {
    match given_text(options, "sessions") {
        Some(sessions) => {
            let sessions = count_in(sessions);
            if addresses == sessions.saturating_mul(2) {
                return None;
            }
            let sessions = sessions.to_string(alloc).ok()?;
            let right = [
                " for ",
                sessions.as_str(),
                " sessions, which have two each\n",
            ];
            count_explained(alloc, addresses, right.as_slice())
        }
        None if addresses % 2 == 0 && addresses <= 2 * MAX_VENUES => None,
        None => {
            let right = text!(", which isn't two for each of 1 to " MAX_VENUES " venues\n");
            count_explained(alloc, addresses, &[right])
        }
    }
}

/// Returns the first address of a list that stands for line A of a venue and is none of IPv4.
fn destination_lacked(alloc: Global, list: &str) -> Option<&str> {
    let texts: Vec<&str> = list.split(',').collect(alloc).ok()?;
    for place in 0..texts.len() {
        if place % 2 == 0 && (texts[place] == "-" || texts[place].starts_with('[')) {
            return Some(texts[place]);
        }
    }
    None
}

/// Returns what is wrong with a list of lines for these sessions.
pub fn lines_explained(alloc: Global, command: &str, options: &ArgMatches<'_>) -> Option<String> {
    let lines = text_of(options, "lines");
    if let Some(text) = lines_counted(alloc, options, count_in(lines)) {
        return Some(text);
    }
    if let Some(text) = bad_line_in(alloc, lines) {
        return quoted(alloc, "--lines: ", text, "is no IP address and port").ok();
    }
    if has_bare_venue(alloc, lines) {
        return quoted(alloc, "--lines: ", "-,-", "leaves a venue without a line").ok();
    }
    if let Some(text) = second_in(alloc, lines) {
        return quoted(alloc, "--lines: ", text, "stands there twice").ok();
    }
    if command != "normalise" {
        return None;
    }
    quoted(
        alloc,
        "--lines: ",
        destination_lacked(alloc, lines)?,
        NO_DESTINATION,
    )
    .ok()
}

/// Returns what is wrong with a list of sessions.
pub fn sessions_explained(alloc: Global, options: &ArgMatches<'_>) -> Option<String> {
    let chained = given_text(options, "lines").is_some();
    let text = bad_session_in(alloc, text_of(options, "sessions"), chained)?;
    quoted(alloc, "--sessions: ", text, RIGHT_SESSION).ok()
}

/// Returns what is wrong with the number of names of a list of venues, if anything is.
fn names_counted(alloc: Global, names: usize, sessions: usize) -> Option<String> {
    if names == sessions {
        return None;
    }
    let names = names.to_string(alloc).ok()?;
    let sessions = sessions.to_string(alloc).ok()?;
    let parts = [
        "nbbo: --venues: ",
        names.as_str(),
        " names for ",
        sessions.as_str(),
        " sessions, which have one each\n",
    ];
    joined(alloc, parts.as_slice()).ok()
}

/// Returns what is wrong with a list of venues' names.
pub fn venues_explained(alloc: Global, options: &ArgMatches<'_>) -> Option<String> {
    let names: Vec<&str> = text_of(options, "venues").split(',').collect(alloc).ok()?;
    let sessions = count_in(text_of(options, "sessions"));
    if let Some(text) = names_counted(alloc, names.len(), sessions) {
        return Some(text);
    }
    for place in 0..names.len() {
        if !is_venue_name(names[place].as_bytes()) {
            return quoted(alloc, "--venues: ", names[place], RIGHT_NAME).ok();
        }
        if names[..place].contains(&names[place]) {
            return quoted(alloc, "--venues: ", names[place], "stands there twice").ok();
        }
    }
    None
}

/// Returns what is wrong with the texts that name files of snapshots.
pub fn snapshots_explained(alloc: Global, options: &ArgMatches<'_>) -> Option<String> {
    for text in options.get_strs("snapshot")? {
        if !names_file(*text) {
            return quoted(alloc, "--snapshot: ", *text, "isn't VENUE=FILE").ok();
        }
    }
    None
}

/// Returns what is wrong with the sessions of one venue, if anything is.
fn chain_explained(alloc: Global, text: &str) -> Option<String> {
    let names: Vec<&str> = text.split('/').collect(alloc).ok()?;
    if names.len() > MAX_SESSIONS {
        let right = text!("has more than " MAX_SESSIONS " sessions of a venue");
        return quoted(alloc, "--sessions: ", text, right).ok();
    }
    if let Some(name) = bad_name_in(names.as_slice()) {
        return quoted(alloc, "--sessions: ", name, RIGHT_SESSION).ok();
    }
    let name = second_name_in(names.as_slice())?;
    quoted(alloc, "--sessions: ", name, "is named twice of a venue").ok()
}

/// Returns what is wrong with the sessions that follow others.
pub fn next_explained(alloc: Global, options: &ArgMatches<'_>) -> Option<String> {
    let texts: Vec<&str> = text_of(options, "sessions").split(',').collect(alloc).ok()?;
    for text in texts.as_slice() {
        if let Some(explained) = chain_explained(alloc, *text) {
            return Some(explained);
        }
    }
    None
}
