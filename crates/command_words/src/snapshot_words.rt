//! The files of snapshots on the command line.
ghost use Rattle.std.specs.Prelude.{◌≡◌, ◌==◌, ◌≤◌, ◌<◌, IfOk, IfSome, count_by, is_some, length, map, vec_len};
ghost use Rattle.std.specs.List.{list_all};
ghost use Rattle.command_words.specs.Readings.{Gives, OrNoMemory, mapped};
ghost use Rattle.command_words.specs.SnapshotFiles.{SnapshotsOfVenues, ReadsSnapshots, file_of, files_of, named_by, names_file, session_place, session_named, snapshots_by, venue_named};

use crate::refusal::Refusal;
use crate::sessions::{filled, is_name};
use crate::snapshot_file::SnapshotFile;
use feed_types::{SessionName, VenueId};
use std::alloc::{AllocError, Global};

/// Returns the name of the session in a text: what stands before the first `=`, or all of it.
fn session_named(text: &str) -> &str
    ensures { result.now ≡ session_named text.now }
{
    match text.split_once('=') {
        Some((session, _)) => session,
        None => text,
    }
}

/// Returns the name of the file in a text: what stands after the first `=`, or nothing.
fn file_of(text: &str) -> &str
    ensures { result.now ≡ file_of text.now }
{
    match text.split_once('=') {
        Some((_, file)) => file,
        None => "",
    }
}

/// Returns whether a text names a file.
pub fn names_file(text: &str) -> bool
    ensures { result ≡ names_file text.now }
{
    !file_of(text).is_empty()
}

/// Returns whether each of the texts names a file.
fn name_files(texts: &[&str]) -> bool
    ensures { result ≡ list_all (λ text. names_file text.now) texts.now }
{
    texts.iter().all(|text| names_file(*text))
}

/// Returns the first place at which this session is one of these.
fn session_place(sessions: &[SessionName], session: &SessionName) -> Option<usize>
    ensures place { result ≡ session_place sessions.now session.now }
    ensures few { IfSome result (λ place. place < length sessions.now) }
{
    sessions.iter().position(|other| session == other)
}

/// Returns the venue that a text names, of those with these first sessions, 16 at most.
fn venue_named(text: &str, sessions: &[SessionName]) -> Option<VenueId>
    requires { length sessions.now ≤ 16 }
    ensures venue { result ≡ venue_named sessions.now text.now }
    ensures few { IfSome result (λ venue. venue < length sessions.now) }
{
    let name = session_named(text).as_bytes();
    if !is_name(name) {
        return None;
    }
    let place = session_place(sessions, &filled(name))?;
    Some(VenueId::at(place))
}

/// Returns whether each of the texts names a venue, of those with these first sessions.
fn name_venues(texts: &[&str], sessions: &[SessionName]) -> bool
    requires { length sessions.now ≤ 16 }
    ensures { result ≡ list_all (λ text. is_some (venue_named sessions.now text.now)) texts.now }
{
    texts
        .iter()
        .all(|text| venue_named(*text, sessions).is_some())
}

/// Returns the files that the texts name for venues with these first sessions.
fn files_of(
    alloc: Global,
    texts: &[&str],
    sessions: &[SessionName],
) -> Result<Vec<SnapshotFile>, AllocError>
    requires { length sessions.now ≤ 16 }
    ensures files { IfOk result (λ files. map (λ file. named_by file) files.items
        ≡ files_of sessions.now (map (λ text. text.now) texts.now)) }
    ensures venues { IfOk result (λ files. SnapshotsOfVenues (length sessions.now) files.items) }
{
    let mut files = Vec::with_capacity(alloc, texts.len())?;
    for text in texts {
        if let Some(venue) = venue_named(*text, sessions) {
            let name = String::from_str(alloc, file_of(*text))?;
            files.push(SnapshotFile { venue, name })?;
        }
    }
    Ok(files)
}

/// Returns how many of the files are of this venue.
fn times_of(files: &[SnapshotFile], venue: VenueId) -> usize
    ensures { result ≡ count_by (λ file. file.venue == venue) files.now }
{
    let mut times = 0;
    for file in files {
        if file.venue == venue {
            times += 1;
        }
    }
    times
}

/// Returns whether each venue has one of the files at most.
fn venues_once(files: &[SnapshotFile]) -> bool
    ensures { result ≡ list_all
        (λ file. count_by (λ other. other.venue == file.venue) files.now == 1) files.now }
{
    files.iter().all(|file| times_of(files, file.venue) == 1)
}

/// Returns the files of snapshots that the texts name for venues with these first sessions.
pub fn read_snapshots(
    alloc: Global,
    texts: &[&str],
    sessions: &[SessionName],
) -> Result<Vec<SnapshotFile>, Refusal>
    requires { length sessions.now ≤ 16 }
    ensures reads { ReadsSnapshots (map (λ text. text.now) texts.now) sessions.now
        (mapped (λ files. map (λ file. named_by file) files.items) result) }
    ensures venues { IfOk result (λ files. SnapshotsOfVenues (length sessions.now) files.items) }
{
    if !name_files(texts) {
        return Err(Refusal::BadSnapshot);
    }
    if !name_venues(texts, sessions) {
        return Err(Refusal::UnknownSnapshot);
    }
    let files = files_of(alloc, texts, sessions)?;
    if !venues_once(files.as_slice()) {
        return Err(Refusal::SnapshotTwice);
    }
    Ok(files)
}
