//! The snapshots with which venues' first sessions begin.
ghost use Rattle.text_out.specs.Members.{writing_of};
ghost use Rattle.text_out.specs.StandardError.{SaysEach};
ghost use Rattle.std.specs.Prelude.{◌≡◌, ◌≤◌, IfNone, IfSome, length, map, option_map, Some};
ghost use Rattle.nbbo_runs.specs.Snapshots.{AreRefused, AreSnapshots, IsBadFile, IsSnapshotOf, file_names, given_bytes, snapshot_fault_texts, snapshot_texts};
ghost use Rattle.nbbo_runs.specs.Streams.{SaysSome};

use command_words::SnapshotFile;
use feed_types::VenueId;
use std::alloc::Global;
use text_out::{TextOut, write_number, write_stderr};
use venue_normaliser::{Snapshot, SnapshotFault, read_snapshot};

/// Writes what is wrong with the file of this name, and at which byte, counted from 0.
fn write_wrong<E: TextOut>(name: &str, what: &str, byte: usize, errors: &mut E)
    ensures { SaysEach (writing_of E.TextOut)
        (snapshot_texts name.now what.now byte) errors.old errors.new }
{
    write_stderr("nbbo: snapshot ", errors);
    write_stderr(name, errors);
    write_stderr(what, errors);
    write_number(byte as u64, errors);
    write_stderr("\n", errors);
}

/// Writes why the file of this name is no snapshot.
fn write_snapshot_fault<E: TextOut>(name: &str, fault: SnapshotFault, errors: &mut E)
    ensures { SaysEach (writing_of E.TextOut)
        (snapshot_fault_texts name.now fault) errors.old errors.new }
{
    match fault {
        SnapshotFault::Cut { byte } => {
            write_wrong(name, ": a message is cut at byte ", byte, errors)
        }
        SnapshotFault::NoEnd { byte } => {
            write_wrong(
                name,
                ": no End of Snapshot, message G, at byte ",
                byte,
                errors,
            )
        }
        SnapshotFault::NotOfSnapshot { byte } => {
            write_wrong(name, ": no message of a snapshot at byte ", byte, errors)
        }
        SnapshotFault::BadNumber { byte } => write_wrong(
            name,
            ": no number from 1 to 4294967295 in the End of Snapshot at byte ",
            byte,
            errors,
        ),
        SnapshotFault::AfterEnd { byte } => {
            write_wrong(
                name,
                ": more bytes after the End of Snapshot at byte ",
                byte,
                errors,
            )
        }
    }
}

/// Returns the name of the first file that is of the venue, and its bytes, if there is one.
fn file_of<'f>(
    files: &'f [SnapshotFile],
    bytes: &'f [Vec<u8>],
    venue: VenueId,
) -> Option<(&'f str, &'f [u8])>
    ensures given { option_map (λ file. file.1.now) result
        ≡ given_bytes files.now (map (λ of. of.items) bytes.now) venue }
    ensures named { IfSome result (λ file.
        given_bytes files.now (file_names files.now) venue ≡ Some file.0.now) }
{
    for (place, file) in files.iter().enumerate() {
        if file.venue == venue {
            return match bytes.get(place) {
                Some(found) => Some((file.name.as_str(), found.as_slice())),
                None => None,
            };
        }
    }
    None
}

/// Returns the snapshot of a venue, if it has one. Where its bytes are none standard error has why,
/// and None is returned.
fn read_venue<'f, E: TextOut>(
    files: &'f [SnapshotFile],
    bytes: &'f [Vec<u8>],
    venue: VenueId,
    errors: &mut E,
) -> Option<Option<Snapshot<'f>>>
    ensures read { IfSome result (IsSnapshotOf
        (given_bytes files.now (map (λ of. of.items) bytes.now) venue)) }
    ensures quiet { IfSome result (λ given. errors.new ≡ errors.old) }
    ensures refused { IfNone result (SaysSome (writing_of E.TextOut)
        (IsBadFile files.now (map (λ of. of.items) bytes.now) venue) errors.old errors.new) }
{
    let Some((name, found)) = file_of(files, bytes, venue) else {
        return Some(None);
    };
    match read_snapshot(found) {
        Ok(snapshot) => Some(Some(snapshot)),
        Err(fault) => {
            write_snapshot_fault(name, fault, errors);
            None
        }
    }
}

/// Returns the snapshots of this many venues, 16 at most, by the bytes of their files. Where one is
/// bad, or memory was refused, standard error has why, and None is returned.
pub fn snapshots_of<'f, E: TextOut>(
    alloc: Global,
    files: &'f [SnapshotFile],
    bytes: &'f [Vec<u8>],
    venues: usize,
    errors: &mut E,
) -> Option<Vec<Option<Snapshot<'f>>>>
    requires { venues ≤ 16 }
    ensures read { IfSome result (λ given.
        AreSnapshots files.now (map (λ of. of.items) bytes.now) venues given.items) }
    ensures quiet { IfSome result (λ given. errors.new ≡ errors.old) }
    ensures refused { IfNone result (SaysSome (writing_of E.TextOut)
        (AreRefused files.now (map (λ of. of.items) bytes.now) venues) errors.old errors.new) }
{
    if files.len() != bytes.len() {
        write_stderr("nbbo: snapshots not read\n", errors);
        return None;
    }
    let mut given = Vec::new(alloc);
    for place in 0..venues {
        let snapshot = read_venue(files, bytes, VenueId::at(place), errors)?;
        match given.push(snapshot) {
            Ok(()) => {}
            Err(_) => {
                write_stderr("nbbo: no memory\n", errors);
                return None;
            }
        }
    }
    Some(given)
}
