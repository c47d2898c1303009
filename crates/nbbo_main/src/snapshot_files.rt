//! The files of snapshots that the words name.

use crate::opening::{why_unread, write_unopened};
use command_words::{Task, settings};
use std::fs::File;
use std::io::{self, Read};
use text_out::{TextOut, write_stderr};

/// The most bytes that a file of a snapshot has.
const MOST_BYTES: u64 = 1_073_741_824;

/// Returns the bytes of the file of this name, of which there are one more than the most at most.
fn bytes_of(rt: &HostRuntime, name: &str) -> io::Result<Vec<u8>> {
    let mut bytes = Vec::new(rt.alloc());
    let mut file = File::open(rt, name)?.take(MOST_BYTES + 1);
    file.read_to_end(&mut bytes)?;
    Ok(bytes)
}

/// Returns the bytes of the file of this name, or why there are none.
fn snapshot_bytes(rt: &HostRuntime, name: &str) -> Result<Vec<u8>, &'static str> {
    match bytes_of(rt, name) {
        Ok(bytes) if bytes.len() as u64 > MOST_BYTES => Err("it has more than 1073741824 bytes"),
        Ok(bytes) => Ok(bytes),
        Err(error) => Err(why_unread(error.kind())),
    }
}

/// Returns the bytes of the files of snapshots that the words name, in their order. Where one isn't
/// read standard error has why, and None is returned.
pub fn snapshot_files<E: TextOut>(
    rt: &HostRuntime,
    words: &[String],
    errors: &mut E,
) -> Option<Vec<Vec<u8>>> {
    let mut files = Vec::new(rt.alloc());
    let Ok(Task::Normalise(request)) = settings(rt.alloc(), words) else {
        return Some(files);
    };
    for file in &request.snapshots {
        let name = file.name.as_str();
        match snapshot_bytes(rt, name) {
            Ok(bytes) => {
                if files.push(bytes).is_err() {
                    write_stderr("nbbo: no memory\n", errors);
                    return None;
                }
            }
            Err(why) => {
                write_unopened("nbbo: snapshot not read: ", name, why, errors);
                return None;
            }
        }
    }
    Some(files)
}
