//! Why files aren't opened.

use std::io::ErrorKind;
use text_out::{TextOut, write_stderr};

/// Returns why a file isn't opened that is to be written, by an error of this kind.
pub fn why_unwritten(kind: ErrorKind) -> &'static str {
    match kind {
        ErrorKind::NotFound => "there is no such folder",
        ErrorKind::StorageFull => "the disk is full",
        kind => why_not(kind),
    }
}

/// Returns why a file isn't opened that is to be read, by an error of this kind.
pub fn why_unread(kind: ErrorKind) -> &'static str {
    match kind {
        ErrorKind::NotFound => "there is no such file",
        kind => why_not(kind),
    }
}

/// Returns why a file isn't opened, whatever is to be done with it.
fn why_not(kind: ErrorKind) -> &'static str {
    match kind {
        ErrorKind::PermissionDenied => "not allowed",
        ErrorKind::IsADirectory => "it is a folder",
        _ => "the system refuses it",
    }
}

/// Writes that a file isn't opened or read, as `label` says, and why.
pub fn write_unopened<E: TextOut>(label: &str, name: &str, why: &str, errors: &mut E) {
    write_stderr(label, errors);
    write_stderr(name, errors);
    write_stderr(": ", errors);
    write_stderr(why, errors);
    write_stderr("\n", errors);
}
