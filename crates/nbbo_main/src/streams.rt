//! What is read and written: the standard streams, or files in place of them.

use crate::opening::{why_unread, why_unwritten, write_unopened};
use command_words::StreamFiles;
use std::fs::{File, Metadata};
use std::io::{self, ErrorKind, Read, Stdin, Stdout, Write};
use std::os::unix::fs::MetadataExt;
use text_out::TextOut;

/// What is read.
#[derive(Drop)]
pub enum InputStream {
    /// Standard input.
    Standard(Stdin),
    /// A file in place of it.
    Named(File),
}

impl Read for InputStream {
    fn read(&mut self, buf: &mut [u8]) -> io::Result<usize> {
        match self {
            InputStream::Standard(input) => input.read(buf),
            InputStream::Named(file) => file.read(buf),
        }
    }
}

/// What is written.
#[derive(Drop)]
pub enum OutputStream {
    /// Standard output.
    Standard(Stdout),
    /// A file in place of it.
    Named(File),
}

impl Write for OutputStream {
    fn write(&mut self, bytes: &[u8]) -> io::Result<usize> {
        match self {
            OutputStream::Standard(output) => output.write(bytes),
            OutputStream::Named(file) => file.write(bytes),
        }
    }

    fn flush(&mut self) -> io::Result<()> {
        match self {
            OutputStream::Standard(output) => output.flush(),
            OutputStream::Named(file) => file.flush(),
        }
    }
}

/// Why a file isn't written.
enum OutputFault {
    /// The system refuses it.
    Refused(ErrorKind),
    /// It is the file that is read.
    IsInput,
}

/// Opens a file to be read. A folder is opened by no call.
fn open_input(rt: &HostRuntime, name: &str) -> io::Result<File> {
    let file = File::open(rt, name)?;
    if file.metadata()?.is_dir() {
        return Err(ErrorKind::IsADirectory.into());
    }
    Ok(file)
}

/// Returns whether both are one file.
fn is_same(one: &Metadata, other: &Metadata) -> bool {
    one.dev() == other.dev() && one.ino() == other.ino()
}

/// Opens a file to be written anew, which isn't the one that is read. One that is no file on a
/// disk, as a pipe, is opened as it is.
fn open_output(rt: &HostRuntime, name: &str, input: Option<&File>) -> Result<File, OutputFault> {
    let file = File::options().write(true).create(true).open(rt, name)?;
    let written = file.metadata()?;
    if !written.is_file() {
        return Ok(file);
    }
    if let Some(input) = input {
        if is_same(&input.metadata()?, &written) {
            return Err(OutputFault::IsInput);
        }
    }
    file.set_len(0)?;
    Ok(file)
}

impl From<io::Error> for OutputFault {
    fn from(error: io::Error) -> OutputFault {
        OutputFault::Refused(error.kind())
    }
}

/// Opens the file that is read, or takes standard input. Where it isn't opened standard error has
/// why, and None is returned.
fn opened_input<E: TextOut>(
    rt: &HostRuntime,
    name: &Option<String>,
    errors: &mut E,
) -> Option<InputStream> {
    let Some(name) = name else {
        return Some(InputStream::Standard(rt.stdin()));
    };
    match open_input(rt, name.as_str()) {
        Ok(file) => Some(InputStream::Named(file)),
        Err(error) => {
            let why = why_unread(error.kind());
            write_unopened("nbbo: input not opened: ", name.as_str(), why, errors);
            None
        }
    }
}

/// Opens the file that is written, or takes standard output. Where it isn't opened standard error
/// has why, and None is returned.
fn opened_output<E: TextOut>(
    rt: &HostRuntime,
    name: &Option<String>,
    input: &InputStream,
    errors: &mut E,
) -> Option<OutputStream> {
    let Some(name) = name else {
        return Some(OutputStream::Standard(rt.stdout()));
    };
    let input = match input {
        InputStream::Standard(_) => None,
        InputStream::Named(file) => Some(file),
    };
    match open_output(rt, name.as_str(), input) {
        Ok(file) => Some(OutputStream::Named(file)),
        Err(fault) => {
            let why = match fault {
                OutputFault::Refused(kind) => why_unwritten(kind),
                OutputFault::IsInput => "it is the file that is read",
            };
            write_unopened("nbbo: output not opened: ", name.as_str(), why, errors);
            None
        }
    }
}

/// Opens what is read and then what is written. Where one isn't opened standard error has why, and
/// None is returned.
pub fn opened_streams<E: TextOut>(
    rt: &HostRuntime,
    files: &StreamFiles,
    errors: &mut E,
) -> Option<(InputStream, OutputStream)> {
    let input = opened_input(rt, &files.input, errors)?;
    let output = opened_output(rt, &files.output, &input, errors)?;
    Some((input, output))
}
