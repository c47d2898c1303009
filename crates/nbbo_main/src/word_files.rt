//! The words of the command line, those that stand in files among them.

use crate::opening::{why_unread, write_unopened};
use command_words::{WordSource, file_named, words_of_sources};
use std::alloc::AllocError;
use std::env;
use std::fs::File;
use std::io::{self, ErrorKind, Read};
use text_out::TextOut;

/// The most bytes that a file of words has.
const MOST_BYTES: u64 = 1_048_576;

/// Why the words aren't read.
#[derive(Drop)]
pub enum WordsFault {
    /// Since the system's words aren't read, by an error of this kind.
    Unread(ErrorKind),
    /// Since the file of this name isn't read, and why.
    File(String, &'static str),
}

impl From<AllocError> for WordsFault {
    fn from(_error: AllocError) -> WordsFault {
        WordsFault::Unread(ErrorKind::OutOfMemory)
    }
}

/// Returns the bytes of the file of this name, of which there are one more than the most at most.
fn bytes_of(rt: &HostRuntime, name: &str) -> io::Result<Vec<u8>> {
    let mut bytes = Vec::new(rt.alloc());
    let mut file = File::open(rt, name)?.take(MOST_BYTES + 1);
    file.read_to_end(&mut bytes)?;
    Ok(bytes)
}

/// Returns the text of the file of this name.
fn text_of(rt: &HostRuntime, name: &str) -> Result<String, &'static str> {
    let bytes = match bytes_of(rt, name) {
        Ok(bytes) => bytes,
        Err(error) => return Err(why_unread(error.kind())),
    };
    if bytes.len() as u64 > MOST_BYTES {
        return Err("it has more than 1048576 bytes");
    }
    match String::from_utf8(bytes) {
        Ok(text) => Ok(text),
        Err(_) => Err("it is not UTF-8"),
    }
}

/// Returns what stands in place of a word of which none before is `--`.
fn source_of(rt: &HostRuntime, word: String) -> Result<WordSource, WordsFault> {
    let text = match file_named(word.as_str()) {
        None => None,
        Some(name) => match text_of(rt, name) {
            Ok(text) => Some(text),
            Err(why) => return Err(WordsFault::File(String::from_str(rt.alloc(), name)?, why)),
        },
    };
    Ok(match text {
        Some(text) => WordSource::Lines(text),
        None => WordSource::Word(word),
    })
}

/// Returns the words after the program's name and these, where a file's lines stand in place of a
/// word that names it, unless that stands after `--`.
fn sources_of(rt: &HostRuntime, words: Vec<String>) -> Result<Vec<WordSource>, WordsFault> {
    let mut sources = Vec::with_capacity(rt.alloc(), words.len())?;
    // The program's name is no file of words.
    let mut is_plain = true;
    let mut is_over = false;
    for word in words {
        is_over = is_over || word.as_str() == "--";
        let source = if is_plain || is_over {
            WordSource::Word(word)
        } else {
            source_of(rt, word)?
        };
        if sources.push(source).is_err() {
            return Err(WordsFault::Unread(ErrorKind::OutOfMemory));
        }
        is_plain = false;
    }
    Ok(sources)
}

/// Returns the words as the system gives them.
fn given_words(rt: &HostRuntime) -> io::Result<Vec<String>> {
    Ok(env::args(rt)?.collect(rt.alloc())?)
}

/// Returns the words of the command line, the program's name first.
pub fn words_of(rt: &HostRuntime) -> Result<Vec<String>, WordsFault> {
    let words = match given_words(rt) {
        Ok(words) => words,
        Err(error) => return Err(WordsFault::Unread(error.kind())),
    };
    let sources = sources_of(rt, words)?;
    Ok(words_of_sources(rt.alloc(), sources.as_slice())?)
}

/// Writes that a file of words isn't read, and why.
pub fn write_unread<E: TextOut>(name: &str, why: &str, errors: &mut E) {
    write_unopened("nbbo: words not read: ", name, why, errors);
}
