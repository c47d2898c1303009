//! The words of a command line of which some stand in files.
ghost use Rattle.std.specs.Prelude.{◌≡◌, ◌++◌, IfOk, OnOk, map, option_map, string_bytes};
ghost use Rattle.std.specs.Str.Lines.{lines};
ghost use Rattle.command_words.specs.WordSources.{file_named, words_of_source, words_of_sources};

use std::alloc::{AllocError, Global};

/// A word, or the text of the file that stands in its place.
#[derive(Debug, Drop)]
pub enum WordSource {
    /// A word as it is.
    Word(String),
    /// A text of which each line is a word.
    Lines(String),
}

/// Returns the name of the file whose lines stand in place of the word: what follows the `@` with
/// which it begins, if anything does.
pub fn file_named(word: &str) -> Option<&str>
    ensures { option_map (λ name. name.now) result ≡ file_named word.now }
{
    match word.split_once('@') {
        Some((before, name)) if before.is_empty() && !name.is_empty() => Some(name),
        _ => None,
    }
}

/// Appends these words.
fn push_words(alloc: Global, words: &mut Vec<String>, more: &[&str]) -> Result<(), AllocError>
    ensures { OnOk result (map (λ word. string_bytes word) words.new.items
        ≡ map (λ word. string_bytes word) words.old.items ++ map (λ word. word.now) more.now) }
{
    for word in more {
        words.push(String::from_str(alloc, *word)?)?;
    }
    Ok(())
}

/// Appends the lines of a text.
fn push_lines(alloc: Global, words: &mut Vec<String>, text: &str) -> Result<(), AllocError>
    ensures { OnOk result (map (λ word. string_bytes word) words.new.items
        ≡ map (λ word. string_bytes word) words.old.items ++ lines text.now) }
{
    let lines: Vec<&str> = text.lines().collect(alloc)?;
    push_words(alloc, words, lines.as_slice())
}

/// Appends the words of a source.
fn push_source(
    alloc: Global,
    words: &mut Vec<String>,
    source: &WordSource,
) -> Result<(), AllocError>
    ensures { OnOk result (map (λ word. string_bytes word) words.new.items
        ≡ map (λ word. string_bytes word) words.old.items ++ words_of_source source.now) }
{
    match source {
        WordSource::Word(word) => words.push(String::from_str(alloc, word.as_str())?)?,
        WordSource::Lines(text) => push_lines(alloc, words, text.as_str())?,
    }
    Ok(())
}

/// Returns the words of these sources in order: each word as it is, and in place of a text its
/// lines.
pub fn words_of_sources(alloc: Global, sources: &[WordSource]) -> Result<Vec<String>, AllocError>
    ensures { IfOk result (λ words. map (λ word. string_bytes word) words.items
        ≡ words_of_sources sources.now) }
{
    let mut words = Vec::with_capacity(alloc, sources.len())?;
    for source in sources {
        push_source(alloc, &mut words, source)?;
    }
    Ok(words)
}
