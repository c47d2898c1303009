//! The names of files on the command line.
ghost use Rattle.std.specs.Prelude.{option_map};
ghost use Rattle.clap.specs.Matches.{found_of};
ghost use Rattle.clap.specs.Walk.{first_of, rows_of};
ghost use Rattle.command_words.specs.FileNames.{ReadsFileName};

use crate::option_values::given_text;
use crate::refusal::Refusal;
use clap::ArgMatches;
use std::alloc::Global;

/// Returns the name of a file, if a text is given for it, or this refusal where the text is empty.
fn read_file_name(
    alloc: Global,
    text: Option<&str>,
    refusal: Refusal,
) -> Result<Option<String>, Refusal>
    ensures { ReadsFileName refusal (option_map (λ text. text.now) text.entry) result }
{
    let Some(text) = text else {
        return Ok(None);
    };
    if text.is_empty() {
        return Err(refusal);
    }
    match String::from_str(alloc, text) {
        Ok(name) => Ok(Some(name)),
        Err(_) => Err(Refusal::NoMemory),
    }
}

/// Returns the name of the file that the option of this name gives, if it is given, or this refusal
/// where its text is empty.
pub fn file_of(
    alloc: Global,
    options: &ArgMatches<'_>,
    name: &str,
    refusal: Refusal,
) -> Result<Option<String>, Refusal>
    ensures { ReadsFileName refusal (first_of name.now (rows_of (found_of options.now))) result }
{
    read_file_name(alloc, given_text(options, name), refusal)
}
