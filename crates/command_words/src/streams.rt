//! The files that words name in place of standard input and standard output.
ghost use Rattle.std.specs.Prelude.{◌≡◌, option_map};
ghost use Rattle.clap.specs.Matches.{found_of};
ghost use Rattle.clap.specs.Simple.{subcommand_rows_of};
ghost use Rattle.clap.specs.Walk.{rows_of};
ghost use Rattle.command_words.specs.StreamNames.{ReadsNamedStreams, ReadsStreamFiles};

use crate::file_names::file_of;
use crate::refusal::Refusal;
use clap::ArgMatches;
use std::alloc::Global;

/// The names of the files that are read and written in place of standard input and standard output.
#[derive(Debug, Drop)]
pub struct StreamFiles {
    /// The file that is read, if not standard input.
    pub input: Option<String>,
    /// The file that is written anew, if not standard output.
    pub output: Option<String>,
}

/// Returns the files that the options name.
fn named_streams(alloc: Global, options: &ArgMatches<'_>) -> Result<StreamFiles, Refusal>
    ensures { ReadsNamedStreams (rows_of (found_of options.now)) result }
{
    let input = file_of(alloc, options, "input", Refusal::BadInput)?;
    let output = file_of(alloc, options, "output", Refusal::BadOutput)?;
    Ok(StreamFiles { input, output })
}

/// Returns the options of the subcommand, if there is one.
fn used_options<'m, 'a>(matches: &'m ArgMatches<'a>) -> Option<&'m ArgMatches<'a>>
    ensures { option_map (λ options. rows_of (found_of options.now)) result
        ≡ option_map (λ p. p.1) (subcommand_rows_of matches.entry.now) }
{
    match matches.subcommand() {
        Some((_, options)) => Some(options),
        None => None,
    }
}

/// Returns the files that the options of the subcommand name; none without one.
pub fn streams_of(alloc: Global, matches: &ArgMatches<'_>) -> Result<StreamFiles, Refusal>
    ensures { ReadsStreamFiles (subcommand_rows_of matches.now) result }
{
    match used_options(matches) {
        Some(options) => named_streams(alloc, options),
        None => Ok(StreamFiles {
            input: None,
            output: None,
        }),
    }
}
