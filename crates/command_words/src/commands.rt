//! The program's command line, as `clap` takes it: its texts, and its commands one after the other.
ghost use Rattle.std.specs.Prelude.{◌≡◌, IfOk, false};
ghost use Rattle.clap.specs.Simple.{app_of};
ghost use Rattle.clap.specs.declared.builder.command.Command.TheViews.{out-Command as fields_of};
ghost use Rattle.command_words.specs.Commands.{converting_app, listening_app, nbbo_app, normalising_app, program_app, replaying_app, reporting_app, titled_app};

use crate::convert_command::convert_command;
use crate::discovery_command::discovery_command;
use crate::listen_command::listen_command;
use crate::normalise_command::normalise_command;
use crate::replay_command::replay_command;
use crate::stats_command::stats_command;
use clap::Command;
use std::alloc::{AllocError, Global};

/// The program, in one line.
const ABOUT: &str = "\
Puts the redundant lines of each venue's MoldUDP64 feed into one sequence, and keeps the
national best bid and offer of each symbol";

/// The version, and the sum of the logic that the sources have proofs of, which a kit's version
/// ends with.
const VERSION: &str = "0.1.0\nits sources have proofs of the logic dac8208d650f15bf";

const EXAMPLE: &str = "\
Examples:
  nbbo lines < day.pcap
  nbbo replay --sessions NORTH,SOUTH ACME < capture
  nbbo replay --sessions NORTH --lines 239.1.1.1:26400,239.1.1.2:26400 ACME < day.pcap
  nbbo stats --sessions NORTH,SOUTH ACME < capture
  nbbo listen --sessions 0000000001 --lines 127.0.0.1:7001,127.0.0.1:7002 ACME
  nbbo replay --sessions NORTH,SOUTH --input capture --output lines.txt @symbols.txt

'nbbo COMMAND --help' has what a command reads and prints.
A word @FILE, if no -- stands before it, is replaced by the lines of FILE, each of them a word.";

/// The program with its texts.
fn program_texts<'a>(alloc: Global) -> Result<Command<'a>, AllocError>
    ensures app { IfOk result (λ c. app_of c ≡ titled_app) }
    ensures local { IfOk result (λ c. (fields_of c).has_globals ≡ false) }
{
    Ok(
        Command::new(alloc, "nbbo")
            .bin_name("nbbo")?
            .version(VERSION)
            .about(ABOUT)
            .after_help(EXAMPLE),
    )
}

/// The program without its subcommands.
fn program_command<'a>(alloc: Global) -> Result<Command<'a>, AllocError>
    ensures app { IfOk result (λ c. app_of c ≡ program_app) }
    ensures local { IfOk result (λ c. (fields_of c).has_globals ≡ false) }
{
    Ok(
        program_texts(alloc)?
            .subcommand_required(true)
            .arg_required_else_help(true),
    )
}

/// The program with `replay`.
fn replaying_command<'a>(alloc: Global) -> Result<Command<'a>, AllocError>
    ensures app { IfOk result (λ c. app_of c ≡ replaying_app) }
    ensures local { IfOk result (λ c. (fields_of c).has_globals ≡ false) }
{
    program_command(alloc)?.subcommand(replay_command(alloc)?)
}

/// The program with `replay` and `listen`.
fn listening_command<'a>(alloc: Global) -> Result<Command<'a>, AllocError>
    ensures app { IfOk result (λ c. app_of c ≡ listening_app) }
    ensures local { IfOk result (λ c. (fields_of c).has_globals ≡ false) }
{
    replaying_command(alloc)?.subcommand(listen_command(alloc)?)
}

/// The program with `replay`, `listen` and `convert`.
fn converting_command<'a>(alloc: Global) -> Result<Command<'a>, AllocError>
    ensures app { IfOk result (λ c. app_of c ≡ converting_app) }
    ensures local { IfOk result (λ c. (fields_of c).has_globals ≡ false) }
{
    listening_command(alloc)?.subcommand(convert_command(alloc)?)
}

/// The program with `replay`, `listen`, `convert` and `stats`.
fn reporting_command<'a>(alloc: Global) -> Result<Command<'a>, AllocError>
    ensures app { IfOk result (λ c. app_of c ≡ reporting_app) }
    ensures local { IfOk result (λ c. (fields_of c).has_globals ≡ false) }
{
    converting_command(alloc)?.subcommand(stats_command(alloc)?)
}

/// The program with `replay`, `listen`, `convert`, `stats` and `normalise`.
fn normalising_command<'a>(alloc: Global) -> Result<Command<'a>, AllocError>
    ensures app { IfOk result (λ c. app_of c ≡ normalising_app) }
    ensures local { IfOk result (λ c. (fields_of c).has_globals ≡ false) }
{
    reporting_command(alloc)?.subcommand(normalise_command(alloc)?)
}

/// The program, which does nothing without a subcommand.
pub fn nbbo_command<'a>(alloc: Global) -> Result<Command<'a>, AllocError>
    ensures app { IfOk result (λ c. app_of c ≡ nbbo_app) }
    ensures local { IfOk result (λ c. (fields_of c).has_globals ≡ false) }
{
    normalising_command(alloc)?.subcommand(discovery_command(alloc)?)
}
