//! The texts of a command, and a command with its texts and options.
ghost use Rattle.std.specs.Prelude.{◌≡◌, IfOk, false, map};
ghost use Rattle.clap.specs.Simple.{app_of, new_app};
ghost use Rattle.clap.specs.declared.builder.command.Command.TheViews.{out-Command as fields_of};
ghost use Rattle.command_words.specs.OptionForms.{with_option_rules};

use crate::option_table::{CommandOption, with_options};
use clap::Command;
use std::alloc::{AllocError, Global};

/// The texts of a command.
#[derive(Clone, Copy)]
pub struct CommandTexts<'a> {
    /// What it does, in one line.
    pub about: &'a str,
    /// What it does, for the long help.
    pub long_about: &'a str,
    /// Its usage.
    pub usage: &'a str,
    /// Examples, for the short help.
    pub example: &'a str,
    /// The part of the long help after the options.
    pub end: &'a str,
}

/// Returns the command with what its helps begin with.
fn described<'a>(command: Command<'a>, texts: CommandTexts<'a>) -> Command<'a>
    ensures app { app_of result ≡ app_of command.entry }
    ensures local { (fields_of result).has_globals ≡ (fields_of command.entry).has_globals }
{
    command
        .about(texts.about)
        .long_about(texts.long_about)
        .override_usage(texts.usage)
}

/// Returns the command with what its helps end with.
fn ended<'a>(command: Command<'a>, texts: CommandTexts<'a>) -> Command<'a>
    ensures app { app_of result ≡ app_of command.entry }
    ensures local { (fields_of result).has_globals ≡ (fields_of command.entry).has_globals }
{
    command.after_help(texts.example).after_long_help(texts.end)
}

/// Returns the command of this name with its texts, and without options.
fn texts_command<'a>(alloc: Global, name: &'a str, texts: CommandTexts<'a>) -> Command<'a>
    ensures app { app_of result ≡ new_app name.now }
    ensures local { (fields_of result).has_globals ≡ false }
{
    ended(described(Command::new(alloc, name), texts), texts)
}

/// Returns the command of this name with its texts and options.
pub fn command_with<'a>(
    alloc: Global,
    name: &'a str,
    texts: CommandTexts<'a>,
    options: &[CommandOption<'a>],
) -> Result<Command<'a>, AllocError>
    ensures app { IfOk result (λ c. app_of c
        ≡ with_option_rules (new_app name.entry.now)
        (map (λ o. (o.name.now, o.form)) options.now)) }
    ensures local { IfOk result (λ c. (fields_of c).has_globals ≡ false) }
{
    with_options(alloc, texts_command(alloc, name, texts), options)
}
