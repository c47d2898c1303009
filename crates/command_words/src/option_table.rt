//! The options of commands as tables, and a command with the options of one.
ghost use Rattle.std.specs.Prelude.{◌≡◌, IfOk, false, map};
ghost use Rattle.clap.specs.Simple.{app_of};
ghost use Rattle.clap.specs.Walk.{rule_of};
ghost use Rattle.clap.specs.declared.builder.command.Command.TheViews.{out-Command as fields_of};
ghost use Rattle.command_words.specs.OptionForms.{rule_by, with_option_rules};

use crate::limits::{MAX_BUFFER, text};
use clap::{Arg, ArgAction, Command, value_parser};
use feed_types::MAX_WINDOW;
use std::alloc::{AllocError, Global};

/// The form of an option.
#[derive(Clone, Copy)]
pub enum OptionForm {
    /// A flag, which has no value.
    Flag,
    /// An option with a text.
    Text,
    /// An option with a text, without which the command is refused.
    Required,
    /// An option with a text that may stand there several times.
    Several,
    /// A number of messages that a venue holds, by default 4096.
    Window,
    /// A number from 0 to 4294967295.
    FromZero,
    /// A number from 1 to 4294967295.
    FromOne,
    /// A number of bytes, from 1 to 1073741823.
    Buffer,
    /// Any number of words that belong to no option.
    Words,
}

/// An option of a command, with its texts.
#[derive(Clone, Copy)]
pub struct CommandOption<'a> {
    pub name: &'a str,
    /// The name of its value in the help.
    pub value: &'a str,
    pub form: OptionForm,
    /// Its help, in one line.
    pub help: &'a str,
    /// Its help, for the long help.
    pub long_help: &'a str,
}

/// Returns the option `--NAME VALUE`.
fn valued_argument<'a>(alloc: Global, option: &CommandOption<'a>) -> Arg<'a>
    ensures rule { rule_of result ≡ rule_by OptionForm.Text option.now.name.now }
    ensures local { result.global ≡ false }
{
    Arg::new(alloc, option.name)
        .long(option.name)
        .value_name(option.value)
        .help(option.help)
        .long_help(option.long_help)
}

/// Returns the option `--NAME`.
fn flag_argument<'a>(alloc: Global, option: &CommandOption<'a>) -> Arg<'a>
    ensures rule { rule_of result ≡ rule_by OptionForm.Flag option.now.name.now }
    ensures local { result.global ≡ false }
{
    Arg::new(alloc, option.name)
        .long(option.name)
        .action(ArgAction::SetTrue)
        .help(option.help)
        .long_help(option.long_help)
}

/// Returns the words `[VALUE]...`.
fn words_argument<'a>(alloc: Global, option: &CommandOption<'a>) -> Arg<'a>
    ensures rule { rule_of result ≡ rule_by OptionForm.Words option.now.name.now }
    ensures local { result.global ≡ false }
{
    Arg::new(alloc, option.name)
        .value_name(option.value)
        .num_args(0..)
        .help(option.help)
        .long_help(option.long_help)
}

/// Returns the option as `clap` takes it.
fn argument_of<'a>(alloc: Global, option: &CommandOption<'a>) -> Arg<'a>
    ensures rule { rule_of result ≡ rule_by option.now.form option.now.name.now }
    ensures local { result.global ≡ false }
{
    match option.form {
        OptionForm::Flag => flag_argument(alloc, option),
        OptionForm::Text => valued_argument(alloc, option),
        OptionForm::Required => valued_argument(alloc, option).required(true),
        OptionForm::Several => valued_argument(alloc, option).action(ArgAction::Append),
        OptionForm::Window => valued_argument(alloc, option)
            .value_parser(value_parser!(u32).range(1..=i64::from(MAX_WINDOW)))
            .default_value(text!(DEFAULT_WINDOW)),
        OptionForm::FromZero => valued_argument(alloc, option).value_parser(value_parser!(
            u32
        ).range(0..=i64::from(u32::MAX))),
        OptionForm::FromOne => valued_argument(alloc, option).value_parser(value_parser!(u32).range(
            1..=i64::from(u32::MAX),
        )),
        OptionForm::Buffer => valued_argument(alloc, option).value_parser(value_parser!(u32).range(
            1..=i64::from(MAX_BUFFER),
        )),
        OptionForm::Words => words_argument(alloc, option),
    }
}

/// Returns the command with these options.
pub fn with_options<'a>(
    alloc: Global,
    command: Command<'a>,
    options: &[CommandOption<'a>],
) -> Result<Command<'a>, AllocError>
    requires { (fields_of command).has_globals ≡ false }
    ensures app { IfOk result (λ c. app_of c
        ≡ with_option_rules (app_of command.entry) (map (λ o. (o.name.now, o.form)) options.now)) }
    ensures local { IfOk result (λ c. (fields_of c).has_globals ≡ false) }
{
    let mut command = command;
    for option in options {
        command = command.arg(argument_of(alloc, option))?;
    }
    Ok(command)
}
