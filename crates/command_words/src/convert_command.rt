//! `nbbo convert`: its texts and its options.
ghost use Rattle.std.specs.Prelude.{◌≡◌, IfOk, false};
ghost use Rattle.clap.specs.Simple.{app_of};
ghost use Rattle.clap.specs.declared.builder.command.Command.TheViews.{out-Command as fields_of};
ghost use Rattle.command_words.specs.Commands.{convert_app};

use crate::command_texts::{CommandTexts, command_with};
use crate::limits::text;
use crate::option_table::{CommandOption, OptionForm};
use crate::options::{CAPTURED_LINES_HELP, INPUT, OUTPUT};
use clap::Command;
use std::alloc::{AllocError, Global};

/// `convert`, in one line.
const ABOUT: &str = "Converts a packet capture into a capture of this project's own format";

const LONG_ABOUT: &str = "\
Converts a packet capture (pcap or pcapng) from standard input into a capture as 'nbbo replay'
reads it without --lines, and writes that to standard output: a record for each datagram that
goes to a line, in the order of the capture. 'nbbo replay --help' has what a record is. Records
of kind N, H and W can be put between.";

/// The usage of `convert`.
const USAGE: &str = "nbbo convert --lines <LIST> < PCAP > CAPTURE";

/// An example, for the short help.
const EXAMPLE: &str = "\
Example:
  nbbo convert --lines 239.1.1.1:26400,239.1.1.2:26400 < day.pcap > day.capture";

/// The part of the long help after the options.
const END: &str = text!("\
Example:
  nbbo convert --lines 239.1.1.1:26400,239.1.1.2:26400 < day.pcap > day.capture
  nbbo replay --sessions NORTH ACME < day.capture

Status:
  0  the packet capture was converted to its end, or help was shown
  1  the input or the run was refused; the records of the datagrams before were written. Standard
     error reports why: 'bad capture at byte N', 'short record', 'read failed', 'write failed',
     'too many turns' and 'no memory' as of 'nbbo replay --lines'
  2  the command line was refused: 'bad lines' where the list isn't two addresses for each of 1 to
     " MAX_VENUES " venues, or names one twice

Standard error also counts what was passed over, as of 'nbbo replay --lines'.");

/// The texts of `convert`.
const TEXTS: CommandTexts<'static> = CommandTexts {
    about: ABOUT,
    long_about: LONG_ABOUT,
    usage: USAGE,
    example: EXAMPLE,
    end: END,
};

/// `--lines LIST`.
const LINES: CommandOption<'static> = CommandOption {
    name: "lines",
    value: "LIST",
    form: OptionForm::Required,
    help: "Where the lines' datagrams go: an address for line A and one for B of each venue",
    long_help: CAPTURED_LINES_HELP,
};

/// The options of `convert`, in the order in which its help has them.
const OPTIONS: &[CommandOption<'static>] = &[LINES, INPUT, OUTPUT];

/// Returns the whole of `convert`.
pub fn convert_command<'a>(alloc: Global) -> Result<Command<'a>, AllocError>
    ensures app { IfOk result (λ c. app_of c ≡ convert_app) }
    ensures local { IfOk result (λ c. (fields_of c).has_globals ≡ false) }
{
    command_with(alloc, "convert", TEXTS, OPTIONS)
}
