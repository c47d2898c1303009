//! `nbbo normalise`: its texts and its options.
ghost use Rattle.std.specs.Prelude.{◌≡◌, IfOk, false};
ghost use Rattle.clap.specs.Simple.{app_of};
ghost use Rattle.clap.specs.declared.builder.command.Command.TheViews.{out-Command as fields_of};
ghost use Rattle.command_words.specs.Commands.{normalise_app};

use crate::command_texts::{CommandTexts, command_with};
use crate::limits::text;
use crate::option_table::{CommandOption, OptionForm};
use crate::options::{CAPTURED_LINES, INPUT, OUTPUT, SESSIONS, WINDOW};
use clap::Command;
use std::alloc::{AllocError, Global};

/// `normalise`, in one line.
const ABOUT: &str = "Turns a capture of ITCH lines into one of this project's own messages";

const LONG_ABOUT: &str = "\
Turns a capture of lines in TotalView-ITCH 5.0 from standard input into one of this project's own
messages, and writes that to standard output: packets of the same sessions, with the same numbers.
Message n becomes the quotation that it changes, of the orders that messages 1 to n leave; a halt;
or an empty message. Lines A and B become one sequence, which is written on line A. The input is a
capture of this project's own format, and so is the output. With --lines both are packet captures:
each frame of the output goes to line A's address, at the time of the frame that made its messages
ready.

A gap that is given up ends what is written of its session, since a book without some orders shows
a wrong best: an end of session stands at the first missing number.";

/// The usage of `normalise`.
const USAGE: &str = "nbbo normalise [OPTIONS] --sessions <LIST> [SYMBOL]... < CAPTURE > CAPTURE";

/// An example, for the short help.
const EXAMPLE: &str = "\
Example:
  nbbo normalise --sessions NASDAQ --lines 239.1.1.1:26400,239.1.1.2:26400 ACME < itch.pcap |
    nbbo replay --sessions NASDAQ --lines 239.1.1.1:26400,239.1.1.2:26400 --best-only ACME";

/// The part of the long help after the options.
const END: &str = text!(
    "\
Example:
  nbbo normalise --sessions NASDAQ --lines 239.1.1.1:26400,239.1.1.2:26400 ACME < itch.pcap |
    nbbo replay --sessions NASDAQ --lines 239.1.1.1:26400,239.1.1.2:26400 --best-only ACME

Standard error reports at the end each gap that was given up, and each that stands:
  nbbo: venue V lacks COUNT messages from NUMBER, and is quoted no more
  nbbo: venue V lacks COUNT messages from NUMBER
and where a venue's messages are of this project's own: 'looks like own messages'.

Status:
  0  the capture was turned to its end, or help was shown
  1  the input or the run was refused; what was ready before was written. Standard error reports
     why: as of 'nbbo replay', and 'venue V has more live orders than --orders'
  2  the command line was refused: as of 'nbbo replay'; 'bad end number': --end-number is neither
     next nor last; 'bad snapshot': --snapshot isn't VENUE=FILE; '--snapshot names a session that
     --sessions doesn't'; '--snapshot names a session twice'; 'bad lines' also where line A of a
     venue isn't there or isn't of IPv4"
);

/// The texts of `normalise`.
const TEXTS: CommandTexts<'static> = CommandTexts {
    about: ABOUT,
    long_about: LONG_ABOUT,
    usage: USAGE,
    example: EXAMPLE,
    end: END,
};

/// `--orders N`.
const ORDERS: CommandOption<'static> = CommandOption {
    name: "orders",
    value: "N",
    form: OptionForm::FromOne,
    help: text!("How many live orders a venue may have, 1 to " MAX_COUNT " [default: " DEFAULT_ORDERS "]"),
    long_help: text!("\
How many live orders of the named symbols a venue may have at once: 1 to " MAX_COUNT ",
by default " DEFAULT_ORDERS ". A run that needs more ends there, with status 1"),
};

/// `--end-number RULE`.
const END_NUMBER: CommandOption<'static> = CommandOption {
    name: "end-number",
    value: "RULE",
    form: OptionForm::Text,
    help: "The number of an end of session in the input: next or last [default: next]",
    long_help: "\
The number that an end of session has in the input: 'next', one more than the last message's,
as by default; or 'last', that of the last message. In the output it is one more",
};

/// `--skip-gaps`.
const SKIP_GAPS: CommandOption<'static> = CommandOption {
    name: "skip-gaps",
    value: "",
    form: OptionForm::Flag,
    help: "Gives up a session where a packet lies past the window",
    long_help: "\
Gives up what is missing where a packet lies past the window, which ends what is written of
the session: the venue is quoted no more until its next session",
};

/// `--skip-after MS`.
const SKIP_AFTER: CommandOption<'static> = CommandOption {
    name: "skip-after",
    value: "MS",
    form: OptionForm::FromOne,
    help: text!("\
With --lines: after how many milliseconds a gap that stands ends its session, 1 to " MAX_COUNT),
    long_help: text!("\
With --lines: after how many milliseconds, by the times of the frames, a gap that stands is
given up: 1 to " MAX_COUNT ". That ends what is written of the session: the venue is quoted
no more until its next session"),
};

/// `--snapshot VENUE=FILE`.
const SNAPSHOT: CommandOption<'static> = CommandOption {
    name: "snapshot",
    value: "VENUE=FILE",
    form: OptionForm::Several,
    help: "A file with a snapshot of a venue's live orders, once for each venue that has one",
    long_help: "\
A file with a snapshot of a venue's live orders, with which its first session begins. VENUE is
the name of that session in --sessions, up to the first '='; given again for another venue. A
snapshot is as Glimpse 5.0 has it: messages in blocks, each after its length in two bytes, high
byte first, of which the last one is End of Snapshot",
};

/// `[SYMBOL]...`.
const SYMBOLS: CommandOption<'static> = CommandOption {
    name: "symbols",
    value: "SYMBOL",
    form: OptionForm::Words,
    help: "The symbols whose quotations are made",
    long_help: text!("\
The symbols whose quotations are made, up to " MAX_SYMBOLS ", each once. Orders of others aren't
kept; without a symbol nothing is quoted. A word @FILE stands for the lines of that file, a
symbol each. Write '--' before them where one begins with '-' or '@'"),
};

/// The options of `normalise`, in the order in which its help has them.
const OPTIONS: &[CommandOption<'static>] = &[
    SESSIONS,
    CAPTURED_LINES,
    WINDOW,
    ORDERS,
    END_NUMBER,
    SKIP_GAPS,
    SKIP_AFTER,
    SNAPSHOT,
    INPUT,
    OUTPUT,
    SYMBOLS,
];

/// Returns the whole of `normalise`.
pub fn normalise_command<'a>(alloc: Global) -> Result<Command<'a>, AllocError>
    ensures app { IfOk result (λ c. app_of c ≡ normalise_app) }
    ensures local { IfOk result (λ c. (fields_of c).has_globals ≡ false) }
{
    command_with(alloc, "normalise", TEXTS, OPTIONS)
}
