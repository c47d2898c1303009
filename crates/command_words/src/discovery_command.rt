//! `nbbo lines`: its texts and its options.
ghost use Rattle.std.specs.Prelude.{◌≡◌, IfOk, false};
ghost use Rattle.clap.specs.Simple.{app_of};
ghost use Rattle.clap.specs.declared.builder.command.Command.TheViews.{out-Command as fields_of};
ghost use Rattle.command_words.specs.Commands.{discovering_app};

use crate::command_texts::{CommandTexts, command_with};
use crate::option_table::{CommandOption, OptionForm};
use crate::options::{INPUT, OUTPUT, TIMES};
use clap::Command;
use std::alloc::{AllocError, Global};

/// `lines`, in one line.
const ABOUT: &str = "Lists the lines that a packet capture has, and their sessions";

const LONG_ABOUT: &str = "\
Reads a packet capture (pcap or pcapng) from standard input, and prints a row for each address, port
and session to which MoldUDP64 packets went: what to write after --lines and --sessions of
'nbbo replay', 'nbbo stats' and 'nbbo listen'.";

/// The usage of `lines`.
const USAGE: &str = "nbbo lines [OPTIONS] < PCAP";

/// An example, for the short help.
const EXAMPLE: &str = "\
Example:
  nbbo lines < day.pcap

'--help' also has what is counted.";

/// The part of the long help after the options.
const END: &str = "\
Printed, a row in the order in which each first came, up to 4096 of them:
  address and port           where the datagrams went, as --lines takes it
  session                    the ten bytes of the name; --sessions needn't be given the spaces at
                             its end
  packets, messages, bytes   each counted as often as it came; bytes without the UDP headers
  first, last                the lowest and the highest number of a message that came, '-' where
                             none came
  other                      the other datagrams to that address and port
  first time, last time      the earliest and the latest, as --times says, '-' where the capture has
                             none
and then the other datagrams, how many addresses and ports these went to (up to 4096), the frames
without a UDP datagram, and the datagrams that are in no row, since there were 4096 already.

A row 'looks like ITCH: SESSION  nbbo normalise turns its messages into quotations' stands for each
session that had a message of one of the types and lengths of TotalView-ITCH 5.0, and none of this
project's own (51, 71 and 48 with 26, 34 and 10 bytes), whatever else the messages hold.

A row 'left out of the words: SESSION  WHY' stands for each session that came at one address and
port, or at more than two, or at one of its two after another session; whose name is all spaces, or
has a comma or a quotation mark; or that is past the first 16. The last row has the words
--sessions and --lines for the others, the two addresses of each in order; it is empty where there
are none. Names with other bytes than letters, digits and %+-./:@_ stand in quotation marks, which a
shell takes away where the line is pasted or read by eval, but not within $(..). A name with a slash
is to 'nbbo replay' and 'nbbo stats' the names of sessions that follow one another.

A datagram is a packet where its bytes spell one of MoldUDP64 and the session's name is printable
ASCII (bytes 20 to 7e). Datagrams of another kind may look like one, as a heartbeat of no session.

In JSON there is an object for each row, on a line of its own: address session packets messages
first last bytes other_datagrams first_time_ns last_time_ns, and with --times utc also first_time
and last_time; of a session that looks like ITCH also looks_like, which then is 'itch'. At the end
one of the rest: other_datagrams other_addresses frames_without_datagram, and past the first 4096
rows unlisted_packets unlisted_others. null stands where nothing is known.

Examples:
  nbbo lines < day.pcap
  eval \"nbbo stats $(nbbo lines < day.pcap | tail -1)\" < day.pcap
  zcat day.pcap.gz | nbbo lines --format json | jq -r 'select(.session) | .address'

Status:
  0  the packet capture was read to its end and its lines were printed, or help was shown
  1  the input or the run was refused; the rows of the frames before were printed, unless it is
     'write failed' or 'no memory'. Standard error reports why: 'bad capture at byte N', 'short
     record at byte N', 'read failed', 'write failed', 'too many turns' and 'no memory' as of
     'nbbo replay --lines'
  2  the command line was refused: 'bad format' where the format is none of those, 'bad time style'
     where that of --times is none

Standard error also counts the frames that carry no datagram, as of 'nbbo replay --lines'.";

/// The texts of `lines`.
const TEXTS: CommandTexts<'static> = CommandTexts {
    about: ABOUT,
    long_about: LONG_ABOUT,
    usage: USAGE,
    example: EXAMPLE,
    end: END,
};

/// `--format FORMAT`.
const FORMAT: CommandOption<'static> = CommandOption {
    name: "format",
    value: "FORMAT",
    form: OptionForm::Text,
    help: "The format of the rows: table or json",
    long_help: "\
The format of the rows: 'table', as without this option, or 'json', an object on a line of
its own for each",
};

/// The options of `lines`, in the order in which its help has them.
const OPTIONS: &[CommandOption<'static>] = &[FORMAT, TIMES, INPUT, OUTPUT];

/// Returns the whole of `lines`.
pub fn discovery_command<'a>(alloc: Global) -> Result<Command<'a>, AllocError>
    ensures app { IfOk result (λ c. app_of c ≡ discovering_app) }
    ensures local { IfOk result (λ c. (fields_of c).has_globals ≡ false) }
{
    command_with(alloc, "lines", TEXTS, OPTIONS)
}
