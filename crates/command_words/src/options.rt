//! The options that several commands share, with their texts.

use crate::limits::text;
use crate::option_table::{CommandOption, OptionForm};

/// `--sessions LIST` of a command that reads captures.
pub const SESSIONS: CommandOption<'static> = CommandOption {
    name: "sessions",
    value: "LIST",
    form: OptionForm::Required,
    help: text!("The first session of each venue, 1 to " MAX_VENUES " names parted by commas"),
    long_help: text!("\
The first session of each venue, venue 0's first: 1 to " MAX_VENUES " names parted by commas. A
name has 1 to 10 characters of printable ASCII (bytes 20 to 7e) and is filled on the
right with spaces to ten bytes. Write --sessions=LIST where the list begins with '-'.
With --lines the sessions that follow a venue's first one stand after it, each after a slash,
as in NORTH/NORTH2,SOUTH: up to " MAX_SESSIONS " of a venue, each once. The next session begins with
the first packet of its name that comes after the end of the one before"),
};

/// The long help of `--lines` of a packet capture.
pub const CAPTURED_LINES_HELP: &str = "\
Reads the input as a packet capture (pcap or pcapng). LIST has where the lines' datagrams
go in it: two addresses for each venue, line A's and then line B's, venue 0's first,
parted by commas and each once. An address is an IP address, of a machine or a group,
and a port, as 239.1.1.1:26400 or [ff02::1]:26400. One of zeros, as 0.0.0.0:26400, takes
what goes to that port at any address; a datagram goes to the first line that takes it.
A '-' stands in place of a line that isn't there, of one of the two of a venue. Write
--lines=LIST where the list begins with it";

/// `--lines LIST` of a command that also reads captures of the project's own format.
pub const CAPTURED_LINES: CommandOption<'static> = CommandOption {
    name: "lines",
    value: "LIST",
    form: OptionForm::Text,
    help: "Reads a packet capture (pcap or pcapng): two addresses for each venue, A's and then B's",
    long_help: CAPTURED_LINES_HELP,
};

/// `--window N`.
pub const WINDOW: CommandOption<'static> = CommandOption {
    name: "window",
    value: "N",
    form: OptionForm::Window,
    help: text!("How many messages a venue holds past the last item sent, 1 to " MAX_WINDOW),
    long_help: text!("\
How many messages past the last item sent a venue holds while it waits for those
between: 1 to " MAX_WINDOW ". A packet that goes further is 'ahead': it isn't taken, and only shows
how far the session is"),
};

/// `--journal N`.
pub const JOURNAL: CommandOption<'static> = CommandOption {
    name: "journal",
    value: "N",
    form: OptionForm::FromZero,
    help: text!(
        "How many items and declarations of self-help there may be, 0 to " MAX_COUNT
        " [default: " DEFAULT_COUNT ", with --lines or --best-only " MAX_COUNT "]"
    ),
    long_help: text!("\
How many items and declarations of self-help there is room for: 0 to " MAX_COUNT ". A
run that needs more ends there, with status 1. By default " DEFAULT_COUNT "; with --lines or
--best-only " MAX_COUNT ". The memory that a replay takes doesn't depend on it"),
};

/// `--join` of a command that reads captures.
pub const JOIN: CommandOption<'static> = CommandOption {
    name: "join",
    value: "",
    form: OptionForm::Flag,
    help: "Begins with a session's first packet, also where that lies past the window",
    long_help: "\
Joins a session that is under way: the messages before the first packet of it that comes are
given up, as by a record of kind K, and the sequence begins with it. Without this option the
venue waits for message 1; a packet past the window is 'ahead': nothing of it is taken",
};

/// `--skip-gaps`.
pub const SKIP_GAPS: CommandOption<'static> = CommandOption {
    name: "skip-gaps",
    value: "",
    form: OptionForm::Flag,
    help: "Gives up messages that are missing where a packet lies past the window",
    long_help: "\
Gives up what is missing where a packet lies past the window, as a record of kind K does:
the messages up to the first one that has come, and again as long as the packet lies past
the window. What was given up and comes later changes nothing. A packet is 'ahead' only
where it has more messages than the window. Sessions that are under way are joined, too, so
--join beside it changes nothing. Until a gap is given up the venue stands still, and its
quotations from before the gap stay in the national best: for a window of messages, which of a
slow venue is hours. What it held is then printed at once, at the time of the packet that lies
past the window. --window 100 gives gaps up sooner, --skip-after by time; --skip-after beside
it is refused",
};

/// `--skip-after MS` of a command that reads captures.
pub const SKIP_AFTER: CommandOption<'static> = CommandOption {
    name: "skip-after",
    value: "MS",
    form: OptionForm::FromOne,
    help: text!(
        "With --lines: after how many milliseconds a gap that stands is given up, 1 to " MAX_COUNT
    ),
    long_help: text!("\
With --lines: after how many milliseconds, by the times of the frames, a gap that stands is given
up: 1 to " MAX_COUNT ". That is done before the next frame is taken. The sequence then goes on with
the first message that has come after the gap. What was given up and comes later changes nothing.
Sessions that are under way are joined at their first packet, so --join beside it changes nothing.
Live the same is 'nbbo listen --join --skip-after MS'"),
};

/// `--from TIME`.
pub const FROM_TIME: CommandOption<'static> = CommandOption {
    name: "from",
    value: "TIME",
    form: OptionForm::Text,
    help: "Prints what came at this time or later, as 2026-11-28T14:30:00Z",
    long_help: "\
The rows or statistics are of what came at this time or later, in UTC as
2026-11-28T14:30:00Z, or with up to nine decimals of a second, or as rows have it, in seconds
from 1970 on with nine decimals: 1795876200.000000000. All of the capture is replayed; only
with --lines, by the times of the frames. Gaps and losses are counted as if the capture began
at this time; with --every, messages that a packet of the line passed over before aren't missing.
With --bests the best from before stands at first, and counts from this time on",
};

/// `--to TIME`.
pub const TO_TIME: CommandOption<'static> = CommandOption {
    name: "to",
    value: "TIME",
    form: OptionForm::Text,
    help: "Prints what came before this time",
    long_help: "\
The rows or statistics are of what came before this time, which is written as that of
--from and isn't before it",
};

/// `--times STYLE`.
pub const TIMES: CommandOption<'static> = CommandOption {
    name: "times",
    value: "STYLE",
    form: OptionForm::Text,
    help: "How times are printed: seconds or utc [default: seconds]",
    long_help: "\
How times are printed: 'seconds', from 1970 on, as without this option: in csv with nine
places, in json also as integers of nanoseconds, in tables as such; or 'utc', a date and a time
of day in UTC with nine places, as RFC 3339 has them: 2026-05-28T20:26:40.000003000Z. Rows
of text have no times",
};

/// `--venues LIST`.
pub const VENUES: CommandOption<'static> = CommandOption {
    name: "venues",
    value: "LIST",
    form: OptionForm::Text,
    help: "The names that stand for the venues' numbers in csv, json and tables",
    long_help: text!(
        "\
The names that stand for the venues' numbers in csv, json and tables, as NYSE,ARCA: one for
each venue in the order of --sessions, parted by commas, each once. A name has 1 to 16
digits, letters, '-', '.' and '_'. Rows of text and standard error have the numbers"
    ),
};

/// `--input FILE`.
pub const INPUT: CommandOption<'static> = CommandOption {
    name: "input",
    value: "FILE",
    form: OptionForm::Text,
    help: "Reads this file in place of standard input",
    long_help: "\
Reads this file in place of standard input. Where it can't be opened nothing is read or
written, standard error has 'input not opened', its name and why, and the status is 1. An
empty name is refused: 'bad file for --input'",
};

/// `--output FILE`.
pub const OUTPUT: CommandOption<'static> = CommandOption {
    name: "output",
    value: "FILE",
    form: OptionForm::Text,
    help: "Writes this file anew in place of standard output",
    long_help: "\
Writes this file in place of standard output: anew, unless the command line is refused or the
input isn't opened. Where it can't be opened, or is the file that is read, standard error has
'output not opened', its name and why; where the status is another than 0 after that,
'output not whole' and its name. An empty name is refused: 'bad file for --output'",
};

/// `SYMBOL..`, the symbols whose national best is printed.
pub const SYMBOLS: CommandOption<'static> = CommandOption {
    name: "symbols",
    value: "SYMBOL",
    form: OptionForm::Words,
    help: text!("The symbols whose national best is printed, at most " MAX_SYMBOLS),
    long_help: text!("\
The symbols whose national best bid and offer is printed: at most " MAX_SYMBOLS " words, each
once, of 1 to 8 characters of printable ASCII without a space (bytes 21 to 7e). A word
@FILE stands for the lines of that file, a symbol each. Write '--' before them where one
begins with '-' or '@'"),
};
