//! The options of `nbbo listen` with their texts.

use crate::limits::text;
use crate::option_table::{CommandOption, OptionForm};
use crate::options::{SYMBOLS, TIMES, WINDOW};

/// `--sessions LIST` of a command that listens.
const SESSIONS: CommandOption<'static> = CommandOption {
    name: "sessions",
    value: "LIST",
    form: OptionForm::Required,
    help: text!("The first session of each venue, 1 to " MAX_VENUES " names parted by commas"),
    long_help: text!("\
The first session of each venue, venue 0's first: 1 to " MAX_VENUES " names parted by commas. A
name has 1 to 10 characters of printable ASCII (bytes 20 to 7e) and is filled on the
right with spaces to ten bytes. Sessions that follow a venue's first one are parted from it
by slashes, as in NORTH/NORTH2,SOUTH: each begins at the first packet that comes of it once
the one before is over and all of it has come or was given up. The venue's lines end with an
end of the last one then. Write --sessions=LIST where the list begins with '-'"),
};

/// `--lines LIST`.
const LINES: CommandOption<'static> = CommandOption {
    name: "lines",
    value: "LIST",
    form: OptionForm::Required,
    help: "Where the lines are received: an address for line A and one for B of each venue",
    long_help: "\
Where the lines are received: two addresses for each venue, line A's and then line
B's, venue 0's first, parted by commas. An address is an IP address of this machine
and a port, as 127.0.0.1:7001 or [::1]:7001; with 0.0.0.0 all of its addresses. For a
line whose datagrams come by multicast it is the group's, which the system has to have
joined before: see below. A '-' stands in place of a line that isn't there, of one of the
two of a venue; write --lines=LIST where the list begins with it",
};

/// `--itch NAMES`.
const ITCH: CommandOption<'static> = CommandOption {
    name: "itch",
    value: "NAMES",
    form: OptionForm::Text,
    help: "The venues that send TotalView-ITCH 5.0, by their first sessions, parted by commas",
    long_help: "\
The venues that send TotalView-ITCH 5.0 in place of this project's own messages, by the names
of their first sessions in --sessions, parted by commas, each once. Message n of such a venue
becomes the quotation that it changes, of the orders that messages 1 to n leave, as with
'nbbo normalise'. Only the symbols of the command line are quoted. A gap that --skip-after gives
up ends what is quoted of the venue until its next session. So does a start in the middle, which
--join doesn't mend. The venue's counts are those of the packets that its lines made: datagrams
that came late or were refused, and requests, aren't among them",
};

/// `--orders N` of a command that listens.
const ORDERS: CommandOption<'static> = CommandOption {
    name: "orders",
    value: "N",
    form: OptionForm::FromOne,
    help: text!("With --itch: how many live orders a venue may have, 1 to " MAX_COUNT " [default: " DEFAULT_ORDERS "]"),
    long_help: text!("\
With --itch: how many live orders of the named symbols a venue may have at once: 1 to " MAX_COUNT ",
by default " DEFAULT_ORDERS ". A venue that needs more is quoted no more, and its lines fail"),
};

/// `--end-number RULE` of a command that listens.
const END_NUMBER: CommandOption<'static> = CommandOption {
    name: "end-number",
    value: "RULE",
    form: OptionForm::Text,
    help: "With --itch: the number of an end of session: next or last [default: next]",
    long_help: "\
With --itch: the number that an end of session has on the lines of such a venue: 'next', one
more than the last message's, as by default; or 'last', that of the last message",
};

/// `--request ADDR`.
const REQUEST: CommandOption<'static> = CommandOption {
    name: "request",
    value: "ADDR",
    form: OptionForm::Text,
    help: "Where messages that are missing are asked for",
    long_help: "\
Where messages that are missing are asked for: the address of a retransmission server.
A request goes there from the socket of the line that found the gap, at once or after the time
of --request-after. It goes again while the gap stands, from any line of the venue, 250 ms or
more later. A reply is read on the line that asked. Where a line of the venue is a multicast
group, requests leave from a socket of the venue's own, and replies come there, as line R. The
port isn't 0, nor the IP address 0.0.0.0 or [::], and it is of each line's version of IP. A
request that can't be sent, as where a firewall refuses it or there is no route, ends nothing:
standard error reports the first one of each line, and at the end how many there were.
Without this option nothing is asked for",
};

/// `--request-after MS`.
const REQUEST_AFTER: CommandOption<'static> = CommandOption {
    name: "request-after",
    value: "MS",
    form: OptionForm::FromZero,
    help: text!(
        "For how many milliseconds a gap stands before it is asked for, 0 to " MAX_COUNT
        " [default: 0, with a further option " USUAL_WAIT "]"
    ),
    long_help: text!("\
With --request: for how many milliseconds a gap stands before its messages are asked for, 0
to " MAX_COUNT ", so that the other line can have them first. By default 0, with a further option
" USUAL_WAIT ". With 0 a request leaves with a datagram of the venue alone, so nothing is asked for
again while none comes. A further option is one other than --sessions, --lines, --request, --window, --journal,
--datagrams and --end any; sessions that follow others are one, too"),
};

/// The long help of the list of senders.
const SENDERS_HELP: &str = "\
Whose datagrams are accepted: IP addresses, or IP addresses with a port, parted by commas, as
10.0.0.7,10.0.0.8:26400 or [::1]:7001. Those of others are passed over, replies to requests, too:
standard error reports the first one of each line, and at the end how many there were. Without
this option the datagrams of any sender are accepted";

/// `--senders LIST`.
const SENDERS: CommandOption<'static> = CommandOption {
    name: "senders",
    value: "LIST",
    form: OptionForm::Text,
    help: "Whose datagrams are accepted: IP addresses, with or without a port",
    long_help: SENDERS_HELP,
};

/// `--from LIST`, the other name of `--senders`.
const FROM: CommandOption<'static> = CommandOption {
    name: "from",
    value: "LIST",
    form: OptionForm::Text,
    help: "The same as --senders",
    long_help: "\
The same as --senders. One of the two is given at most",
};

/// `--most-ahead N`.
const MOST_AHEAD: CommandOption<'static> = CommandOption {
    name: "most-ahead",
    value: "N",
    form: OptionForm::FromOne,
    help: text!(
        "How far ahead of a venue's lines a number may be, 1 to " MAX_COUNT
        " [default: no limit, with a further option " USUAL_LEAD "]"
    ),
    long_help: text!("\
How far the number of a datagram may be past the highest that the venue's lines have had, 1 to
" MAX_COUNT ". One that is further is withheld: it changes nothing, and standard error reports the
first one of each line, and at the end how many there were. The third of a line in a row is taken.
Before the venue's lines have had any message the first one waits, and is taken with the second
that agrees. An end of the venue's session is withheld, too, until another line has the same one,
or this line a third time in a row. By default nothing is withheld; with a further option, as of
--request-after, the number is " USUAL_LEAD),
};

/// `--silent-after MS`.
const SILENT_AFTER: CommandOption<'static> = CommandOption {
    name: "silent-after",
    value: "MS",
    form: OptionForm::FromOne,
    help: text!(
        "After how many milliseconds a silent line is reported, 1 to " MAX_COUNT
        " [default: never, with a further option " USUAL_SILENCE "]"
    ),
    long_help: text!("\
After how many milliseconds without a datagram standard error reports a line, from the start, too,
and then when it is heard again: 1 to " MAX_COUNT ". By default it is never reported; with a further
option, as of --request-after, after " USUAL_SILENCE),
};

/// `--record FILE`.
const RECORD: CommandOption<'static> = CommandOption {
    name: "record",
    value: "FILE",
    form: OptionForm::Text,
    help: "Writes what the lines receive into this file, for 'nbbo replay'",
    long_help: "\
Writes what the lines receive into this file, which is made anew: a capture as 'nbbo replay' reads
it without --lines. The datagrams of each venue, and the gaps that were given up, stand in it in
the order in which they were taken. The disk holds no line up: what it is too slow for is left out
and counted. Standard error has the count at the end, and a replay of such a file ends with
'short record'. The file has no times",
};

/// `--join` of a command that listens.
const JOIN: CommandOption<'static> = CommandOption {
    name: "join",
    value: "",
    form: OptionForm::Flag,
    help: "Joins a session that is under way at its first packet",
    long_help: "\
Joins a session that is under way at the first packet of it, whatever the window: messages
that are missing before it are given up. Without this option they are waited for, as those
of any other gap",
};

/// `--skip-after MS`.
const SKIP_AFTER: CommandOption<'static> = CommandOption {
    name: "skip-after",
    value: "MS",
    form: OptionForm::FromOne,
    help: text!(
        "After how many milliseconds a gap that stands is given up, 1 to " MAX_COUNT
    ),
    long_help: text!("\
After how many milliseconds a gap that stands is given up: 1 to " MAX_COUNT ". The sequence then
goes on with the first message that has come after it. What was given up and comes later changes
nothing. Without this option a gap is waited for until the run ends"),
};

/// `--journal N` of a command that listens.
const JOURNAL: CommandOption<'static> = CommandOption {
    name: "journal",
    value: "N",
    form: OptionForm::FromZero,
    help: text!(
        "How many items and declarations of self-help there may be, 0 to " MAX_COUNT
        " [default: " DEFAULT_COUNT ", with --follow " MAX_COUNT "]"
    ),
    long_help: text!("\
How many items and declarations of self-help there is room for: 0 to " MAX_COUNT ". A
run that needs more ends there, with status 1. By default " DEFAULT_COUNT "; with --follow, where
what was printed isn't kept, " MAX_COUNT),
};

/// `--datagrams N`.
const DATAGRAMS: CommandOption<'static> = CommandOption {
    name: "datagrams",
    value: "N",
    form: OptionForm::FromZero,
    help: text!(
        "How many datagrams a line reads at most, 0 to " MAX_COUNT
        " [default: " DEFAULT_COUNT ", with --follow no limit]"
    ),
    long_help: text!("\
How many datagrams a line reads at most: 0 to " MAX_COUNT ". A line also ends after an
end of session: see --end. By default " DEFAULT_COUNT "; with --follow there is no limit"),
};

/// `--end WHICH`.
const END: CommandOption<'static> = CommandOption {
    name: "end",
    value: "WHICH",
    form: OptionForm::Text,
    help: "Which ends of session end a line: any, own or none [default: any]",
    long_help: "\
Which ends of session end a line: 'any', an end of whichever session, by default; 'own', an end of
the venue's session alone, as --sessions names it; or 'none'. With 'own' neither yesterday's end,
where it is still sent, nor another feed's ends the line. With 'none' an end isn't taken at all.
After an end that doesn't end it the line goes on: standard error reports the first one of each
line, and at the end how many there were. See also --most-ahead",
};

/// `--buffer BYTES`.
const BUFFER: CommandOption<'static> = CommandOption {
    name: "buffer",
    value: "BYTES",
    form: OptionForm::Buffer,
    help: text!("How large a buffer to ask for at each line's socket, 1 to " MAX_BUFFER " bytes"),
    long_help: text!("\
How many bytes of room to ask for in each line's socket, where the system keeps what has
come until it is read: 1 to " MAX_BUFFER ". Standard error reports how many there are then; the
system gives no more than its own limit. Without this option it is the system's default"),
};

/// `--seconds N`.
const SECONDS: CommandOption<'static> = CommandOption {
    name: "seconds",
    value: "N",
    form: OptionForm::FromOne,
    help: text!("After how many seconds the run ends, 1 to " MAX_COUNT),
    long_help: text!("\
After how many seconds the run ends, whether or not anything comes on the lines: 1 to
" MAX_COUNT ". What came until then is printed as at any other end, and the status is 0"),
};

/// `--until-input-ends`.
const UNTIL_INPUT_ENDS: CommandOption<'static> = CommandOption {
    name: "until-input-ends",
    value: "",
    form: OptionForm::Flag,
    help: "Ends the run when standard input ends",
    long_help: "\
Ends the run when standard input ends, whether or not anything comes on the lines. The bytes
of standard input are passed over. What came on the lines until then is printed as at any
other end, and the status is 0. In a terminal Ctrl-D ends standard input; with
'< /dev/null' it ends at once",
};

/// `--complete`.
const COMPLETE: CommandOption<'static> = CommandOption {
    name: "complete",
    value: "",
    form: OptionForm::Flag,
    help: "Ends with status 3 where messages are missing at the end",
    long_help: "\
Ends with status 3 where messages of a venue are missing at the end, as standard error
reports. What --join or --skip-after gave up isn't missing. Without this option the status
is 0 then",
};

/// `--follow`.
const FOLLOW: CommandOption<'static> = CommandOption {
    name: "follow",
    value: "",
    form: OptionForm::Flag,
    help: "Prints each change of a best as it comes",
    long_help: "\
Prints each change of a best as it comes, in the same order as without this option, and the
rows of the venues once all lines have ended. Where standard output can't be written any
more, the run ends with status 1. What was printed isn't kept, so a longer run takes no more
memory, and it ends by no count of its own",
};

/// `--kept N`.
const KEPT: CommandOption<'static> = CommandOption {
    name: "kept",
    value: "N",
    form: OptionForm::FromOne,
    help: text!(
        "With --follow: how many changes may wait to be printed, 1 to " MAX_COUNT " [default: " DEFAULT_KEPT "]"
    ),
    long_help: text!("\
With --follow: how many changes may wait to be printed: 1 to " MAX_COUNT ", by default
" DEFAULT_KEPT ". While as many wait, as where nobody reads standard output, no further item is
taken: what comes waits in the windows of the venues, and what goes past these is asked for again"),
};

/// `--format FORMAT`.
const FORMAT: CommandOption<'static> = CommandOption {
    name: "format",
    value: "FORMAT",
    form: OptionForm::Text,
    help: "With --follow: the format of the rows of bests: text, csv or json [default: text]",
    long_help: "\
With --follow: the format of the rows of bests: 'text', as without this option, or 'csv' or 'json',
rows as of 'nbbo replay --best-only --format', and no rows of venues. Each row ends with the time
at which the datagram was read that caused the change, by this machine's clock. After a gap that is
the datagram that filled it, or where the gap was given up the venue's last one before that. It is
empty or null where the clock can't be read, and in rows that are left for the end since memory was
refused",
};

/// `--venues LIST` of a command that listens.
const VENUES: CommandOption<'static> = CommandOption {
    name: "venues",
    value: "LIST",
    form: OptionForm::Text,
    help: "The names that stand for the venues' numbers",
    long_help: "\
The names that stand for the venues' numbers on standard error, in metrics, and in rows of csv and
JSON, as NYSE,ARCA: one for each venue in the order of --sessions, parted by commas, each once. A
name has 1 to 16 digits, letters, '-', '.' and '_'. Rows of text have the numbers",
};

/// `--stats SECONDS`.
const STATS: CommandOption<'static> = CommandOption {
    name: "stats",
    value: "SECONDS",
    form: OptionForm::FromOne,
    help: text!("Every how many seconds standard error has counts of each venue, 1 to " MAX_COUNT),
    long_help: text!("\
Every how many seconds standard error has a line of counts for each venue: 1 to
" MAX_COUNT ". At the end it has a table of the same counts for the whole run. On one line:
  nbbo: second N venue V sent S known K lag G lacks L requests R
      A packets P messages M new W repeated X ahead Y refused Z NUMBER:COUNT.. B packets ..
S is the number of the last item in sequence, K how far the session is known to go, G how
many messages are between, and L how many of the first gap are missing. Since the
line before, R requests were sent, and P packets came on line A, or B. Those that were taken had
M messages: W that came first, and X that had come before. Y packets went past the window
and Z were refused, COUNT of them by the refusal of this NUMBER in 'nbbo replay --help'.
What else there was stands after these, and in the table, too: of a venue 'gave up N' messages;
of a line 'dropped N' datagrams by the system at its socket, as Linux has it in /proc/net/udp,
'withheld N', 'other_senders N' that were passed over, 'unsent N' requests that couldn't be sent,
and 'held_back N'. A venue with a socket of its own for requests has R after B"),
};

/// `--stats-format FORMAT`.
const STATS_FORMAT: CommandOption<'static> = CommandOption {
    name: "stats-format",
    value: "FORMAT",
    form: OptionForm::Text,
    help: "The form of what --stats prints: table or json [default: table]",
    long_help: "\
The form of what --stats prints: 'table', as without this option, or 'json', an object on a
line of its own for each venue and period, with the same names; \"time\" is when it was
printed, in seconds since 1970 in UTC, \"time_ns\" the same in nanoseconds, and both are null
where the system has no time. At the end there is one for each venue of the whole run, which
has \"total\":true in place of \"second\". What stands in a table only where there was any is a
member only then: \"given_up\", and of a line \"dropped\", \"withheld\", \"other_senders\",
\"unsent\" and \"held_back\"",
};

/// `--metrics ADDR`.
const METRICS: CommandOption<'static> = CommandOption {
    name: "metrics",
    value: "ADDR",
    form: OptionForm::Text,
    help: "Where the counts are served by HTTP, as Prometheus reads them",
    long_help: "\
Serves the counts by HTTP while the run goes on, to whoever asks this address for /metrics, as
Prometheus does: an IP address of this machine and a port, as 127.0.0.1:9464; with port 0
the system picks one, and standard error reports which. Each count begins with nbbo_, and is
that of the run, of a venue, or of a line of a venue, which its labels name. Whoever can
reach the address can read them. A client has 2 seconds, and holds nothing up",
};

/// The options of `listen` for what it receives, in the order in which its help has them.
pub const RECEIVING_OPTIONS: &[CommandOption<'static>] = &[
    SESSIONS,
    LINES,
    ITCH,
    ORDERS,
    END_NUMBER,
    REQUEST,
    REQUEST_AFTER,
    SENDERS,
    FROM,
    MOST_AHEAD,
    JOIN,
    SKIP_AFTER,
    WINDOW,
    JOURNAL,
    DATAGRAMS,
    BUFFER,
];

/// The options of `listen` for how it ends and what it prints, which its help has after these.
pub const LISTENING_OPTIONS: &[CommandOption<'static>] = &[
    END,
    COMPLETE,
    SECONDS,
    UNTIL_INPUT_ENDS,
    SILENT_AFTER,
    RECORD,
    FOLLOW,
    KEPT,
    FORMAT,
    TIMES,
    VENUES,
    STATS,
    STATS_FORMAT,
    METRICS,
    SYMBOLS,
];
