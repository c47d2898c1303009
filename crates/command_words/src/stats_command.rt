//! `nbbo stats`: its texts and its options.
ghost use Rattle.std.specs.Prelude.{◌≡◌, IfOk, false};
ghost use Rattle.clap.specs.Simple.{app_of};
ghost use Rattle.clap.specs.declared.builder.command.Command.TheViews.{out-Command as fields_of};
ghost use Rattle.command_words.specs.Commands.{stats_app};

use crate::command_texts::{CommandTexts, command_with};
use crate::limits::text;
use crate::option_table::{CommandOption, OptionForm};
use crate::options::{
    CAPTURED_LINES, FROM_TIME, INPUT, JOIN, OUTPUT, SESSIONS, SKIP_AFTER, SKIP_GAPS, TIMES,
    TO_TIME, VENUES, WINDOW,
};
use clap::Command;
use std::alloc::{AllocError, Global};

/// `stats`, in one line.
const ABOUT: &str = "Replays a capture and prints counts of its packets, gaps and bests";

const LONG_ABOUT: &str = "\
Replays a capture from standard input and prints counts in place of the rows of 'nbbo replay': of
each venue and each of its lines the packets, messages and gaps, and of the symbols that are named
the changes of the national bests. 'nbbo replay --help' has what a capture is.";

/// The usage of `stats`.
const USAGE: &str = "nbbo stats [OPTIONS] --sessions <LIST> [SYMBOL]... < CAPTURE";

/// Examples, for the short help.
const EXAMPLE: &str = "\
Examples:
  nbbo stats --sessions NORTH,SOUTH ACME < capture
  nbbo stats --sessions NORTH --lines 239.1.1.1:26400,239.1.1.2:26400 --format json < day.pcap

'--help' also has what is counted.";

/// The part of the long help after the options.
const END: &str = "\
Printed for each venue, from 0; rows of zeros alone are left out:
  first a row for each line  its packets; the messages that it lost, which never came on it, and
                             those that came late; those that came on it first, of all lines; how
                             long before the other line, half of these at most; and its longest
                             gap. Durations are in nanoseconds, by the times of the frames
  packets                    a line's datagrams; the bytes of those that are packets; and by the
                             answer to each: 'with messages taken', which came on this line first
                             or again; 'past the window', of which nothing was taken; and those
                             refused, by the fault
  gaps                       of line A, of line B, and of all lines together: how many there were;
                             the messages left out in them; how many of these came late on the line,
                             and how many were given up; the messages that came again; the longest;
                             how many ended by line A, by B, by recovery, by a skip, or had ended
                             before; how many were open at the end; and how many were merged into
                             another one, as a line has 16 open gaps at most. Each is a sum over the
                             rows of --gaps
  messages                   the highest number known; how many are missing still; lost by both
                             lines; given up by records of kind K, --join, --skip-gaps or
                             --skip-after; and of these before a session was joined
  items in sequence          of all lines together, by kind, with an end for each session that was
                             taken to its end, and the number of the last item
  sessions and skips         next sessions begun, by records of kind N or by --sessions, and how
                             many of these were refused; how often gaps were given up, by records of
                             kind K, --join, --skip-gaps or --skip-after, and how many records of
                             kind K were refused
  self-help                  declared, withdrawn, and either where it was so already
  changes of national bests  after which the best bid, or the best offer, is the venue's; also
                             those that have changed the other side alone
and then the changes of national bests, by the state after.

A number far ahead, as of a packet past the window, counts as known once a second packet goes on
from it. A line lost the numbers that its packets passed over and that never came on it, and those
past its last one. It begins where its session was joined, before any message of it came, else at 1.

With --lines there follow leads, by the times of the frames: of each venue, of the messages that came
on both lines, how long the second line took where the other one was first. They are the mean; half
of them within, 90 and 99 of a hundred within, 999 of a thousand within (a sixteenth more at most);
and the longest. Then comes when each line was last heard. A frame without a time has no part in
this.

With --every there are rows in place of all these: of each period in which a frame to any line came,
for each venue a row of line A and one of line B. A row has the time at which the period began, a
whole multiple of its length from 1970 on (UTC); the line's datagrams; the bytes of those that are
packets; the messages in these that were taken, or had come before; those that came on this line
first; and how many messages the numbers of its packets passed over. A period without a frame has no
row, and no period comes twice. The last 16 periods are kept: a late frame counts in its own, and in
the oldest of them where it is later still. Standard error counts those as 'frames earlier than the
16 periods that are kept'. A frame without a time counts in no period. The rows of the last periods
are printed at the end of a whole capture alone. In csv the columns are time, venue, line, packets,
bytes, messages, first and missing; JSON has also time_ns.

With --every and --bests a row has the time at which the period began, the symbol and the venue. Then
come shares of the period's time: in which the best bid was the venue's, and the best offer; in which
the symbol's bid was below its offer ('normal'), equal to it ('locked'), and above it ('crossed').
Last comes the mean spread in dollars over the time in which it was normal, empty or null where
there was none. Rows of zeros are left out. The best that stands when a period begins stands in it
from then on. The time is the latest of the frames so far: a late frame changes a best at that time.
With --from it begins there. The last period's time ends with the capture's last frame, with --to
with the last one before that; its share is of a whole period all the same. A period without a frame
has no row, though a best stood in it. In csv the columns are time, symbol, venue, bid, offer,
normal, locked, crossed and spread; JSON has also time_ns.

With --gaps a row has the venue; the line, A, B or 'all' for what all lines together left out; the
first and the last number; how many messages were left out, and how many of these were given up;
when the gap began and when it ended, in the style of --times, in JSON also in nanoseconds, empty or
null where the frame has no time or there are no frames; and what ended it: the line A, B or
'recovery' that had the last of its messages; 'skip' where the last of them were given up, or some
before it was shown; 'before' where they had come on another line by then; or 'open' where nothing
did, to the end of its session or of the capture. What a join gives up is no gap. In csv the columns
are venue, line, first, last, messages, given_up, began, ended and ended_by; JSON has also began_ns
and ended_ns.

With --types a row has the venue, the line, the type, as a letter of TotalView-ITCH 5.0 or 'other',
and how many messages of it stood in the line's datagrams. In csv the columns are venue, line, type
and messages. Symbols, --window, --join, --skip-gaps and --skip-after have no part in it.

In JSON the counts are one object; null stands where nothing is known:
  venues           a list with an object for each venue: its number as 'venue'; and
    lines          of A, B and recovery: packets bytes taken first repeated heartbeats ends ahead;
                   and in 'refused' by the fault: short_header truncated_block zero_sequence
                   sequence_overflow other_session past_end end_moved end_too_early conflict
    items          quotes halts resumptions others ends last
    gaps           of all lines together, and in A and in B of each: found left_out late given_up
                   again longest_ns ended_by_a ended_by_b ended_by_recovery ended_by_skip before
                   open merged
    beside these   renewals renewals_refused skips skips_refused self_help_declared
                   self_help_withdrawn self_help_already best_bids best_offers
  states           of the changes of national bests: empty one_sided normal locked crossed
  losses           of each venue: known missing lost_by_both given_up before_join; and in A and in B
                   of each line: lost late
  in_time          with --lines, the most messages in a second and in a millisecond, and when these
                   began, as --times says: busiest_second busiest_millisecond
                   busiest_second_began busiest_millisecond_began; how many datagrams came after 16
                   later seconds, or milliseconds, and so count in the oldest of these:
                   late_for_second late_for_millisecond; and in 'venues' of each venue
    a_first        and b_first, by the line that was first in time: messages mean_ns p50_ns p90_ns
                   p99_ns p999_ns longest_ns
    last_packets   of A, B and recovery, as --times says
With --format csv each figure has a row: the venue, the line, the figure and its value. The figure
has the name that JSON has, after a word of its part where it has one: refused_, gaps_, items_,
lead_ of the line that was first in time, last_packet_, or changes_ by the state after. The words
and numbers of refusals are those of 'nbbo replay --help'.

Examples:
  nbbo stats --sessions NORTH,SOUTH ACME < capture
  zcat day.capture.gz | nbbo stats --sessions NORTH,SOUTH --format json | jq '.venues[].lines.B'
  nbbo stats --sessions NORTH --lines 239.1.1.1:26400,239.1.1.2:26400 < day.pcap
  nbbo stats --sessions NORTH --lines 239.1.1.1:26400,239.1.1.2:26400 --gaps < day.pcap
  nbbo stats --sessions NORTH --lines 239.1.1.1:26400,239.1.1.2:26400 --every 1s < day.pcap
  nbbo stats --sessions NORTH --lines 239.1.1.1:26400,239.1.1.2:26400 --every 1s --bests \\
    --from 2026-11-28T14:30:00Z --to 2026-11-28T14:31:00Z ACME < day.pcap

Status:
  0  the capture was replayed to its end and the counts were printed, or help was shown
  1  the input or the run was refused; standard error reports why, as of 'nbbo replay'. The counts of
     the records before were printed, unless there were none or it is 'write failed' or 'no memory'
  2  the command line was refused: 'bad format' where the format is none of those; 'bad period'
     where that of --every is none; '--every without --lines'; '--gaps with --every'; '--bests
     without --every'; '--types with --gaps, --every or --bests'; else as of 'nbbo replay'

At the end of a whole capture standard error reports what is missing, as of 'nbbo replay', and with
--lines it counts what was passed over, as of 'nbbo replay --lines'.";

/// The texts of `stats`.
const TEXTS: CommandTexts<'static> = CommandTexts {
    about: ABOUT,
    long_about: LONG_ABOUT,
    usage: USAGE,
    example: EXAMPLE,
    end: END,
};

/// `--gaps` of `stats`.
const GAPS: CommandOption<'static> = CommandOption {
    name: "gaps",
    value: "",
    form: OptionForm::Flag,
    help: "Prints a row for each gap in place of the counts",
    long_help: "\
Prints in place of the counts a row for each gap in the numbers of the messages, as it ends,
and at the end of the capture those of the gaps that are open. A gap of line A, of line B,
or of all lines together is a run of numbers that a packet of it passes over. It ends when
these have come on any line or were given up",
};

/// `--types` of `stats`.
const TYPES: CommandOption<'static> = CommandOption {
    name: "types",
    value: "",
    form: OptionForm::Flag,
    help: "Prints how many messages of each type of ITCH each line had, in place of counts",
    long_help: "\
Prints in place of the counts a row for each venue, line and type of TotalView-ITCH 5.0 of which
a message came on the line: how many, each as often as it came. 'other' is any other type, or
another length than the type's. Nothing is replayed",
};

/// `--every PERIOD`.
const EVERY: CommandOption<'static> = CommandOption {
    name: "every",
    value: "PERIOD",
    form: OptionForm::Text,
    help: "Prints rows of each period of this length in place of counts, as 100ms or 1s",
    long_help: "\
Prints a row for each line of each venue in each period of this length, in place of the
counts: a whole number of milliseconds or seconds, as 100ms or 1s, from 1ms to 3600s.
Only with --lines, by the times of the frames",
};

/// `--bests` of `stats`.
const BESTS: CommandOption<'static> = CommandOption {
    name: "bests",
    value: "",
    form: OptionForm::Flag,
    help: "Prints with --every how long venues had the national bests, and the spread",
    long_help: "\
Prints in place of the rows of --every a row for each venue of each symbol in each period:
in which share of the period's time the best bid was the venue's, and the best offer, the
first of those that were tied; in which share the symbol's bid was below its offer, in
which it was locked, and in which crossed; and the mean spread meanwhile. Rows of zeros are
left out",
};

/// `--format FORMAT`.
const FORMAT: CommandOption<'static> = CommandOption {
    name: "format",
    value: "FORMAT",
    form: OptionForm::Text,
    help: "The format of the counts: table, csv or json; of rows: csv or json",
    long_help: "\
The format of the counts: 'table', as without this option; 'csv', a line with the columns'
names and then a row for each figure; or 'json', an object on a line of its own. With --gaps,
--types or --every that of the rows: 'csv', as without this option, a line with the columns' names and
then a row each; or 'json', an object on a line each",
};

/// `SYMBOL..`, the symbols of whose national best the changes are counted.
const COUNTED_SYMBOLS: CommandOption<'static> = CommandOption {
    name: "symbols",
    value: "SYMBOL",
    form: OptionForm::Words,
    help: text!("The symbols of whose national best the changes are counted, at most " MAX_SYMBOLS),
    long_help: text!("\
The symbols of whose national best bid and offer the changes are counted: at most " MAX_SYMBOLS "
words, each once, of 1 to 8 characters of printable ASCII without a space (bytes 21 to
7e). A word @FILE stands for the lines of that file, a symbol each. Write '--' before them
where one begins with '-' or '@'. Without a symbol there are none"),
};

/// The options of `stats`, in the order in which its help has them.
const OPTIONS: &[CommandOption<'static>] = &[
    SESSIONS,
    CAPTURED_LINES,
    WINDOW,
    JOIN,
    SKIP_GAPS,
    SKIP_AFTER,
    GAPS,
    TYPES,
    EVERY,
    BESTS,
    FROM_TIME,
    TO_TIME,
    FORMAT,
    TIMES,
    VENUES,
    INPUT,
    OUTPUT,
    COUNTED_SYMBOLS,
];

/// Returns the whole of `stats`.
pub fn stats_command<'a>(alloc: Global) -> Result<Command<'a>, AllocError>
    ensures app { IfOk result (λ c. app_of c ≡ stats_app) }
    ensures local { IfOk result (λ c. (fields_of c).has_globals ≡ false) }
{
    command_with(alloc, "stats", TEXTS, OPTIONS)
}
