//! `nbbo replay`: its texts and its options.
ghost use Rattle.std.specs.Prelude.{◌≡◌, IfOk, false};
ghost use Rattle.clap.specs.Simple.{app_of};
ghost use Rattle.clap.specs.declared.builder.command.Command.TheViews.{out-Command as fields_of};
ghost use Rattle.command_words.specs.Commands.{replay_app};

use crate::command_texts::{CommandTexts, command_with};
use crate::limits::text;
use crate::option_table::{CommandOption, OptionForm};
use crate::options::{
    CAPTURED_LINES, FROM_TIME, INPUT, JOIN, JOURNAL, OUTPUT, SESSIONS, SKIP_AFTER, SKIP_GAPS,
    SYMBOLS, TIMES, TO_TIME, VENUES, WINDOW,
};
use clap::Command;
use std::alloc::{AllocError, Global};

/// `replay`, in one line.
const ABOUT: &str = "Replays a capture from standard input and prints each event and best";

const LONG_ABOUT: &str = "\
Replays a capture from standard input, and prints a row for each packet, item and change of the
national best.

With --lines the input is a packet capture, pcap or pcapng, as tcpdump and dumpcap write it. The
datagrams of its lines are replayed, in the order of the capture.

Without it a capture is a list of records, one after the other: the venue (1 byte, from 0), a kind
(1 byte), a length (2 bytes, big-endian) and that many bytes. Kind A, B or R is a MoldUDP64
datagram that came on line A, on line B or from recovery. Kind N has ten bytes, the name of the
venue's next session. Kind K has eight bytes, a number (big-endian): the messages below it that are
missing are given up. Kind H declares self-help on the venue, which takes its quotations out of the
national best, and kind W withdraws it; both have length 0.";

/// The usage of `replay`.
const USAGE: &str = "nbbo replay [OPTIONS] --sessions <LIST> [SYMBOL]... < CAPTURE";

/// Examples, for the short help.
const EXAMPLE: &str = "\
Examples:
  nbbo replay --sessions NORTH,SOUTH ACME < capture
  zcat day.capture.gz | nbbo replay --sessions NORTH,SOUTH --best-only --format csv ACME

'--help' also has what a capture is, and each row that is printed.";

/// The part of the long help after the options.
const LINES: &str = text!("\
Printed rows, V a venue from 0, L a line (A, B or R for recovery):
  packet V L taken NEW REPEATED  of a datagram's messages NEW came first, REPEATED came again
  packet V L heartbeat           it has none
  packet V L ended               it announces the end of the session
  packet V L ahead               it goes beyond the window
  packet V L refused N           it is malformed or contradicts what came before: see below
  item V NUMBER KIND             the next message in sequence: quote, halt, trading or other;
                                 skipped, in place of messages that were given up, of which the
                                 last has the number; or end, after the last. It is journaled
  best NOTICE POSITION SYMBOL BID OFFER STATE
                                 the journal's entry at POSITION, an item or a declaration, has
                                 changed the national best bid or offer of the symbol. BID and
                                 OFFER are none or V:PRICExSIZE; STATE is empty, one-sided,
                                 normal, locked or crossed
  gap V NUMBER COUNT             with --gaps: COUNT messages from NUMBER on are to be asked for
  renew V ORDINAL                the venue's next session has begun, the second as 2
  renew V refused N              it can't begin: see below
  skip V NUMBER                  the messages below NUMBER that were missing are given up, by a
                                 record of kind K, or by --join or --skip-gaps, which then do so
                                 before the packet that goes beyond the window, or by --skip-after
                                 before the frame that comes when the gap has stood so long
  skip V refused N               they aren't: see below
  declare V on POSITION          self-help stands on the venue; 'off' where it was withdrawn. In
                                 place of the journal's position 'already' where it was so
  venue V sent SENT wins A B R   after the last record, for each venue: how many items were sent,
                                 and how many messages came first on each line

With --lines standard error reports at the end, where the count isn't 0:
  frames in all, datagrams to lines, datagrams to other addresses passed over
                                 where not each frame has a datagram to a line
  frames without IP, IP packets without UDP
  fragments, cut frames, malformed packets
                                 what a line may have lost: parts of datagrams, frames that were
                                 cut when they were captured, packets with wrong lengths
  frames that can't be read      of a link type, or with an IPv6 extension header, that this
                                 program doesn't know
  frames out of time order       earlier than one before them: rows and figures by time need
                                 frames in order of time, which mergecap or reordercap makes
  frames that the capture says were dropped before packets
  frames that the capture says its interfaces dropped
  frames that the capture says its system dropped
and 'no datagram goes to a line', 'venue V line L had no datagram', 'venue V refused N datagrams of
session NAME, which isn't named', or, of a session that is named to follow another, 'which never
began: the one before it wasn't over'; 'no frame has a time', where an option goes by times;
'a second capture seems to begin at byte N', as after 'cat' of two files.

At the end of a whole capture standard error reports what is missing of each venue: the first
messages that never came, though later ones did, within the window; and which symbols never came:
  nbbo: venue V lacks COUNT messages from NUMBER
  nbbo: symbol S never came
  nbbo: venue V's messages look like ITCH; normalise turns them into quotations
The last one stands where a venue's messages had types and lengths of TotalView-ITCH 5.0 and none of
this project's own. These are reported at a terminal, and where --lines, --best-only, --join,
--skip-gaps or --skip-after is given.

Examples:
  $ nbbo replay --sessions NORTH,SOUTH ACME < capture
  packet 0 A taken 1 0
  item 0 1 quote
  best 1 1 ACME 0:10.1500x300 0:10.1700x200 normal
  packet 0 B taken 0 1
  venue 0 sent 1 wins 1 0 0
  venue 1 sent 0 wins 0 0 0

  $ zcat day.capture.gz | nbbo replay --sessions NORTH,SOUTH --best-only ACME
  best 1 1 ACME 0:10.1500x300 0:10.1700x200 normal

  $ zcat day.capture.gz | nbbo replay --sessions NORTH,SOUTH --best-only --format csv ACME
  notice,position,symbol,bid_venue,bid_price,bid_size,offer_venue,offer_price,offer_size,state
  1,1,ACME,0,10.1500,300,0,10.1700,200,normal

  $ zcat day.capture.gz | nbbo replay --sessions NORTH,SOUTH --best-only --format json ACME
  {\"notice\":1,\"position\":1,\"symbol\":\"ACME\",\"bid\":{\"venue\":0,\"price\":10.1500,\"size\":300},
   \"offer\":{\"venue\":0,\"price\":10.1700,\"size\":200},\"state\":\"normal\"}           (on one line)

Refusals:
   1  fewer than the 20 bytes of a packet's header
   2  a message block is cut
   3  the number is 0
   4  a message would have a number past 2^64 - 1
   7  the packet is of another session than the venue's present one
   8  it goes past the announced end of the session
   9  it announces another end than the one before
  10  it announces an end, and a message at that number or past it came before
  11  a message differs from the one that is held at its number
  35  the present session isn't over: its end wasn't sent
  36  the venue has used the name
  37  the venue has had " MAX_SESSIONS " sessions
  61  the number is past the announced end of the session
  62  no message below the number is missing
  63  a message below the number has come, after one that is missing

Status:
  0  the capture was replayed to its end, or help or the version was shown
  1  the input or the run was refused; the rows of the records before were printed, and no venue
     rows. Standard error reports why:
       journal full    the next item or declaration has no room in the journal; those of the same
                       datagram that had room were printed, too
       bad record      a record's venue isn't below the number of sessions, its kind isn't A, B, R,
                       N, K, H or W, a record N hasn't ten bytes, a record K hasn't eight, or a
                       record H or W has any
       short record    the capture ends within a record
       short record at byte N
                       with --lines: the capture ends within a header, a packet or a block, which
                       begins at that byte, or before the first one; all before it is good
       bad capture at byte N
                       with --lines: from that byte on it is no packet capture; how so follows
       read failed     standard input can't be read
       write failed    standard output can't be written, as where it is a pipe that 'head' has left
       too many turns  input was read 1,000,000,000 times and hasn't ended
       no memory       memory was refused
  2  the command line was refused; standard error reports why. 'bad session': a name is empty, has
     more than ten characters or one that isn't printable ASCII; 'too many sessions': more than " MAX_VENUES ";
     'bad symbol': a symbol is empty, has more than eight characters, or a space or one that isn't
     printable ASCII; 'too many symbols': more than " MAX_SYMBOLS "; 'duplicate symbol': one is named twice;
     'bad format': --format isn't text, csv or json, or --best-only isn't given;
     'bad lines': --lines isn't two addresses for each session, or names one twice; 'bad time': the
     text of --from or --to is none; '--to before --from'; '--from or --to without --best-only';
     '--from or --to without --lines'; 'bad time style': --times is neither seconds nor utc;
     '--times of lines of text', which have none; '--times without --lines'; 'bad venues': --venues
     isn't a name for each session, each once; '--venues of lines of text', which have numbers;
     '--skip-after without --lines'; '--skip-gaps with --skip-after'; 'bad next session': with
     --lines a name after a slash is none, or is that of another session of the venue");

/// The texts of `replay`.
const TEXTS: CommandTexts<'static> = CommandTexts {
    about: ABOUT,
    long_about: LONG_ABOUT,
    usage: USAGE,
    example: EXAMPLE,
    end: LINES,
};

/// `--gaps`.
const GAPS: CommandOption<'static> = CommandOption {
    name: "gaps",
    value: "",
    form: OptionForm::Flag,
    help: "Prints after each datagram which messages are to be asked for, if any are missing",
    long_help: "\
Prints after each datagram, if messages are then missing, which ones to ask for first",
};

/// `--best-only`.
const BEST_ONLY: CommandOption<'static> = CommandOption {
    name: "best-only",
    value: "",
    form: OptionForm::Flag,
    help: "Prints the rows of bests alone",
    long_help: "\
Prints the rows of bests alone: the changes of the national best bid and offer of the symbols
that are named. Without a symbol there are none, and standard error reports that",
};

/// `--format FORMAT`.
const FORMAT: CommandOption<'static> = CommandOption {
    name: "format",
    value: "FORMAT",
    form: OptionForm::Text,
    help: "The format of the rows of bests with --best-only: text, csv or json",
    long_help: "\
The format of the rows of bests with --best-only: 'text', as without this option; 'csv', a
line with the columns' names and then a row each; or 'json', an object on a line each.
Rows end in a line feed alone. A side that there isn't is three empty values in csv and
null in json. Prices have four places. With --lines each row and object ends with the time
of the datagram that caused it, as --times says, and an object also with 'time_ns', an
integer of nanoseconds; empty or null where the packet capture has none. Without
--best-only no format can be given",
};

/// The options of `replay`, in the order in which its help has them.
const OPTIONS: &[CommandOption<'static>] = &[
    SESSIONS,
    CAPTURED_LINES,
    WINDOW,
    JOURNAL,
    JOIN,
    SKIP_GAPS,
    SKIP_AFTER,
    GAPS,
    BEST_ONLY,
    FROM_TIME,
    TO_TIME,
    FORMAT,
    TIMES,
    VENUES,
    INPUT,
    OUTPUT,
    SYMBOLS,
];

/// Returns the whole of `replay`.
pub fn replay_command<'a>(alloc: Global) -> Result<Command<'a>, AllocError>
    ensures app { IfOk result (λ c. app_of c ≡ replay_app) }
    ensures local { IfOk result (λ c. (fields_of c).has_globals ≡ false) }
{
    command_with(alloc, "replay", TEXTS, OPTIONS)
}
