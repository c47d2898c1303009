//! `nbbo listen`: its texts and its options.
ghost use Rattle.std.specs.Prelude.{◌≡◌, IfOk, false};
ghost use Rattle.clap.specs.Simple.{app_of};
ghost use Rattle.clap.specs.declared.builder.command.Command.TheViews.{out-Command as fields_of};
ghost use Rattle.command_words.specs.Commands.{listen_app, receiving_app};

use crate::command_texts::{CommandTexts, command_with};
use crate::listen_options::{LISTENING_OPTIONS, RECEIVING_OPTIONS};
use crate::option_table::with_options;
use clap::Command;
use std::alloc::{AllocError, Global};

/// `listen`, in a line.
const ABOUT: &str = "Listens on the lines of live venues and prints the national bests";

const LONG_ABOUT: &str = "\
Listens on the lines of live venues and prints the changes of the national bests.

Each venue sends the same MoldUDP64 packets on two lines, A and B. Each line is received by UDP, in
a thread of its own. The packets of both lines are put into one sequence. From these sequences the
national best bid and offer of each symbol is kept. A line ends after an end of session, by default
of any (--end), or after the number of datagrams of --datagrams. --seconds and --until-input-ends
end all lines. The changes are printed once all lines have ended, with --follow as they come.";

/// The usage of `listen`.
const USAGE: &str = "nbbo listen [OPTIONS] --sessions <LIST> --lines <LIST> [SYMBOL]...";

/// An example, for the short help.
const EXAMPLE: &str = "\
Example, one venue whose lines are received on two ports:
  nbbo listen --sessions 0000000001 --lines 127.0.0.1:7001,127.0.0.1:7002 ACME

'--help' also has an example to try at once, and each row that is printed.";

/// The part of the long help after the options.
const LINES: &str = "\
Printed rows, once all lines have ended; with --follow each row of a best as it comes:
  best NOTICE POSITION SYMBOL BID OFFER STATE
                                 the journal's entry at POSITION has changed the national best bid
                                 or offer of the symbol. BID and OFFER are none or V:PRICExSIZE;
                                 STATE is empty, one-sided, normal, locked or crossed
  venue V sent SENT wins A B R   for each venue: how many items came in sequence, and how many
                                 messages came first on each line. R is 0 where replies to requests
                                 come on line A or B: see --request. With --format csv or json there
                                 are rows of bests alone

An example to try, from the folder of the program's sources. Start this in the background:
  ./nbbo listen --sessions NORTH,SOUTH --lines \
      127.0.0.1:7001,127.0.0.1:7002,127.0.0.1:7003,127.0.0.1:7004 ACME &
Then send it a capture, each datagram to its line, and an end to each line:
  tools/send_lines --lines \
      127.0.0.1:7001,127.0.0.1:7002,127.0.0.1:7003,127.0.0.1:7004 --end \
      < examples/two-venues.capture

The program doesn't join multicast groups; the system does. As root, once for each group, on the
interface that receives it:
  ip address add 239.1.1.1/32 dev eth0 autojoin
Then --lines 239.1.1.1:26400,.. receives what is sent to that group and port, and nothing else.
For more than 20 groups, as root, beforehand:
  sysctl -w net.ipv4.igmp_max_memberships=64

What a sender should do at the end: send heartbeats for some seconds, one in each second at least,
and then the end of session. A gap is asked for after a datagram has come, and again 250 ms or more
later. So without heartbeats nobody asks for the last messages, where both lines lost them. What is
still missing is reported.

A line's socket has the system's default buffer, often with room for some 250 small datagrams.
The system drops more than these while the line's thread waits for a processor. --buffer asks for
more room. Where standard error reports that the system allows no more, as root, beforehand:
  sysctl -w net.core.rmem_max=4194304

Ctrl-C ends the program at once, and nothing more is printed. To have everything printed, send each
line an end of session, or let Ctrl-C close only the program's input:
  cat | (trap '' INT; nbbo listen --until-input-ends --sessions .. > best.txt)

Status:
  0  all lines ended and the changes were printed, or help was shown. Standard error reports at
     the end:
       line V L couldn't send N requests
                        as where a firewall refuses them or there is no route
       line V L went on after N ends of session
                        which by --end don't end it
       line V L passed over N datagrams of senders not in --from
                        or --senders, which is the same
       line V L ended by --datagrams
                        the line has read as many datagrams as it may
       venue V lacks COUNT messages from NUMBER
                        the first messages that never came, though later ones did, within the
                        window. Nothing past them was printed; with --complete the status is 3
       venue V lacks COUNT messages from NUMBER, and is quoted no more
                        of --itch: these were given up, and nothing past them was printed of that
                        session
     and with an option other than --sessions, --lines, --request, --window, --journal and
     --datagrams, or with sessions that follow others:
       line V L lost N datagrams that the system dropped
                        at the line's socket, mostly since its buffer was full: see --buffer
       line V L ended with session NAME
                        with an end of that session, the venue's or another: see --end
       line V L had no datagram
                        none of a sender that is accepted
       line V L brings session NAME, which isn't its venue's
                        the first other session that came
       line V L withheld N datagrams that aren't plausible
                        more than --most-ahead messages past what the venue's lines have had, or
                        ends of session that no other line has had: see --most-ahead
       line V L held back N requests
                        of more than a hundred in a second
       symbol S never came, N more symbols never came
                        no item in sequence was of it
       symbol S never had a best, N more symbols never had a best
                        in place of that with --follow: no change of its best was printed
  1  standard error reports why:
       line V L failed  the line's socket failed, and that line ended there. The others went on,
                        and their changes were printed
       journal full     the journal has no room for a next item, so all lines were ended; what
                        had room was printed. See --journal
       subscriber too far behind
                        more changes than --kept wait to be printed, and nobody goes on to print
                        them, so all lines were ended; what was taken was printed
       no thread        a thread could not be started; what was taken was printed
       recording not opened
                        the file of --record can't be written; nothing was read
       recording failed
                        it couldn't be written any further, and ended there; the run went on
       recording without N datagrams and skips
                        these aren't in the file of --record, which the disk was too slow for; the
                        run is whole
       bind failed      an address of --lines, or that of --metrics, isn't of this machine, or is
                        in use; nothing was read
       write failed     standard output can't be written, or with --follow nobody read it for five
                        seconds after --seconds or the end of standard input
       no memory        memory was refused
  2  the command line was refused; standard error reports why. 'bad session', 'too many sessions',
     'bad symbol', 'too many symbols' and 'duplicate symbol' as of 'nbbo replay'; 'bad lines': not
     two addresses for each session, or a venue without a line; 'bad request address': it is none,
     or none that the lines can send to (port 0, IP address 0.0.0.0 or [::], another version of IP
     than a line's); 'bad end': --end is neither any nor own nor none; '--kept without --follow':
     without it all changes are kept; 'bad sender': --senders or --from isn't IP addresses, with or
     without a port; '--senders with --from', which are the same; 'bad file for --record': its name
     is empty; 'bad metrics address': --metrics isn't an IP address and a port; '--itch names a
     session that --sessions doesn't'; '--itch names a session twice'; 'bad end number': --end-number
     is neither next nor last; 'bad format': --stats-format is neither table nor json, or --stats
     isn't given, or --format is neither text nor csv nor json; '--format without --follow'; 'bad
     time style': --times is neither seconds nor utc; '--times of lines of text', which have none;
     'bad venues': --venues isn't a name for each session, each once
  3  with --complete: as 0, and messages are missing

While it runs standard error reports when a line ends or fails, its first request that can't be
sent, the first end of session after which it goes on, and the first datagram of a sender that isn't
in --from:
  nbbo: second N line V L ended by an end of session
.. ended by --datagrams, failed, can't send requests, goes on after an end of session, passes over
datagrams of senders not in --from. With an option other than --sessions, --lines, --request,
--window, --journal and --datagrams it also reports with which session a line ended; a gap that has
stood for a second, and when its messages have come; and the first gap whose messages were asked for
two seconds ago without any reply:
  nbbo: second N line V L ended with session NAME
  nbbo: second N venue V lacks COUNT messages from NUMBER
.. no longer lacks COUNT .., has no reply to requests for COUNT .. With such an option it also
reports a line without a datagram for as long as --silent-after has it, and when that is heard
again; the first datagram of another session; the first that is withheld; and the first request that
is held back:
  nbbo: second N line V L has brought nothing for MS ms
.. has brought nothing for MS ms, its group isn't joined, is heard again, brings session NAME, which
isn't its venue's, withholds datagrams that aren't plausible, holds requests back. With --follow it
reports when nobody reads standard output for a second, and how many changes wait for a reader.
Standard error itself is not waited for. Where it was full, it has how many texts are missing once
it takes some again:
  nbbo: second N output isn't read, COUNT changes wait
.. output is read again, standard error wasn't read, COUNT texts are missing";

/// The texts of `listen`.
const TEXTS: CommandTexts<'static> = CommandTexts {
    about: ABOUT,
    long_about: LONG_ABOUT,
    usage: USAGE,
    example: EXAMPLE,
    end: LINES,
};

/// Returns `listen` with the options for what it receives.
fn receiving_command<'a>(alloc: Global) -> Result<Command<'a>, AllocError>
    ensures app { IfOk result (λ c. app_of c ≡ receiving_app) }
    ensures local { IfOk result (λ c. (fields_of c).has_globals ≡ false) }
{
    command_with(alloc, "listen", TEXTS, RECEIVING_OPTIONS)
}

/// Returns the whole of `listen`.
pub fn listen_command<'a>(alloc: Global) -> Result<Command<'a>, AllocError>
    ensures app { IfOk result (λ c. app_of c ≡ listen_app) }
    ensures local { IfOk result (λ c. (fields_of c).has_globals ≡ false) }
{
    with_options(alloc, receiving_command(alloc)?, LISTENING_OPTIONS)
}
