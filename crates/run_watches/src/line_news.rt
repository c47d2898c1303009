//! What is said of lines while a run goes on, and what was counted of them at its end.
ghost use Rattle.std.specs.Prelude.{◌≡◌, decimal};
ghost use Rattle.text_out.specs.Members.{writing_of};
ghost use Rattle.text_out.specs.StandardError.{Says, SaysEach};
ghost use Rattle.run_watches.specs.News.{change_text, change_texts, counted_text, counted_texts, letter_text, line_end_texts, line_name_texts, ms_texts, news_texts, rest_texts, named_session_texts, time_texts, total_texts, verb_text};

use feed_types::{LineId, SessionName, VenueId};
use run_notes::{write_session_name, write_venue_name};
use run_settings::VenueNames;
use text_out::{TextOut, write_number, write_stderr};

/// What has happened to a line.
#[derive(Clone, Copy, Debug, PartialEq, Eq)]
pub enum LineChange {
    /// An end of session has ended it.
    Ended,
    /// That was an end of this session.
    EndedWith(SessionName),
    /// It has read as many datagrams as it may.
    ReadOut,
    /// Its socket has failed, or memory for a datagram was refused.
    Failed,
    /// Its first request couldn't be sent.
    Unsent,
    /// It went on after an end of session, for the first time.
    Passed,
    /// It passed over a datagram of a sender whose datagrams aren't taken, for the first time.
    Foreign,
    /// It withheld a datagram since it isn't plausible, for the first time.
    Withheld,
    /// It held a request back, for the first time.
    HeldBack,
    /// It brought this session, which isn't its venue's.
    Stranger(SessionName),
    /// It has brought nothing for this many milliseconds.
    Silent(u64),
    /// The same, and its address is that of a group that isn't joined.
    Unjoined(u64),
    /// It has brought something after a silence.
    Heard,
    /// It has never brought a datagram.
    Unheard,
}

/// What has happened to a line, and when.
#[derive(Clone, Copy, Debug, PartialEq, Eq)]
pub struct LineNews {
    /// How many seconds of the run had passed.
    pub second: u64,
    /// The line's venue.
    pub venue: VenueId,
    /// The line.
    pub line: LineId,
    /// What has happened.
    pub change: LineChange,
}

/// What is counted of a line.
#[derive(Clone, Copy, Debug, PartialEq, Eq)]
pub enum LineCounted {
    /// Requests that couldn't be sent.
    Unsent,
    /// Ends of session after which it went on.
    Passed,
    /// Datagrams of other senders that it passed over.
    Foreign,
    /// Datagrams that the system dropped at its socket.
    Dropped,
    /// Datagrams that were withheld since they aren't plausible.
    Withheld,
    /// Requests that weren't sent since too many were.
    HeldBack,
}

/// How much was counted of a line.
#[derive(Clone, Copy, Debug, PartialEq, Eq)]
pub struct LineTotal {
    /// The line's venue.
    pub venue: VenueId,
    /// The line.
    pub line: LineId,
    /// What was counted.
    pub counted: LineCounted,
    /// How many there were.
    pub count: u64,
}

/// The letter of a line, after a space.
fn letter(line: LineId) -> &'static str
    ensures { result.now ≡ letter_text line }
{
    match line {
        LineId::A => " A",
        LineId::B => " B",
        LineId::Recovery => " R",
    }
}

/// The end of the line about what has happened, up to a session's name or a number where that is
/// told.
fn change_end(change: LineChange) -> &'static str
    ensures { result.now ≡ change_text change }
{
    match change {
        LineChange::Ended => " ended by an end of session\n",
        LineChange::EndedWith(_) => " ended with session ",
        LineChange::ReadOut => " ended by --datagrams\n",
        LineChange::Failed => " failed\n",
        LineChange::Unsent => " can't send requests\n",
        LineChange::Passed => " goes on after an end of session\n",
        LineChange::Foreign => " passes over datagrams of senders not in --from\n",
        LineChange::Withheld => " withholds datagrams that aren't plausible\n",
        LineChange::HeldBack => " holds requests back\n",
        LineChange::Stranger(_) => " brings session ",
        LineChange::Silent(_) | LineChange::Unjoined(_) => " has brought nothing for ",
        LineChange::Heard => " is heard again\n",
        LineChange::Unheard => " had no datagram\n",
    }
}

/// What stands before a count.
fn verb(counted: LineCounted) -> &'static str
    ensures { result.now ≡ verb_text counted }
{
    match counted {
        LineCounted::Unsent => " couldn't send ",
        LineCounted::Passed => " went on after ",
        LineCounted::Foreign => " passed over ",
        LineCounted::Dropped => " lost ",
        LineCounted::Withheld => " withheld ",
        LineCounted::HeldBack => " held back ",
    }
}

/// What stands after a count.
fn counted_end(counted: LineCounted, count: u64) -> &'static str
    ensures { result.now ≡ counted_text counted count }
{
    match counted {
        LineCounted::Unsent | LineCounted::HeldBack if count == 1 => " request\n",
        LineCounted::Unsent | LineCounted::HeldBack => " requests\n",
        LineCounted::Passed if count == 1 => " end of session\n",
        LineCounted::Passed => " ends of session\n",
        LineCounted::Foreign if count == 1 => " datagram of senders not in --from\n",
        LineCounted::Foreign => " datagrams of senders not in --from\n",
        LineCounted::Dropped if count == 1 => " datagram that the system dropped\n",
        LineCounted::Dropped => " datagrams that the system dropped\n",
        LineCounted::Withheld if count == 1 => " datagram that isn't plausible\n",
        LineCounted::Withheld => " datagrams that aren't plausible\n",
    }
}

/// Writes in which second something has happened.
fn write_time<E: TextOut>(second: u64, errors: &mut E)
    ensures { SaysEach (writing_of E.TextOut) (time_texts second) errors.old errors.new }
{
    write_stderr("nbbo: second ", errors);
    write_number(second, errors);
    write_stderr(" line ", errors);
}

/// Writes which line it is.
fn write_line_name<E: TextOut>(names: &VenueNames, venue: VenueId, line: LineId, errors: &mut E)
    ensures { SaysEach (writing_of E.TextOut)
        (line_name_texts names.now venue line) errors.old errors.new }
{
    write_venue_name(names, venue, errors);
    write_stderr(letter(line), errors);
}

/// Writes the name of a session, and then this text.
fn write_session<E: TextOut>(session: &SessionName, end: &str, errors: &mut E)
    ensures { SaysEach (writing_of E.TextOut)
        (named_session_texts session.now end.now) errors.old errors.new }
{
    write_session_name(session, errors);
    write_stderr(end, errors);
}

/// Writes how many milliseconds they are, and then this text.
fn write_ms<E: TextOut>(ms: u64, end: &str, errors: &mut E)
    ensures { SaysEach (writing_of E.TextOut) (ms_texts ms end.now) errors.old errors.new }
{
    write_number(ms, errors);
    write_stderr(end, errors);
}

/// Writes the session's name, or the number, and ends the line, where that is told.
fn write_rest<E: TextOut>(change: LineChange, errors: &mut E)
    ensures { SaysEach (writing_of E.TextOut) (rest_texts change) errors.old errors.new }
{
    match change {
        LineChange::EndedWith(session) => write_session(&session, "\n", errors),
        LineChange::Stranger(session) => {
            write_session(&session, ", which isn't its venue's\n", errors)
        }
        LineChange::Silent(ms) => write_ms(ms, " ms\n", errors),
        LineChange::Unjoined(ms) => write_ms(ms, " ms, its group isn't joined\n", errors),
        _ => {}
    }
}

/// Writes the end of the line about what has happened.
fn write_change<E: TextOut>(change: LineChange, errors: &mut E)
    ensures { SaysEach (writing_of E.TextOut) (change_texts change) errors.old errors.new }
{
    write_stderr(change_end(change), errors);
    write_rest(change, errors);
}

/// Writes what has happened to a line.
pub fn write_news<E: TextOut>(names: &VenueNames, news: &LineNews, errors: &mut E)
    ensures { SaysEach (writing_of E.TextOut)
        (news_texts names.now news.now) errors.old errors.new }
{
    write_time(news.second, errors);
    write_line_name(names, news.venue, news.line, errors);
    write_change(news.change, errors);
}

/// Writes how a line has ended.
pub fn write_line_end<E: TextOut>(
    names: &VenueNames,
    venue: VenueId,
    line: LineId,
    change: LineChange,
    errors: &mut E,
)
    ensures { SaysEach (writing_of E.TextOut)
        (line_end_texts names.now (venue, line) change) errors.old errors.new }
{
    write_stderr("nbbo: line ", errors);
    write_line_name(names, venue, line, errors);
    write_change(change, errors);
}

/// Writes how many there were.
fn write_counted<E: TextOut>(total: &LineTotal, errors: &mut E)
    ensures { SaysEach (writing_of E.TextOut) (counted_texts total.now) errors.old errors.new }
{
    write_stderr(verb(total.counted), errors);
    write_number(total.count, errors);
    write_stderr(counted_end(total.counted, total.count), errors);
}

/// Writes how much was counted of a line.
pub fn write_total<E: TextOut>(names: &VenueNames, total: &LineTotal, errors: &mut E)
    ensures { SaysEach (writing_of E.TextOut)
        (total_texts names.now total.now) errors.old errors.new }
{
    write_stderr("nbbo: line ", errors);
    write_line_name(names, total.venue, total.line, errors);
    write_counted(total, errors);
}
