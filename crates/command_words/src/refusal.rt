//! The reasons why the program has no settings.
ghost use Rattle.std.specs.Prelude.{◌≡◌};
ghost use Rattle.command_words.specs.CommandLine.{refusal_status, refusal_text};
ghost use Rattle.command_words.specs.declared.refusal.Refusal.TheVariants.{NoMemory};

use std::alloc::AllocError;

/// The text where gaps are to be given up after some time, and the input has no times.
const NO_TIMES: &str = "nbbo: --skip-after without --lines: only a packet capture has times\n";

/// The text where the sessions that follow others are none.
const BAD_NEXT_SESSION: &str =
    "nbbo: bad next session: after a slash a name of 1 to 10 characters, each of a venue once\n";

/// The text where a venue in ITCH is named by a session that is no venue's first one.
const UNKNOWN_ITCH: &str = "nbbo: --itch names a session that --sessions doesn't\n";

/// The text where a snapshot is of a session that is no venue's first one.
const UNKNOWN_SNAPSHOT: &str = "nbbo: --snapshot names a session that --sessions doesn't\n";

/// Why there are no settings.
#[derive(Debug, Drop)]
pub enum Refusal {
    /// Help or the version was asked for; its text.
    Shown(String),
    /// The words are no command line of the program. The text says what is wrong with them.
    Usage(String),
    /// A word isn't UTF-8.
    NotText,
    /// A session name is empty, has more than ten bytes, or has a byte outside of `20` to `7e`.
    BadSession,
    /// More than 16 sessions are named.
    TooManySessions,
    /// The sessions that follow others are no names, more than 64 of a venue, or one of a venue is
    /// named twice.
    BadNextSession,
    /// The lines aren't two addresses for each session, or neither line of a session is there.
    BadLines,
    /// The text for the address of requests is no address, or one to which no request can be sent.
    BadRequest,
    /// The format of the best lines is none of those that there are, or is given where a replay
    /// prints all lines; or so is that of counts, which is given where none are printed.
    BadFormat,
    /// The length of periods is none from a millisecond to an hour.
    BadPeriod,
    /// Rows of periods are asked for, and the input has no times.
    EveryWithoutLines,
    /// Rows of gaps are asked for, and rows of periods, too.
    GapsWithEvery,
    /// Rows of national bests are asked for, and there are no periods.
    BestsWithoutEvery,
    /// Counts by type are asked for, and rows of another kind, too.
    TypesWithRows,
    /// Gaps are to be given up after some time, and the input has no times.
    SkipAfterWithoutLines,
    /// Gaps are to be given up after some time, and at the window, too.
    SkipGapsWithSkipAfter,
    /// The text for a time is none.
    BadTime,
    /// The end of a span of time is before its beginning.
    ToBeforeFrom,
    /// A span of time is asked for where all lines are printed.
    SpanOfLines,
    /// A span of time is asked for, and the input has no times.
    SpanWithoutLines,
    /// The style of times is none of those that there are.
    BadTimeStyle,
    /// The style of times is said where lines of text are printed, which have none.
    TimesOfText,
    /// The style of times is said, and the input has no times.
    TimesWithoutLines,
    /// The list of venues' names doesn't have one for each venue, each once.
    BadVenues,
    /// Venues are named where lines of text are printed, which have numbers.
    VenuesOfText,
    /// The rule by which an end of session ends a line is none of those that there are.
    BadEnd,
    /// How many changes are kept is said where all are, since best lines aren't printed as they
    /// come.
    KeptUnfollowed,
    /// The format of best lines is said where they aren't printed as they come.
    FormatUnfollowed,
    /// The list of senders isn't addresses, with or without a port.
    BadSender,
    /// The list of senders is given by both of its names.
    SendersWithFrom,
    /// The name of the file of a recording is empty.
    BadRecording,
    /// The text for the address of metrics is no address.
    BadMetrics,
    /// A venue in ITCH is named by a session that is no venue's first one.
    UnknownItch,
    /// A venue in ITCH is named twice.
    ItchTwice,
    /// The rule for the number of an end of session is none of those that there are.
    BadEndNumber,
    /// The text for a snapshot has no `=`, or no name of a file after it.
    BadSnapshot,
    /// A snapshot is of a session that is no venue's first one.
    UnknownSnapshot,
    /// A venue has two snapshots.
    SnapshotTwice,
    /// The name of the file that is read in place of standard input is empty.
    BadInput,
    /// The name of the file that is written in place of standard output is empty.
    BadOutput,
    /// A symbol is empty, has more than eight bytes, or has a byte outside of `21` to `7e`.
    BadSymbol,
    /// More than 4,096 symbols are named.
    TooManySymbols,
    /// A symbol is named twice.
    DuplicateSymbol,
    /// Memory was refused.
    NoMemory,
}

impl Refusal {
    /// Returns the status of the program: 0 after help or the version, 1 where memory was refused,
    /// else 2.
    pub fn status(&self) -> u8
        ensures { result ≡ refusal_status self.now }
    {
        match self {
            Refusal::Shown(_) => 0,
            Refusal::NoMemory => 1,
            Refusal::Usage(_) | Refusal::NotText => 2,
            Refusal::BadSession | Refusal::TooManySessions | Refusal::BadNextSession => 2,
            Refusal::BadLines | Refusal::BadRequest => 2,
            Refusal::BadFormat | Refusal::BadPeriod | Refusal::EveryWithoutLines => 2,
            Refusal::BestsWithoutEvery | Refusal::BadTime | Refusal::ToBeforeFrom => 2,
            Refusal::SpanOfLines | Refusal::SpanWithoutLines => 2,
            Refusal::SkipAfterWithoutLines | Refusal::SkipGapsWithSkipAfter => 2,
            Refusal::TypesWithRows => 2,
            Refusal::BadTimeStyle | Refusal::TimesOfText | Refusal::TimesWithoutLines => 2,
            Refusal::BadVenues | Refusal::VenuesOfText => 2,
            Refusal::GapsWithEvery | Refusal::BadEnd | Refusal::KeptUnfollowed => 2,
            Refusal::FormatUnfollowed | Refusal::BadSender | Refusal::BadMetrics => 2,
            Refusal::SendersWithFrom | Refusal::BadRecording => 2,
            Refusal::UnknownItch | Refusal::ItchTwice => 2,
            Refusal::BadEndNumber | Refusal::BadInput | Refusal::BadOutput => 2,
            Refusal::BadSnapshot | Refusal::UnknownSnapshot | Refusal::SnapshotTwice => 2,
            Refusal::BadSymbol | Refusal::TooManySymbols | Refusal::DuplicateSymbol => 2,
        }
    }

    /// Returns the text that is printed, with its line ends: on standard output where the status is
    /// 0, else on standard error.
    pub fn text(&self) -> &str
        ensures { result.now ≡ refusal_text self.now }
    {
        match self {
            Refusal::Shown(text) | Refusal::Usage(text) => text.as_str(),
            Refusal::NotText => "nbbo: the command line is not UTF-8\n",
            Refusal::BadSession => "nbbo: bad session\n",
            Refusal::TooManySessions => "nbbo: too many sessions\n",
            Refusal::BadNextSession => BAD_NEXT_SESSION,
            Refusal::BadLines => "nbbo: bad lines\n",
            Refusal::BadRequest => "nbbo: bad request address\n",
            Refusal::BadFormat => "nbbo: bad format\n",
            Refusal::BadPeriod => "nbbo: bad period\n",
            Refusal::EveryWithoutLines => "nbbo: --every without --lines\n",
            Refusal::GapsWithEvery => "nbbo: --gaps with --every\n",
            Refusal::BestsWithoutEvery => "nbbo: --bests without --every\n",
            Refusal::TypesWithRows => "nbbo: --types with --gaps, --every or --bests\n",
            Refusal::SkipAfterWithoutLines => NO_TIMES,
            Refusal::SkipGapsWithSkipAfter => "nbbo: --skip-gaps with --skip-after\n",
            Refusal::BadTime => "nbbo: bad time\n",
            Refusal::ToBeforeFrom => "nbbo: --to before --from\n",
            Refusal::SpanOfLines => "nbbo: --from or --to without --best-only\n",
            Refusal::SpanWithoutLines => "nbbo: --from or --to without --lines\n",
            Refusal::BadTimeStyle => "nbbo: bad time style\n",
            Refusal::TimesOfText => "nbbo: --times of lines of text, which have none\n",
            Refusal::TimesWithoutLines => "nbbo: --times without --lines\n",
            Refusal::BadVenues => "nbbo: bad venues\n",
            Refusal::VenuesOfText => "nbbo: --venues of lines of text, which have numbers\n",
            Refusal::BadEnd => "nbbo: bad end\n",
            Refusal::KeptUnfollowed => "nbbo: --kept without --follow\n",
            Refusal::FormatUnfollowed => "nbbo: --format without --follow\n",
            Refusal::BadSender => "nbbo: bad sender\n",
            Refusal::SendersWithFrom => "nbbo: --senders with --from\n",
            Refusal::BadRecording => "nbbo: bad file for --record\n",
            Refusal::BadMetrics => "nbbo: bad metrics address\n",
            Refusal::UnknownItch => UNKNOWN_ITCH,
            Refusal::ItchTwice => "nbbo: --itch names a session twice\n",
            Refusal::BadEndNumber => "nbbo: bad end number\n",
            Refusal::BadSnapshot => "nbbo: bad snapshot\n",
            Refusal::UnknownSnapshot => UNKNOWN_SNAPSHOT,
            Refusal::SnapshotTwice => "nbbo: --snapshot names a session twice\n",
            Refusal::BadInput => "nbbo: bad file for --input\n",
            Refusal::BadOutput => "nbbo: bad file for --output\n",
            Refusal::BadSymbol => "nbbo: bad symbol\n",
            Refusal::TooManySymbols => "nbbo: too many symbols\n",
            Refusal::DuplicateSymbol => "nbbo: duplicate symbol\n",
            Refusal::NoMemory => "nbbo: no memory\n",
        }
    }
}

impl From<AllocError> for Refusal {
    ghost from_gives = { λ _ refusal. refusal ≡ NoMemory };

    fn from(_error: AllocError) -> Refusal {
        Refusal::NoMemory
    }
}
