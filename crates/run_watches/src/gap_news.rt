//! What is said of a venue's gap while a run goes on.
ghost use Rattle.std.specs.Prelude.{◌≡◌, decimal};
ghost use Rattle.text_out.specs.Members.{writing_of};
ghost use Rattle.text_out.specs.StandardError.{Says, SaysEach};
ghost use Rattle.run_watches.specs.GapNews.{gap_change_text, gap_news_texts, messages_from_text, missing_range_texts, venue_time_texts};

use feed_types::{MissingRange, VenueId};
use run_notes::write_venue_name;
use run_settings::VenueNames;
use text_out::{TextOut, write_number, write_stderr};

/// What has happened to a gap.
#[derive(Clone, Copy, Debug, PartialEq, Eq)]
pub enum GapChange {
    /// It has stood for a second.
    Lacking,
    /// What was told to be lacking has come.
    Closed,
    /// Its messages were asked for, and nothing came of that for two seconds.
    Unanswered,
    /// It was given up.
    GivenUp,
}

/// What has happened to a gap of a venue, and when.
#[derive(Clone, Copy, Debug, PartialEq, Eq)]
pub struct GapNews {
    /// How many seconds of the run had passed.
    pub second: u64,
    /// The venue.
    pub venue: VenueId,
    /// What has happened.
    pub change: GapChange,
    /// The messages to which it has happened.
    pub missing: MissingRange,
}

/// What stands before the count of messages.
fn change_text(change: GapChange) -> &'static str
    ensures { result.now ≡ gap_change_text change }
{
    match change {
        GapChange::Lacking => " lacks ",
        GapChange::Closed => " no longer lacks ",
        GapChange::Unanswered => " has no reply to requests for ",
        GapChange::GivenUp => " gave up ",
    }
}

/// What stands between a count of messages and the first of them.
fn messages_from(count: u64) -> &'static str
    ensures { result.now ≡ messages_from_text count }
{
    if count == 1 {
        " message from "
    } else {
        " messages from "
    }
}

/// Writes which venue it is, and when.
pub(crate) fn write_venue<E: TextOut>(
    names: &VenueNames,
    second: u64,
    venue: VenueId,
    errors: &mut E,
)
    ensures { SaysEach (writing_of E.TextOut)
        (venue_time_texts names.now second venue) errors.old errors.new }
{
    write_stderr("nbbo: second ", errors);
    write_number(second, errors);
    write_stderr(" venue ", errors);
    write_venue_name(names, venue, errors);
}

/// Writes how many messages there are, and the first of them.
fn write_range<E: TextOut>(missing: &MissingRange, errors: &mut E)
    ensures { SaysEach (writing_of E.TextOut)
        (missing_range_texts missing.now) errors.old errors.new }
{
    write_number(missing.count, errors);
    write_stderr(messages_from(missing.count), errors);
    write_number(missing.first, errors);
    write_stderr("\n", errors);
}

/// Writes what has happened to a gap.
pub fn write_gap_news<E: TextOut>(names: &VenueNames, news: &GapNews, errors: &mut E)
    ensures { SaysEach (writing_of E.TextOut)
        (gap_news_texts names.now news.now) errors.old errors.new }
{
    write_venue(names, news.second, news.venue, errors);
    write_stderr(change_text(news.change), errors);
    write_range(&news.missing, errors);
}
