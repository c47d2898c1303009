//! What is said of a venue's session that begins while a run goes on.
ghost use Rattle.std.specs.Prelude.{◌≡◌};
ghost use Rattle.text_out.specs.Members.{writing_of};
ghost use Rattle.text_out.specs.StandardError.{SaysEach};
ghost use Rattle.run_watches.specs.SessionNews.{missed_texts, session_news_texts};

use crate::gap_news::write_venue;
use feed_types::{SessionName, VenueId};
use run_notes::write_session_name;
use run_settings::VenueNames;
use text_out::{TextOut, write_number, write_stderr};

/// A session of a venue that has begun, and when.
#[derive(Clone, Copy, Debug, PartialEq, Eq)]
pub struct SessionNews {
    /// How many seconds of the run had passed.
    pub second: u64,
    /// The venue.
    pub venue: VenueId,
    /// The session's name.
    pub session: SessionName,
    /// How many sessions before it have begun and ended since the last look.
    pub missed: u64,
}

/// Writes the end of the line: how many sessions have begun and ended before, if any.
fn write_missed<E: TextOut>(missed: u64, errors: &mut E)
    ensures { SaysEach (writing_of E.TextOut) (missed_texts missed) errors.old errors.new }
{
    if missed == 0 {
        write_stderr("\n", errors);
        return;
    }
    write_stderr(", after ", errors);
    write_number(missed, errors);
    write_stderr(" that came and went since the last look\n", errors);
}

/// Writes that the session has begun.
pub fn write_session_news<E: TextOut>(names: &VenueNames, news: &SessionNews, errors: &mut E)
    ensures { SaysEach (writing_of E.TextOut)
        (session_news_texts names.now news.now) errors.old errors.new }
{
    write_venue(names, news.second, news.venue, errors);
    write_stderr(" begins session ", errors);
    write_session_name(&news.session, errors);
    write_missed(news.missed, errors);
}
