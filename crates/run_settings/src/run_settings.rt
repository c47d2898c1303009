//! The settings of `nbbo replay` and of `nbbo stats`.
ghost use Rattle.std.specs.Prelude.{vec_len};
ghost use Rattle.run_settings.specs.Lists.{AreOfVenues};
ghost use Rattle.run_settings.specs.NextSessions.{FollowVenues};
ghost use Rattle.run_settings.specs.RunInputs.{captured_lines_in};

use crate::feed_settings::FeedSettings;
use crate::next_session::NextSession;
use crate::run_input::RunInput;
use crate::run_output::RunOutput;
use crate::skip_rule::SkipRule;
use crate::time_span::TimeSpan;

/// What is replayed, and what is printed of it.
#[derive(Debug, Drop)]
pub struct RunSettings {
    /// The feed that is replayed.
    pub feed: FeedSettings,
    /// The sessions that follow the feed's own, each of one of its venues, in the order in which
    /// those of a venue follow one another.
    pub next_sessions: Vec<NextSession>,
    /// Whether gaps are printed.
    pub gaps: bool,
    /// Which gaps are given up.
    pub skips: SkipRule,
    /// The input. The lines of a packet capture are of the feed's venues.
    pub input: RunInput,
    /// The output.
    pub output: RunOutput,
    /// The span in which the events lie of which rows or statistics are printed.
    pub span: TimeSpan,
    ghost next_of_venues: { FollowVenues (vec_len feed.sessions) next_sessions.items },
    ghost of_venues: { AreOfVenues (vec_len feed.sessions) (captured_lines_in input) },
}
