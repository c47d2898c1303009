//! The settings of `nbbo normalise`.
ghost use Rattle.std.specs.Prelude.{vec_len};
ghost use Rattle.run_settings.specs.Lists.{AreOfVenues};
ghost use Rattle.run_settings.specs.NextSessions.{FollowVenues};
ghost use Rattle.run_settings.specs.RunInputs.{captured_lines_in};

use crate::end_number_rule::EndNumberRule;
use crate::feed_settings::FeedSettings;
use crate::next_session::NextSession;
use crate::run_input::RunInput;
use crate::skip_rule::SkipRule;

/// The settings of `nbbo normalise`.
#[derive(Debug, Drop)]
pub struct NormaliseSettings {
    /// The feed that is normalised, without a journal: its symbols are those that are quoted.
    pub feed: FeedSettings,
    /// The sessions that follow the feed's own, each of one of its venues, in the order in which
    /// those of a venue follow one another.
    pub next_sessions: Vec<NextSession>,
    /// How many live orders a venue may have.
    pub orders: u32,
    /// Which gaps are given up.
    pub skips: SkipRule,
    /// Which number an end of session has in the input.
    pub end_number: EndNumberRule,
    /// The input, whose form the output has. The lines of a packet capture are of the feed's
    /// venues.
    pub input: RunInput,
    ghost next_of_venues: { FollowVenues (vec_len feed.sessions) next_sessions.items },
    ghost of_venues: { AreOfVenues (vec_len feed.sessions) (captured_lines_in input) },
}
