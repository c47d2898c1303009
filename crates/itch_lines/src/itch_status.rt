//! What a venue in ITCH shows while a run goes on.
ghost use Rattle.std.specs.Prelude.{◌≡◌};
ghost use Rattle.itch_lines.specs.Shown.{sent_over, shown_over};

use crate::venue_end::GivenUp;
use feed_types::{SessionName, VenueId};
use line_arbiter::ArbiterStatus;
use mold_packet::Request;
use venue_lines::VenueStatus;

/// What a venue in ITCH shows at one moment, of its present session as the exchange sends it.
#[derive(Clone, Copy, Debug, PartialEq, Eq)]
pub struct ItchStatus {
    pub venue: VenueId,
    /// Which of the venue's sessions is the present one, counted from 1 to 64.
    pub ordinal: u64,
    /// The present session's name: ten bytes, filled on the right with spaces.
    pub session: SessionName,
    /// How far the session was put out, is whole, and is known to go; whether its end is announced;
    /// and how many messages are held.
    pub cursors: ArbiterStatus,
    /// The run of messages that is asked for; None where none is missing, or a gap of the session
    /// was given up.
    pub gap: Option<Request>,
    /// The first gap of a session that was given up last.
    pub given_up: Option<GivenUp>,
}

impl ItchStatus {
    /// How far the present session was sent on by the feed, which is at another one until something
    /// of this session was put out.
    fn sent_over(&self, feed: &VenueStatus) -> u64
        ensures { result ≡ sent_over self.now feed.now }
    {
        if self.ordinal == feed.ordinal {
            feed.cursors.sent
        } else {
            0
        }
    }

    /// Returns what the feed shows of the venue, with the session, the cursors and the gap of the
    /// exchange's own packets: the feed is given what is put out of them, which has no gap.
    pub fn over(&self, feed: &VenueStatus) -> VenueStatus
        ensures { result ≡ shown_over self.now feed.now }
    {
        VenueStatus {
            ordinal: self.ordinal,
            session: self.session,
            cursors: ArbiterStatus {
                sent: self.sent_over(feed),
                ..self.cursors
            },
            gap: self.gap,
            ..*feed
        }
    }
}
