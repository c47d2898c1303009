//! A venue to which nothing came.

ghost use Rattle.std.specs.Prelude.{◌≡◌, []};
ghost use Rattle.venue_lines.specs.NextSessions.{AreNextNames, names_at};
ghost use Rattle.venue_lines.specs.Starts.{IsStart, followed_by};

use crate::next_sessions::NextSessions;
use feed_types::{Genuine, Numbered, SessionName, VenueId};
use fifo_lane::{Sender, VenueItems};
use line_arbiter::Arbiter;
use std::marker::Model;

/// The arbiter of a venue and the sending end of its lane, before anything came, and the sessions
/// that are named to follow its first one.
#[derive(Drop)]
pub struct VenueStart<G: Genuine> {
    lines: Arbiter<G>,
    items: Sender<Numbered, VenueItems<G>>,
    next: Option<NextSessions<G>>,
}

impl<G: Genuine> Model for VenueStart<G> {
    ghost use Rattle.venue_lines.specs.NextSessions.{names_at};
    ghost use Rattle.venue_lines.specs.Starts.{StartState, IsStart};

    ghost Value = { StartState };

    ghost view = { λ s. record {
      arbiter = s.lines;
      lane = s.items;
      next = names_at s.lines.venue s.next;
    } };

    ghost invariant = { λ s. IsStart G.sessions (record {
      arbiter = s.lines;
      lane = s.items;
      next = names_at s.lines.venue s.next;
    }) };
}

impl<G: Genuine> VenueStart<G> {
    pub(crate) fn new(arbiter: Arbiter<G>, lane: Sender<Numbered, VenueItems<G>>) -> VenueStart<G>
        requires { IsStart G.sessions (record { arbiter = arbiter; lane = lane; next = [] }) }
        ensures { result ≡ record { arbiter = arbiter; lane = lane; next = [] } }
    {
        VenueStart {
            lines: arbiter,
            items: lane,
            next: None,
        }
    }

    /// Names the sessions that follow the first one of this venue, whose start it is, in order, in
    /// place of those that were named before. Each begins at the first packet that comes of it once
    /// the one before is over and all of it was sent. At another venue's start none begins.
    pub fn follow_by(&mut self, venue: VenueId, names: Vec<SessionName>)
        requires { AreNextNames G.sessions venue names.items }
        ensures { self.new ≡ followed_by self.old venue names.items }
    {
        self.next = Some(NextSessions::new(venue, names));
    }

    pub(crate) fn into_parts(
        self,
    ) -> (
        Arbiter<G>,
        Sender<Numbered, VenueItems<G>>,
        Option<NextSessions<G>>,
    )
        ensures parts { (result.0 ≡ self.arbiter) × (result.1 ≡ self.lane) }
        ensures next { names_at self.arbiter.venue result.2 ≡ self.next }
        ensures start { IsStart G.sessions self }
    {
        let VenueStart { lines, items, next } = self;
        (lines, items, next)
    }
}
