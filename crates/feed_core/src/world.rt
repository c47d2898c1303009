//! The result of a run over events.

ghost use Rattle.std.specs.Prelude.{◌≡◌, ◌<◌, length, IfSome, None, slice_get};
ghost use Rattle.feed_core.specs.Fitting.{shown_by};

use crate::lane::Lane;
use crate::venue::VenueState;
use feed_steps::Done;
use feed_types::{Entry, Notice, Numbered, SubscriberId, VenueId};
use journal_book::Journal;
use std::marker::Model;

/// A finished run: the outcome of each event, and what the feed holds after the last one.
#[derive(Drop)]
pub struct World {
    done: Vec<Done>,
    venue_states: Vec<VenueState>,
    kept: Journal,
    lanes: Vec<Lane<Notice>>,
}

impl Model for World {
    ghost use Rattle.std.specs.Prelude.{◌≡◌, None};
    ghost use Rattle.feed_core.specs.Headline.{Shown};
    ghost use Rattle.feed_core.specs.Fitting.{shown_by};

    ghost Value = { Shown };

    ghost view = { λ w.
        shown_by w.done.items w.venue_states.items w.kept w.lanes.items };

    ghost invariant = { λ w. w.kept.kept ≡ None };
}

impl World {
    pub(crate) fn new(
        done: Vec<Done>,
        venue_states: Vec<VenueState>,
        kept: Journal,
        lanes: Vec<Lane<Notice>>,
    ) -> World
        requires { kept.kept ≡ None }
        ensures { result ≡ shown_by done.items venue_states.items kept lanes.items }
    {
        World {
            done,
            venue_states,
            kept,
            lanes,
        }
    }

    /// The outcome of each event, in order.
    pub fn outcomes(&self) -> &[Done]
        ensures { result.now ≡ self.now.outcomes }
    {
        self.done.as_slice()
    }

    /// The number of venues.
    pub fn venue_count(&self) -> usize
        ensures { result ≡ length self.now.venues }
    {
        self.venue_states.len()
    }

    /// The number of subscribers.
    pub fn subscriber_count(&self) -> usize
        ensures { result ≡ length self.now.subscribers }
    {
        self.lanes.len()
    }

    /// The venue's items that were consumed. The venue is below the number of venues.
    pub fn consumed(&self, venue: VenueId) -> &[Numbered]
        requires { venue < length self.now.venues }
        ensures { IfSome (slice_get self.now.venues venue) (λ v. result.now ≡ v.consumed) }
    {
        self.venue_states[venue.index()].consumed()
    }

    /// The venue's items that wait: those in its lane, and then those in sequence that were not
    /// pushed yet. The venue is below the number of venues.
    pub fn waiting(&self, venue: VenueId) -> &[Numbered]
        requires { venue < length self.now.venues }
        ensures { IfSome (slice_get self.now.venues venue) (λ v. result.now ≡ v.waiting) }
    {
        self.venue_states[venue.index()].waiting()
    }

    /// The journal's entries.
    pub fn entries(&self) -> &[Entry]
        ensures { result.now ≡ self.now.entries }
    {
        self.kept.entries()
    }

    /// The journal's changes of the national best, numbered from 1.
    pub fn changes(&self) -> &[Notice]
        ensures { result.now ≡ self.now.changes }
    {
        self.kept.changes()
    }

    /// The notices that the subscriber took out of its lane. The id is below the number of
    /// subscribers.
    pub fn dequeued(&self, id: SubscriberId) -> &[Notice]
        requires { id < length self.now.subscribers }
        ensures { IfSome (slice_get self.now.subscribers id) (λ x. result.now ≡ x.dequeued) }
    {
        self.lanes[id.index()].received()
    }

    /// The notices that are in the subscriber's lane. The id is below the number of subscribers.
    pub fn queued(&self, id: SubscriberId) -> &[Notice]
        requires { id < length self.now.subscribers }
        ensures { IfSome (slice_get self.now.subscribers id) (λ x. result.now ≡ x.queued) }
    {
        self.lanes[id.index()].inside()
    }
}
