//! The machine: the parts of a feed, and each event on the part that it looks at.

ghost use Rattle.std.specs.Prelude.{◌≡◌, ℕ, ◌<◌, ◌≤◌, List, length, IfOk, OnOk, map};
ghost use Rattle.filter_terms.specs.declared.terms.Terms.{Terms};
ghost use Rattle.feed_steps.specs.declared.event.Event.{Event};
ghost use Rattle.feed_core.specs.Worlds.{Venue, World as WorldView, Setting, all_terms, new_venue, new_world, setting_of};
ghost use Rattle.journal_book.specs.Configs.{journal_of_config};
ghost use Rattle.feed_core.specs.Fitting.{FitVenues, ShowVenues, FitsWorld, HasStepped, HasReached};
ghost use Rattle.feed_core.specs.Headline.{IsRunOf};

use crate::lane::Lane;
use crate::venue::VenueState;
use crate::world::World;
use crate::{journaling, offering};
use feed_steps::{Done, Event};
use feed_types::{FeedConfig, LineId, Notice, SessionName, SubscriberId, VenueId};
use filter_terms::Filter;
use journal_book::Journal;
use std::alloc::{AllocError, Global};
use std::marker::Model;

/// The parts of a feed. The filters are kept beside it, that of each subscriber at its place.
#[derive(Drop)]
pub(crate) struct Machine {
    venue_states: Vec<VenueState>,
    kept: Journal,
    lanes: Vec<Lane<Notice>>,
    lane_capacity: u32,
    filters_used: usize,
}

impl Model for Machine {
    ghost use Rattle.std.specs.Prelude.{◌≡◌, ◌≤◌, length, None};
    ghost use Rattle.std.specs.Coded.{codes};
    ghost use Rattle.filter_terms.specs.contracts.terms.Terms as terms_type;
    ghost use Rattle.feed_core.specs.Fitting.{MachineView};

    ghost Value = { MachineView };

    ghost coded = { Prim.hlevel (codes, terms_type.the_row.coded) };

    ghost view = { λ m. record {
      venues = m.venue_states.items;
      journal = m.kept;
      lanes = m.lanes.items;
      capacity = m.lane_capacity;
      used = m.filters_used;
    } };

    ghost invariant = { λ m. (length m.lanes.items ≤ m.filters_used)
        × (length m.lanes.items ≡ length m.kept.cursors)
        × (length m.venue_states.items ≤ m.kept.venues) × (m.kept.kept ≡ None) };
}

fn new_venues(
    alloc: Global,
    sessions: &[SessionName],
    window: u32,
) -> Result<Vec<VenueState>, AllocError>
    requires { length sessions.now ≤ 16 }
    ensures { IfOk result (λ states. FitVenues window states.items (map new_venue sessions.now)) }
{
    let mut states = Vec::new(alloc);
    for (place, session) in sessions.iter().enumerate() {
        let state = VenueState::new(alloc, VenueId::at(place), *session, window)?;
        states.push(state)?;
    }
    Ok(states)
}

/// Puts everything that is ready of each venue into its lane.
fn finish_all(states: &mut Vec<VenueState>) -> Result<(), AllocError>
    ensures { OnOk result ((window : ℕ) (vs : List Venue) → FitVenues window states.old.items vs
        → ShowVenues states.new.items vs) }
{
    for place in 0..states.len() {
        let state = &mut states[place];
        state.finish()?;
    }
    Ok(())
}

impl Machine {
    /// A feed to which nothing came, over an empty journal of its symbols.
    pub(crate) fn new(
        alloc: Global,
        config: &FeedConfig<'_>,
        journal: Journal,
    ) -> Result<Machine, AllocError>
        requires few { length config.now.sessions.now ≤ 16 }
        requires empty { journal ≡ journal_of_config config.now }
        ensures fits { IfOk result (λ m. (filters : List Terms)
            → FitsWorld (setting_of config.now filters) m
            (new_world (setting_of config.now filters))) }
        ensures used { IfOk result (λ m. m.used ≡ 0) }
    {
        let venue_states = new_venues(alloc, config.sessions, config.window)?;
        Ok(Machine {
            venue_states,
            kept: journal,
            lanes: Vec::new(alloc),
            lane_capacity: config.lane,
            filters_used: 0,
        })
    }

    /// What the run shows, once what is ready of each venue is put in after what was pushed.
    pub(crate) fn into_world(self, outcomes: Vec<Done>) -> Result<World, AllocError>
        ensures { IfOk result (λ shown. (s : Setting) (events : List Event)
            → HasReached s events outcomes.items self → IsRunOf s events shown) }
    {
        let Machine {
            mut venue_states,
            kept,
            lanes,
            lane_capacity: _,
            filters_used: _,
        } = self;
        finish_all(&mut venue_states)?;
        Ok(World::new(outcomes, venue_states, kept, lanes))
    }

    fn packet(&mut self, venue: VenueId, line: LineId, bytes: &[u8]) -> Done
        ensures step { (s : Setting) (w : WorldView) → FitsWorld s self.old w
            → HasStepped s w (Event.Packet venue line bytes.entry) result self.new }
        ensures used { self.new.used ≡ self.old.used }
    {
        let place = venue.index();
        if place >= self.venue_states.len() {
            return Done::Refused(18);
        }
        let state = &mut self.venue_states[place];
        state.take(line, bytes)
    }

    fn push(&mut self, venue: VenueId) -> Result<Done, AllocError>
        ensures step { IfOk result (λ d. (s : Setting) (w : WorldView)
            → FitsWorld s self.old w
            → HasStepped s w (Event.Push venue) d self.new) }
        ensures used { self.new.used ≡ self.old.used }
    {
        let place = venue.index();
        if place >= self.venue_states.len() {
            return Ok(Done::Refused(18));
        }
        let state = &mut self.venue_states[place];
        state.push(self.lane_capacity)
    }

    fn renew(&mut self, venue: VenueId, session: SessionName) -> Done
        ensures step { (s : Setting) (w : WorldView) → FitsWorld s self.old w
            → HasStepped s w (Event.Renew venue session) result self.new }
        ensures used { self.new.used ≡ self.old.used }
    {
        let place = venue.index();
        if place >= self.venue_states.len() {
            return Done::Refused(18);
        }
        let state = &mut self.venue_states[place];
        state.renew(session)
    }

    fn skip(&mut self, venue: VenueId, number: u64) -> Done
        ensures step { (s : Setting) (w : WorldView) → FitsWorld s self.old w
            → HasStepped s w (Event.Skip venue number) result self.new }
        ensures used { self.new.used ≡ self.old.used }
    {
        let place = venue.index();
        if place >= self.venue_states.len() {
            return Done::Refused(18);
        }
        let state = &mut self.venue_states[place];
        state.skip_to(number)
    }

    fn consume(&mut self, venue: VenueId) -> Result<Done, AllocError>
        ensures step { IfOk result (λ d. (s : Setting) (w : WorldView)
            → FitsWorld s self.old w
            → HasStepped s w (Event.Consume venue) d self.new) }
        ensures used { self.new.used ≡ self.old.used }
    {
        let place = venue.index();
        if place >= self.venue_states.len() {
            return Ok(Done::Refused(18));
        }
        let state = &mut self.venue_states[place];
        journaling::consume(&mut self.kept, venue, state)
    }

    fn declare(&mut self, venue: VenueId, on: bool) -> Result<Done, AllocError>
        ensures step { IfOk result (λ d. (s : Setting) (w : WorldView)
            → FitsWorld s self.old w
            → HasStepped s w (Event.Declare venue on) d self.new) }
        ensures used { self.new.used ≡ self.old.used }
    {
        if venue.index() >= self.venue_states.len() {
            return Ok(Done::Refused(18));
        }
        journaling::declare(&mut self.kept, venue, on)
    }

    fn offer(&mut self, id: SubscriberId, filters: &[Filter]) -> Result<Done, AllocError>
        requires { self.old.used ≤ length filters.now }
        ensures step { IfOk result (λ d. (s : Setting) (w : WorldView)
            → FitsWorld s self.old w
            → HasStepped s w (Event.Offer id) d self.new) }
        ensures used { self.new.used ≡ self.old.used }
    {
        let place = id.index();
        if place >= self.lanes.len() {
            return Ok(Done::Refused(21));
        }
        let lane = &mut self.lanes[place];
        offering::offer(
            &mut self.kept,
            id,
            &filters[place],
            lane,
            self.lane_capacity,
        )
    }

    fn dequeue(&mut self, id: SubscriberId) -> Done
        ensures step { (s : Setting) (w : WorldView) → FitsWorld s self.old w
            → HasStepped s w (Event.Dequeue id) result self.new }
        ensures used { self.new.used ≡ self.old.used }
    {
        let place = id.index();
        if place >= self.lanes.len() {
            return Done::Refused(21);
        }
        let lane = &mut self.lanes[place];
        offering::dequeue(lane)
    }

    /// Uses the next filter, also where there is no place for its subscriber.
    fn subscribe(&mut self, alloc: Global, filters: &[Filter]) -> Result<Done, AllocError>
        requires { self.old.used ≤ length filters.now }
        ensures step { IfOk result (λ d. (s : Setting) (w : WorldView)
            → s.filters ≡ all_terms filters.now
            → FitsWorld s self.old w → HasStepped s w Event.Subscribe d self.new) }
        ensures used { self.new.used ≤ length filters.now }
    {
        if self.filters_used >= filters.len() {
            return Ok(Done::NoFilter);
        }
        let filter = &filters[self.filters_used];
        self.filters_used += 1;
        if !self.kept.has_subscriber_room() {
            return Ok(Done::Refused(20));
        }
        self.lanes.reserve(1)?;
        let terms = filter.terms().clone()?;
        let Ok(id) = self.kept.subscribe(terms) else {
            return Err(AllocError);
        };
        self.lanes.push_reserved(Lane::new(alloc));
        Ok(Done::Subscribed(id))
    }

    /// Takes one event. Each subscriber's filter is at its place.
    fn step(
        &mut self,
        alloc: Global,
        event: &Event<'_>,
        filters: &[Filter],
    ) -> Result<Done, AllocError>
        requires { self.old.used ≤ length filters.now }
        ensures step { IfOk result (λ d. (s : Setting) (w : WorldView)
            → s.filters ≡ all_terms filters.now
            → FitsWorld s self.old w → HasStepped s w event.now d self.new) }
        ensures used { self.new.used ≤ length filters.now }
    {
        match event {
            Event::Packet { venue, line, bytes } => Ok(self.packet(*venue, *line, bytes)),
            Event::Push { venue } => self.push(*venue),
            Event::Consume { venue } => self.consume(*venue),
            Event::Declare { venue, on } => self.declare(*venue, *on),
            Event::Renew { venue, session } => Ok(self.renew(*venue, *session)),
            Event::Skip { venue, number } => Ok(self.skip(*venue, *number)),
            Event::Subscribe => self.subscribe(alloc, filters),
            Event::Offer { id } => self.offer(*id, filters),
            Event::Dequeue { id } => Ok(self.dequeue(*id)),
        }
    }

    /// Takes the events one after another.
    pub(crate) fn take_all(
        &mut self,
        alloc: Global,
        events: &[Event<'_>],
        filters: &[Filter],
    ) -> Result<Vec<Done>, AllocError>
        requires { self.old.used ≤ length filters.now }
        ensures { IfOk result (λ outcomes. (s : Setting) → s.filters ≡ all_terms filters.now
            → FitsWorld s self.old (new_world s)
            → HasReached s events.now outcomes.items self.new) }
    {
        let mut outcomes = Vec::new(alloc);
        for event in events {
            let done = self.step(alloc, event, filters)?;
            outcomes.push(done)?;
        }
        Ok(outcomes)
    }
}
