//! One venue of the machine: its arbiter, and the lane after it.

ghost use Rattle.std.specs.Prelude.{◌≡◌, ◌⊎◌, ℕ, ◌++◌, ◌∷◌, [], List, None, IfOk, IfSome, OnOk, OnErr, drop};
ghost use Rattle.mold_packet.specs.Content.{Spells};
ghost use Rattle.line_arbiter.specs.Packets.{Input};
ghost use Rattle.line_arbiter.specs.Streams.{place_of, stream_of};
ghost use Rattle.line_arbiter.specs.Fits.{Fits};
ghost use Rattle.feed_core.specs.Worlds.{inside, Venue, new_venue};
ghost use Rattle.feed_core.specs.Steps.{next_out};
ghost use Rattle.feed_core.specs.Fitting.{FitsVenue, LeftFaulty, LeftAnswered, LeftRenewed, LeftSkipped, LeftPushed, ShowsLane};

use crate::lane::Lane;
use feed_steps::Done;
use feed_types::{Anything, Item, LineId, Numbered, SessionName, VenueId};
use line_arbiter::Arbiter;
use mold_packet::{Packet, read_packet};
use std::alloc::{AllocError, Global};
use std::marker::Model;

/// A venue's arbiter, and the lane from it to the journal.
#[derive(Drop)]
pub(crate) struct VenueState {
    lines: Arbiter<Anything>,
    items: Lane<Numbered>,
}

impl Model for VenueState {
    ghost use Rattle.feed_core.specs.Fitting.{VenueView};

    ghost Value = { VenueView };

    ghost view = { λ v. record { arbiter = v.lines; lane = v.items } };
}

fn put(lane: &mut Lane<Numbered>, number: u64, item: Item) -> Result<(), AllocError>
    ensures ok { OnOk result (lane.new
        ≡ record lane.old {
          sent = lane.old.sent ++ record { number = number; item = item } ∷ [];
        }) }
    ensures err { OnErr result (lane.new ≡ lane.old) }
{
    lane.put(Numbered { number, item })
}

impl VenueState {
    /// A venue to which nothing came. The window is 1 to 65,535 messages.
    pub(crate) fn new(
        alloc: Global,
        venue: VenueId,
        session: SessionName,
        window: u32,
    ) -> Result<VenueState, AllocError>
        ensures { IfOk result (λ c. FitsVenue window venue c (new_venue session)) }
    {
        match Arbiter::new(alloc, venue, session, window) {
            Ok(lines) => Ok(VenueState {
                lines,
                items: Lane::new(alloc),
            }),
            Err(_) => Err(AllocError),
        }
    }

    fn answer(&mut self, line: LineId, packet: &Packet<'_>) -> Done
        ensures { (window place : ℕ) (v : Venue) (bytes rest : List ℕ)
            → FitsVenue window place self.old v → Spells bytes packet.now rest
            → LeftAnswered window place v line bytes result self.new }
    {
        match self.lines.take(line, packet) {
            Ok(outcome) => Done::Packet(outcome),
            Err(fault) => Done::Refused(fault.code()),
        }
    }

    /// Packet: takes the bytes of a datagram on the line.
    pub(crate) fn take(&mut self, line: LineId, bytes: &[u8]) -> Done
        ensures { (window place : ℕ) (v : Venue) → FitsVenue window place self.old v
            → LeftFaulty bytes.now result self.old self.new
            ⊎ LeftAnswered window place v line bytes.now result self.new }
    {
        match read_packet(bytes) {
            Ok(packet) => self.answer(line, &packet),
            Err(fault) => Done::Refused(fault.code()),
        }
    }

    /// Renew: begins the venue's next session, under this name.
    pub(crate) fn renew(&mut self, session: SessionName) -> Done
        ensures { (window place : ℕ) (v : Venue) → FitsVenue window place self.old v
            → LeftRenewed window place v session result self.new }
    {
        match self.lines.renew(session) {
            Ok(ordinal) => Done::Renewed(ordinal),
            Err(fault) => Done::Refused(fault.code()),
        }
    }

    /// Skip: gives up what is missing below this number.
    pub(crate) fn skip_to(&mut self, number: u64) -> Done
        ensures { (window place : ℕ) (v : Venue) → FitsVenue window place self.old v
            → LeftSkipped window place v number result self.new }
    {
        match self.lines.skip_to(number) {
            Ok(()) => Done::Skipped(number),
            Err(fault) => Done::Refused(fault.code()),
        }
    }

    /// Push, into a lane of this capacity.
    pub(crate) fn push(&mut self, capacity: u32) -> Result<Done, AllocError>
        ensures { IfOk result (λ d. (window place : ℕ) (v : Venue)
            → FitsVenue window place self.old v
            → LeftPushed window place capacity v d self.new) }
    {
        let Some(next) = self.lines.next_ready() else {
            return Ok(Done::NothingReady);
        };
        if self.items.is_full(capacity) {
            return Ok(Done::LaneFull);
        }
        let Numbered { number, item } = next;
        put(&mut self.items, number, item)?;
        self.lines.advance();
        Ok(Done::Pushed(number))
    }

    /// Takes the next item out of the lane and returns it; none where the lane is empty.
    pub(crate) fn next(&mut self) -> Option<Numbered>
        ensures next { result ≡ next_out self.old.lane }
        ensures some { IfSome result (λ x. self.new ≡ record self.old {
          lane = record self.old.lane { received = self.old.lane.received ++ x ∷ [] };
        }) }
        ensures none { result ≡ None → self.new ≡ self.old }
    {
        self.items.next()
    }

    /// Puts everything that is ready into the lane, beyond its capacity too, so that it shows what
    /// waits.
    pub(crate) fn finish(&mut self) -> Result<(), AllocError>
        ensures { OnOk result ((window place : ℕ) (v : Venue) → FitsVenue window place self.old v
            → ShowsLane self.new.lane v) }
    {
        drain(&mut self.lines, &mut self.items)
    }

    /// The venue's items that were consumed.
    pub(crate) fn consumed(&self) -> &[Numbered]
        ensures { result.now ≡ self.now.lane.received }
    {
        self.items.received()
    }

    /// The venue's items that are in its lane.
    pub(crate) fn waiting(&self) -> &[Numbered]
        ensures { result.now ≡ inside self.now.lane }
    {
        self.items.inside()
    }
}

fn drain(lines: &mut Arbiter<Anything>, lane: &mut Lane<Numbered>) -> Result<(), AllocError>
    ensures { OnOk result ((packets : List Input) → Fits lines.old packets
        → lane.new
        ≡ record lane.old {
          sent = lane.old.sent
              ++ drop (place_of packets lines.old.sent) (stream_of packets);
        }) }
{
    while let Some(next) = lines.take_ready() {
        let Numbered { number, item } = next;
        put(lane, number, item)?;
    }
    Ok(())
}
