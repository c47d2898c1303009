//! What a venue's lock guards.

ghost use Rattle.std.specs.Prelude.{◌≡◌, ◌≤◌, ◌+◌, [], ◌∷◌, Some, Ok, OnOk, OnErr, IfOk, IfSome, IfNone, IsFalse, length, map, slice_get};
ghost use Rattle.feed_types.specs.declared.item.Numbered.{Numbered};
ghost use Rattle.feed_types.specs.Sessions.{numbered_from};
ghost use Rattle.quote_payload.specs.Payload.{item_of};
ghost use Rattle.line_arbiter.specs.Histories.{History};
ghost use Rattle.line_arbiter.specs.Fits.{Fits};
ghost use Rattle.line_arbiter.specs.States.{IsNew, ordinal_of};
ghost use Rattle.feed_types.specs.PerLines.{on_line};
ghost use Rattle.feed_steps.specs.Premises.{IsGenuinePacket};
ghost use Rattle.venue_lines.specs.Brought.{counts_of, refused_on_line};
ghost use Rattle.venue_lines.specs.Seats.{seat_after};
ghost use Rattle.venue_lines.specs.Cells.{CellFitsHistory, VenueLockInvariant, new_cell};
ghost use Rattle.venue_lines.specs.Sections.{TakesPacket, AcceptsTheirPacket, HasSkippedPast, HasNoneReady, KeepsButPackets, TakesAndPushes, KeepsButPushed, IsLeft, PushesOne, KeepsButSent, RenewsSession, BeginsNext, SkipsGap, GoesOnFrom, RequestsGap};

use crate::accepted_packet::AcceptedPacket;
use crate::counted_lines::CountedLines;
use crate::faults::TakeFault;
use crate::line_counts::LineCounts;
use crate::seat::LineSeat;
use feed_steps::{FeedName, Unsent};
use feed_types::{Genuine, LineId, Numbered, SessionName, VenueId};
use fifo_lane::{Sender, VenueItems};
use line_arbiter::{Arbiter, LineFault, Outcome, Pacer, RenewFault, SkipFault};
use mold_packet::{Packet, Request};
use quote_payload::read_item;
use std::marker::{Model, PhantomData};
use std::sync::Wait;

/// The time in milliseconds until the same gap is asked for again.
const REQUEST_INTERVAL_MS: u64 = 250;

/// A venue's arbiter with the sending end of its lane, and the counts of its lines.
///
/// Whenever the lock is free there are packets that the venue was given, session by session, which
/// the cell represents (`VenueLockInvariant` in `specs/Cells.antt`).
#[derive(Drop)]
pub struct VenueCell<G: Genuine, N: FeedName> {
    items: Sender<Numbered, VenueItems<G>>,
    pacer: Pacer,
    counted: CountedLines,
    lines: Arbiter<G>,
    feed: PhantomData<N>,
}

impl<G: Genuine, N: FeedName> Model for VenueCell<G, N> {
    ghost use Rattle.venue_lines.specs.Cells.{CellState, VenueLockInvariant};

    ghost Value = { CellState };

    ghost view = { λ c. record {
      arbiter = c.lines;
      lane = c.items;
      pace = c.pacer;
      brought = c.counted;
    } };

    ghost invariant = { λ c. VenueLockInvariant G.Genuine N.lanes (record {
      arbiter = c.lines;
      lane = c.items;
      pace = c.pacer;
      brought = c.counted;
    }) };
}

/// The item of the packet's message, where it has exactly one.
fn only_item(packet: &Packet<'_>) -> Option<Numbered>
    ensures item { IfSome result (λ next.
        next ∷ [] ≡ numbered_from packet.now.number (map item_of packet.now.messages)) }
    ensures none { IfNone result (length packet.now.messages ≡ 1 → ⊥) }
{
    if packet.count() != 1 {
        return None;
    }
    let message = packet.messages().next()?;
    Some(Numbered {
        number: packet.number(),
        item: read_item(message),
    })
}

impl<G: Genuine, N: FeedName> VenueCell<G, N> {
    /// A venue to which nothing came.
    pub(crate) fn new(arbiter: Arbiter<G>, lane: Sender<Numbered, VenueItems<G>>) -> VenueCell<G, N>
        requires arbiter { IsNew arbiter lane.tag arbiter.session arbiter.window }
        requires fits { Fits arbiter [] }
        requires named { G.sessions lane.tag 1 arbiter.session }
        requires lane { (lane.items ≡ []) × (slice_get N.lanes.venues lane.tag ≡ Some lane.lane) }
        requires sized { (arbiter.window ≡ N.lanes.setting.window)
            × (lane.capacity ≡ N.lanes.setting.lane) }
        ensures { result ≡ new_cell arbiter lane }
    {
        VenueCell {
            lines: arbiter,
            items: lane,
            pacer: Pacer::new(REQUEST_INTERVAL_MS),
            counted: CountedLines::new(),
            feed: PhantomData,
        }
    }

    /// The venue whose cell it is.
    pub fn venue(&self) -> VenueId
        ensures { result ≡ self.now.arbiter.venue }
    {
        self.lines.venue()
    }

    /// Does nothing: it says what is so whenever the venue's lock is free.
    #[inline(always)]
    pub fn show_lock_invariant(&self)
        ensures { VenueLockInvariant G.Genuine N.lanes self.now }
    {
        // for the prover: the invariant is known where a field is used
        let _ = &self.items;
    }

    /// The venue's arbiter.
    pub(crate) fn arbiter(&self) -> &Arbiter<G>
        ensures { result.now ≡ self.now.arbiter }
    {
        &self.lines
    }

    /// Which of the venue's sessions the present one is, counted from 1 to 64.
    pub fn ordinal(&self) -> u64
        ensures value { result ≡ ordinal_of self.now.arbiter }
        ensures range { (1 ≤ result) × (result ≤ 64) }
    {
        self.lines.ordinal()
    }

    /// The number of items for which the lane has room.
    pub fn capacity(&self) -> usize
        ensures { result ≡ self.now.lane.capacity }
    {
        self.items.capacity()
    }

    /// The count of numbers that the line brought first.
    pub fn wins(&self, line: LineId) -> u64
        ensures { result ≡ on_line line self.now.arbiter.wins }
    {
        self.lines.wins(line)
    }

    /// The counts of what the line brought.
    pub fn counts(&self, line: LineId) -> LineCounts
        ensures { result ≡ counts_of (on_line line self.now.brought) }
    {
        self.counted.counts(line)
    }

    /// Counts one more datagram on the line that was refused with this fault.
    pub(crate) fn refuse(&mut self, line: LineId, fault: TakeFault)
        ensures { self.new ≡ record self.old {
          brought = refused_on_line line fault self.old.brought;
        } }
    {
        self.counted.refuse(line, fault);
    }

    /// The room that is enough for what is ready, the items up to the front and End; None past a
    /// `usize`.
    pub fn most_ready(&self) -> Option<usize>
        ensures { IfSome result (λ most.
            self.now.arbiter.front + 1 ≤ self.now.arbiter.sent + most) }
    {
        let status = self.lines.status();
        let messages = status.front.saturating_sub(status.sent) as usize;
        messages.checked_add(1)
    }

    /// Returns the parts that the lock guarded, once it is gone.
    pub fn into_parts(self) -> (Arbiter<G>, Sender<Numbered, VenueItems<G>>, CountedLines)
        ensures parts { (result.0 ≡ self.arbiter) × (result.1 ≡ self.lane)
            × (result.2 ≡ self.brought) }
        ensures kept { VenueLockInvariant G.Genuine N.lanes self }
    {
        let VenueCell {
            lines,
            items,
            pacer: _,
            counted,
            feed: _,
        } = self;
        (lines, items, counted)
    }

    /// Takes a packet that came on a line of this venue, and returns its outcome. A packet of the
    /// present session has to be genuine. A refused packet changes nothing.
    pub fn take(
        &mut self,
        seat: &mut LineSeat<G, N>,
        packet: &Packet<'_>,
    ) -> Result<Outcome, LineFault>
        requires venue { seat.old.venue ≡ self.old.arbiter.venue }
        requires genuine { IsGenuinePacket G.Genuine seat.old.venue packet.now }
        ensures packet { (h : History) → CellFitsHistory self.old h
            → TakesPacket seat.old.line packet.now result h self.old self.new }
        ensures kept { KeepsButPackets self.old self.new }
        ensures seat { seat.new ≡ seat_after seat.old packet.now result }

        // Where it is known which sessions the lines bring, a packet of one of them is refused only
        // where it isn't of the present one, or as an end that is too early, once messages past it
        // were given up.
        ensures accepts { AcceptsTheirPacket G.Genuine seat.old.venue packet.now result }
        ensures early { HasSkippedPast G.Genuine self.old packet.now result }
        ensures refused { OnErr result (self.new ≡ self.old) }
    {
        // for the prover: the packet's ranges
        let _number = packet.number();
        match self.lines.take(seat.line(), packet) {
            Ok(outcome) => {
                let accepted = AcceptedPacket::new(packet, outcome);
                self.counted.count(seat.line(), &accepted);
                seat.count(&accepted);
                Ok(outcome)
            }
            Err(fault) => Err(fault),
        }
    }

    /// Takes a packet of messages of the present session that were all sent, as on the line that
    /// comes second: it does what `take` does. `None` for any other packet; then nothing has
    /// changed, and `take` takes it.
    #[inline(always)]
    pub(crate) fn take_repeat(
        &mut self,
        seat: &mut LineSeat<G, N>,
        packet: &Packet<'_>,
    ) -> Option<Outcome>
        requires venue { seat.old.venue ≡ self.old.arbiter.venue }
        requires genuine { IsGenuinePacket G.Genuine seat.old.venue packet.now }
        ensures packet { (h : History) → CellFitsHistory self.old h
            → IfSome result (λ outcome. TakesPacket seat.old.line packet.now (Ok outcome) h
            self.old self.new) }
        ensures kept { IfSome result (λ _. KeepsButPackets self.old self.new) }
        ensures seat { IfSome result (λ outcome. seat.new
            ≡ seat_after seat.old packet.now (Ok outcome)) }
        ensures none { IfNone result ((self.new ≡ self.old) × (seat.new ≡ seat.old)) }
    {
        let outcome = self.lines.repeat(packet)?;
        let line = seat.line();
        let repeated = AcceptedPacket::new(packet, outcome);
        self.counted.count(line, &repeated);
        seat.count(&repeated);
        Some(outcome)
    }

    /// Takes a packet of one message, which is the next one where nothing is held, and pushes its
    /// item, which needn't be held first: it does what `take` and then `push_one` do. `None` for
    /// any other packet, and where the lane is full; then nothing has changed, and `take` takes it.
    pub fn take_and_push<W: Wait>(
        &mut self,
        rt: &W,
        seat: &mut LineSeat<G, N>,
        packet: &Packet<'_>,
    ) -> Option<Outcome>
        requires venue { seat.old.venue ≡ self.old.arbiter.venue }
        requires genuine { IsGenuinePacket G.Genuine seat.old.venue packet.now }
        ensures packet { (h : History) → CellFitsHistory self.old h
            → IfSome result (λ outcome. TakesAndPushes seat.old.line packet.now outcome h
            self.old self.new) }
        ensures kept { IfSome result (λ _. KeepsButPushed self.old self.new) }
        ensures seat { IfSome result (λ outcome. seat.new
            ≡ seat_after seat.old packet.now (Ok outcome)) }
        ensures left { IfNone result (IsLeft packet.now self.old) }
        ensures none { IfNone result ((self.new ≡ self.old) × (seat.new ≡ seat.old)) }
    {
        if !self.lines.is_next(packet) {
            return None;
        }
        let next = only_item(packet)?;
        let Ok(()) = self.items.push(rt, next) else {
            return None;
        };
        let line = seat.line();
        let outcome = self.lines.take_next(line, packet);
        let accepted = AcceptedPacket::new(packet, outcome);
        self.counted.count(line, &accepted);
        seat.count(&accepted);
        Some(outcome)
    }

    /// Whether an item may be ready: none is where all that is in sequence was sent, and no end is
    /// announced.
    #[inline(always)]
    pub(crate) fn may_have_ready(&self) -> bool
        ensures { IsFalse result → HasNoneReady self.now }
    {
        let status = self.lines.status();
        status.sent < status.front || status.end.is_some()
    }

    /// Pushes the next item of the venue, where one is ready and the lane has room.
    pub fn push_one<W: Wait>(&mut self, rt: &W) -> Result<u64, Unsent>
        ensures push { (h : History) → CellFitsHistory self.old h
            → PushesOne result h self.old self.new }
        ensures kept { KeepsButSent self.old self.new }
        ensures count { IfOk result (λ _. length self.new.lane.items
            ≡ length self.old.lane.items + 1) }
        ensures refused { OnErr result (self.new ≡ self.old) }
    {
        let Some(ready) = self.lines.next_ready() else {
            return Err(Unsent::Nothing);
        };
        let number = ready.number;
        match self.items.push(rt, ready) {
            Ok(()) => {
                self.lines.advance();
                Ok(number)
            }
            Err(_) => Err(Unsent::LaneFull),
        }
    }

    /// Begins the venue's next session, as [`Arbiter::renew`] does. The last request for a gap is
    /// forgotten. A refused call changes nothing.
    pub fn renew(&mut self, session: SessionName) -> Result<u64, RenewFault>
        requires { G.sessions self.old.arbiter.venue (ordinal_of self.old.arbiter + 1) session }
        ensures renew { (h : History) → CellFitsHistory self.old h
            → RenewsSession session result h self.old self.new }
        ensures ok { OnOk result (BeginsNext self.old self.new) }
        ensures ordinal { IfOk result (λ ordinal. ordinal ≡ ordinal_of self.old.arbiter + 1) }
        ensures refused { OnErr result (self.new ≡ self.old) }
    {
        match self.lines.renew(session) {
            Ok(ordinal) => {
                self.pacer = Pacer::new(REQUEST_INTERVAL_MS);
                Ok(ordinal)
            }
            Err(fault) => Err(fault),
        }
    }

    /// Gives up the messages that are missing below `number`, as [`Arbiter::skip_to`] does. The
    /// last request for a gap is forgotten. A refused call changes nothing.
    pub fn skip_to(&mut self, number: u64) -> Result<(), SkipFault>
        ensures skip { (h : History) → CellFitsHistory self.old h
            → SkipsGap number result h self.old self.new }
        ensures on { OnOk result (GoesOnFrom number self.old self.new) }
        ensures refused { OnErr result (self.new ≡ self.old) }
    {
        match self.lines.skip_to(number) {
            Ok(()) => {
                self.pacer = Pacer::new(REQUEST_INTERVAL_MS);
                Ok(())
            }
            Err(fault) => Err(fault),
        }
    }

    /// Whether messages are missing: the session is known to go past the front.
    #[inline(always)]
    pub(crate) fn has_gap(&self) -> bool {
        let status = self.lines.status();
        status.front < status.known
    }

    /// Returns the request for the gap to send now, if any: see [`Pacer::due_after`].
    pub fn due_after(&mut self, now_ms: u64, wait_ms: u64) -> Option<Request>
        ensures { RequestsGap now_ms wait_ms result self.old self.new }
    {
        let gap = self.lines.gap();
        self.pacer.due_after(gap, now_ms, wait_ms)
    }
}
