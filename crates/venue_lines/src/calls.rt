//! The calls of a feed that take only a venue's lock.

ghost use Rattle.std.specs.Prelude.{◌≡◌, ◌≤◌, ◌↔◌, ◌-◌, ◌^◌, None, Some, Err, IfOk, IsErrOf, false, length, if◌then◌else◌};
ghost use Rattle.line_arbiter.specs.Histories.{History};
ghost use Rattle.feed_steps.specs.Premises.{IsGenuinePacket};
ghost use Rattle.venue_lines.specs.Seats.{new_seat, seat_after, seat_refusing};
ghost use Rattle.venue_lines.specs.Cells.{CellFitsHistory, IsPossibleCall};
ghost use Rattle.venue_lines.specs.Brought.{requests_after};
ghost use Rattle.venue_lines.specs.Sections.{AcceptsTheirPacket, HasSkippedPast, AnswersAtVenue, IsDueAt, FlushesVenue, RenewsVenue, SkipsVenue, KeepsButPushed, Pushes, RequestsGap, TakesPacket};
ghost use Rattle.venue_lines.specs.Datagrams.{AreGenuineBytes, AcceptsTheirs, IsAnsweredAt, TakesDatagram, bytes_of};
ghost use Rattle.venue_lines.specs.Joins.{IsAnsweredJoining, IsAnsweredNext, RenewsAndTakes, TakesJoining, before_join_after};

use crate::cell::VenueCell;
use crate::datagram::Datagram;
use crate::faults::{FeedFault, GapFault, RenewalFault, TakeFault};
use crate::joining::join_if_asked;
use crate::locked_venue::LockedVenue;
use crate::locks::{VenueLocks, lock_spinning};
use crate::looked::Looked;
use crate::next_sessions::{FollowingSessions, renew_if_named, show_following};
use crate::seat::LineSeat;
use crate::timing::{last_sent, note_join, note_renewal, note_time};
use feed_steps::{FeedName, Unsent};
use feed_types::{Genuine, LineId, SessionName, VenueId};
use line_arbiter::{LineFault, Outcome, SkipFault};
use mold_packet::{Packet, Request, read_packet};
use std::sync::Wait;

/// Pushes what is ready of the venue, at most `most` items, until nothing is or the lane is full.
/// Returns how many were pushed, and whether something may be ready still.
fn push_each<G: Genuine, N: FeedName, W: Wait>(
    rt: &W,
    cell: &mut VenueCell<G, N>,
    most: u64,
) -> (u64, bool)
    ensures { Pushes most result.0 cell.old cell.new }
{
    for pushed in 0..most {
        match cell.push_one(rt) {
            Ok(_) => {}
            Err(unsent) => {
                cell.show_lock_invariant();
                return (pushed, unsent == Unsent::LaneFull);
            }
        }
    }
    (most, true)
}

/// Pushes what is ready as `push_each` does. Most often nothing is, which a look at two numbers
/// shows.
#[inline(always)]
fn push_ready<G: Genuine, N: FeedName, W: Wait>(
    rt: &W,
    cell: &mut VenueCell<G, N>,
    most: u64,
) -> (u64, bool)
    ensures { Pushes most result.0 cell.old cell.new }
{
    if !cell.may_have_ready() {
        return (0, false);
    }
    push_each(rt, cell, most)
}

/// Pushes what is ready as `push_ready` does, where the cell is of this venue; else nothing.
#[tactic(auto, using(crate::proofs::CellMoves::at_venue, crate::proofs::CellMoves::at_another))]
fn flush_cell<G: Genuine, N: FeedName, W: Wait>(
    rt: &W,
    cell: &mut VenueCell<G, N>,
    venue: VenueId,
    most: u64,
) -> (u64, bool)
    ensures { FlushesVenue G.Genuine N.lanes venue most result.0 }
{
    cell.show_lock_invariant();
    if cell.venue() != venue {
        return (0, false);
    }
    let pushed = push_ready(rt, cell, most);
    cell.show_lock_invariant();
    pushed
}

/// Whether a packet brought a message that hadn't come, which may have been pushed with it.
fn has_news(answer: &Result<Outcome, LineFault>) -> bool {
    matches!(answer, Ok(Outcome::Taken { new: 1.., .. }))
}

/// Takes a packet of the cell's venue. Most repeat what was sent, or bring the next message alone.
fn take_one<G: Genuine, N: FeedName, W: Wait>(
    rt: &W,
    cell: &mut VenueCell<G, N>,
    seat: &mut LineSeat<G, N>,
    packet: &Packet<'_>,
) -> Result<Outcome, LineFault>
    requires venue { seat.old.venue ≡ cell.old.arbiter.venue }
    requires genuine { IsGenuinePacket G.Genuine seat.old.venue packet.now }
    ensures takes { (h : History) → CellFitsHistory cell.old h
        → TakesPacket seat.old.line packet.now result h cell.old cell.new }
    ensures kept { KeepsButPushed cell.old cell.new }
    ensures seat { seat.new ≡ seat_after seat.old packet.now result }
    ensures accepts { AcceptsTheirPacket G.Genuine seat.old.venue packet.now result }
    ensures early { HasSkippedPast G.Genuine cell.old packet.now result }
{
    if let Some(outcome) = cell.take_repeat(seat, packet) {
        return Ok(outcome);
    }
    if let Some(outcome) = cell.take_and_push(rt, seat, packet) {
        return Ok(outcome);
    }
    cell.take(seat, packet)
}

/// What became of a packet under its venue's lock.
#[derive(Clone, Copy)]
struct PacketTaken {
    /// Whether the venue's next session has begun at it.
    renewed: bool,
    /// Whether the venue's session was joined at it.
    joined: bool,
    answer: Result<Outcome, LineFault>,
    /// How many items were pushed then, and whether something may be ready still.
    pushed: (u64, bool),
}

/// The name of the packet's session, where that has begun at it.
fn begun_at(renewed: bool, packet: &Packet<'_>) -> Option<SessionName>
    ensures { result ≡ (if renewed then Some packet.now.session else None) }
{
    if renewed {
        Some(packet.session())
    } else {
        None
    }
}

/// Takes the packet where the cell is of the seat's venue, and pushes what is ready then. Where the
/// present session is over and the packet is of the one that is named to follow it, that begins
/// first. Where that is asked for and nothing of its session came before, the session is joined at
/// it then.
fn take_in<G: Genuine, N: FeedName, W: Wait>(
    rt: &W,
    next: &Option<FollowingSessions<G, N>>,
    cell: &mut VenueCell<G, N>,
    seat: &mut LineSeat<G, N>,
    packet: &Packet<'_>,
    join: bool,
) -> PacketTaken
    requires { IsGenuinePacket G.Genuine seat.old.venue packet.now }
    ensures seat { seat.new ≡ seat_after seat.old packet.now result.answer }
    ensures answer { IsAnsweredAt G.Genuine N.lanes seat.old packet.now result.answer }
    ensures joins { IsPossibleCall G.Genuine N.lanes seat.old.venue
        (RenewsAndTakes next.now join seat.old.line packet.now result.renewed result.joined
        result.answer)
        ((result.answer ≡ Err LineFault.OtherSession) × (result.renewed ≡ false)
        × (result.joined ≡ false)) }
    ensures accepts { AcceptsTheirPacket G.Genuine seat.old.venue packet.now result.answer }
    ensures early { HasSkippedPast G.Genuine cell.old packet.now result.answer }
{
    cell.show_lock_invariant();
    if cell.venue() != seat.venue() {
        return PacketTaken {
            renewed: false,
            joined: false,
            answer: Err(LineFault::OtherSession),
            pushed: (0, false),
        };
    }
    let renewed = renew_if_named(next, cell, packet);
    cell.show_lock_invariant();
    let joined = join_if_asked(join, cell, packet);
    cell.show_lock_invariant();
    let answer = take_one(rt, cell, seat, packet);
    let pushed = push_ready(rt, cell, u64::MAX);
    cell.show_lock_invariant();
    PacketTaken {
        renewed,
        joined,
        answer,
        pushed,
    }
}

/// Takes the packet as `take_in` does, and counts the messages that were given up where the session
/// was joined at it.
fn take_and_count<G: Genuine, N: FeedName, W: Wait>(
    rt: &W,
    locked: &mut LockedVenue<G, N>,
    seat: &mut LineSeat<G, N>,
    packet: &Packet<'_>,
    join: bool,
) -> PacketTaken
    requires { IsGenuinePacket G.Genuine seat.old.venue packet.now }
    ensures seat { seat.new ≡ seat_after seat.old packet.now result.answer }
    ensures answer { IsAnsweredAt G.Genuine N.lanes seat.old packet.now result.answer }
    ensures next { IsAnsweredNext G.Genuine N.lanes locked.old.next join seat.old packet.now
        result.answer }
    ensures joins { IsAnsweredJoining G.Genuine N.lanes join seat.old packet.now result.answer }
    ensures accepts { AcceptsTheirPacket G.Genuine seat.old.venue packet.now result.answer }
    ensures counted { locked.new ≡ record locked.old {
      cell = locked.new.cell;
      before_join = before_join_after result.joined packet.now.number locked.old.before_join;
    } }
{
    show_following(&locked.next);
    let taken = take_in(rt, &locked.next, &mut locked.cell, seat, packet, join);
    locked.count_join(taken.joined, packet.number());
    taken
}

/// Returns the request for the gap to send now, where the cell is of this venue: for one that has
/// been there for `wait_ms` milliseconds.
#[tactic(auto, using(crate::proofs::CellMoves::at_venue, crate::proofs::CellMoves::at_another))]
fn due_in<G: Genuine, N: FeedName>(
    cell: &mut VenueCell<G, N>,
    venue: VenueId,
    now_ms: u64,
    wait_ms: u64,
) -> Option<Request>
    ensures { IsDueAt G.Genuine N.lanes venue now_ms wait_ms result }
{
    cell.show_lock_invariant();
    if cell.venue() != venue {
        return None;
    }
    let request = cell.due_after(now_ms, wait_ms);
    cell.show_lock_invariant();
    request
}

/// Returns the request for the gap to send now as `due_in` does, and counts it.
fn due_and_counted<G: Genuine, N: FeedName>(
    locked: &mut LockedVenue<G, N>,
    venue: VenueId,
    now_ms: u64,
    wait_ms: u64,
) -> Option<Request>
    ensures due { IsDueAt G.Genuine N.lanes venue now_ms wait_ms result }
    ensures counted { locked.new ≡ record locked.old {
      cell = locked.new.cell;
      requests = requests_after result locked.old.requests;
    } }
{
    let request = due_in(&mut locked.cell, venue, now_ms, wait_ms);
    if request.is_some() {
        locked.requests = locked.requests.saturating_add(1);
    }
    request
}

/// Begins the session of this ordinal and name, where the cell is of this venue.
fn renew_in<G: Genuine, N: FeedName>(
    cell: &mut VenueCell<G, N>,
    venue: VenueId,
    ordinal: u64,
    session: SessionName,
) -> Result<u64, RenewalFault>
    requires { G.sessions venue ordinal session }
    ensures ordinal { IfOk result (λ begun. begun ≡ ordinal) }
    ensures known { IsErrOf result RenewalFault.UnknownVenue → ⊥ }
    ensures renewed { RenewsVenue G.Genuine N.lanes venue ordinal session result }
{
    cell.show_lock_invariant();
    if cell.venue() != venue || cell.ordinal() + 1 != ordinal {
        return Err(RenewalFault::WrongOrdinal);
    }
    let begun = cell.renew(session);
    cell.show_lock_invariant();
    match begun {
        Ok(begun) => Ok(begun),
        Err(fault) => Err(RenewalFault::Venue(fault)),
    }
}

/// Gives up the messages that are missing below the number, where the cell is of this venue; what
/// is ready is pushed before and after. Returns the answer, how many items were pushed, and whether
/// something may be ready still.
fn skip_in<G: Genuine, N: FeedName, W: Wait>(
    rt: &W,
    cell: &mut VenueCell<G, N>,
    venue: VenueId,
    number: u64,
) -> (Result<(), GapFault>, (u64, bool))
    ensures known { IsErrOf result.0 GapFault.UnknownVenue → ⊥ }
    ensures skipped { SkipsVenue G.Genuine N.lanes venue number result.0 }
{
    cell.show_lock_invariant();
    if cell.venue() != venue {
        return (Err(GapFault::Venue(SkipFault::NothingMissing)), (0, false));
    }
    let (before, _has_backlog) = push_ready(rt, cell, u64::MAX);
    cell.show_lock_invariant();
    let answer = cell.skip_to(number);
    let (after, has_backlog) = push_ready(rt, cell, u64::MAX);
    cell.show_lock_invariant();
    let pushed = (before.saturating_add(after), has_backlog);
    match answer {
        Ok(()) => (Ok(()), pushed),
        Err(fault) => (Err(GapFault::Venue(fault)), pushed),
    }
}

impl<G: Genuine, N: FeedName> VenueLocks<G, N> {
    /// Takes a datagram that came on the seat's line, which is genuine at its venue, and answers
    /// what became of it: the packet's fault, else the line's, else the outcome. What is ready
    /// then, after a fault too, is pushed, until nothing is or the lane is full. Where the venue's
    /// session is over, all of it was sent, and the packet is of the session that was named to
    /// follow it ([`follow_by`](crate::VenueStart::follow_by)), that begins first. Where `join` is
    /// true, and the packet is the first one of the venue's session and begins past its first
    /// message, what is missing before it is given up first. Stores in `looked` what the line sees
    /// then, all under the venue's lock taken once. The datagram is read before the lock is taken.
    pub fn take_datagram<W: Wait>(
        &self,
        rt: &W,
        seat: &mut LineSeat<G, N>,
        datagram: &Datagram,
        join: bool,
        looked: &mut Looked,
    ) -> Result<Outcome, TakeFault>
        requires { AreGenuineBytes G.Genuine seat.old.venue (bytes_of datagram.now) }
        ensures taken { TakesDatagram G.Genuine N.lanes (bytes_of datagram.now)
            seat.old result seat.new }
        ensures joins { TakesJoining G.Genuine N.lanes join (bytes_of datagram.now) seat.old
            result }
        ensures accepts { AcceptsTheirs G.Genuine seat.old.venue (bytes_of datagram.now) result }
    {
        match read_packet(datagram.bytes()) {
            Ok(packet) => match self.take_packet(rt, seat, &packet, datagram.time(), join, looked) {
                Ok(outcome) => Ok(outcome),
                Err(fault) => {
                    seat.refuse(TakeFault::Line(fault));
                    Err(TakeFault::Line(fault))
                }
            },
            Err(fault) => {
                let _pushed = self.take_unread(rt, seat, TakeFault::Packet(fault), looked);
                Err(TakeFault::Packet(fault))
            }
        }
    }

    /// Counts a datagram that is no packet, on the seat and at its venue, pushes what is ready
    /// there, and stores in `looked` what the line sees then. Returns how many items were pushed.
    fn take_unread<W: Wait>(
        &self,
        rt: &W,
        seat: &mut LineSeat<G, N>,
        fault: TakeFault,
        looked: &mut Looked,
    ) -> u64
        ensures seat { seat.new ≡ seat_refusing fault seat.old }
        ensures pushed { FlushesVenue G.Genuine N.lanes seat.old.venue (2 ^ 64 - 1) result }
    {
        seat.refuse(fault);
        let venue = seat.venue();
        let Some(lock) = self.get(venue) else {
            return 0;
        };
        let mut locked = lock_spinning(rt, lock);
        let (pushed, has_backlog) = flush_cell(rt, &mut locked.cell, venue, u64::MAX);
        locked.cell.refuse(seat.line(), fault);
        *looked = locked.look(None);
        let is_new = self.set_backlog(venue, has_backlog);
        drop(locked);
        if pushed > 0 || is_new {
            self.wakeups().wake_consolidators();
        }
        pushed
    }

    /// Takes a packet that was read, whose datagram was received at this time, under the lock of
    /// the seat's venue, whose session is joined at it where that is asked for and nothing of it
    /// came before. Pushes what is ready, counts the packet, and stores in `looked` what the line
    /// sees then.
    fn take_packet<W: Wait>(
        &self,
        rt: &W,
        seat: &mut LineSeat<G, N>,
        packet: &Packet<'_>,
        time: Option<u64>,
        join: bool,
        looked: &mut Looked,
    ) -> Result<Outcome, LineFault>
        requires { IsGenuinePacket G.Genuine seat.old.venue packet.now }
        ensures seat { seat.new ≡ seat_after seat.old packet.now result }
        ensures answer { IsAnsweredAt G.Genuine N.lanes seat.old packet.now result }
        ensures joins { IsAnsweredJoining G.Genuine N.lanes join seat.old packet.now result }
        ensures accepts { AcceptsTheirPacket G.Genuine seat.old.venue packet.now result }
    {
        let Some(lock) = self.get(seat.venue()) else {
            return Err(LineFault::OtherSession);
        };
        let mut locked = lock_spinning(rt, lock);
        let last = locked.last_if_followed();
        let times = self.wakeups().times();
        note_time(&locked.cell, times, time);
        let taken = take_and_count(rt, &mut locked, seat, packet, join);
        note_renewal(&locked.cell, times, taken.renewed, last);
        note_join(&locked.cell, times, taken.joined, packet);
        let (pushed, has_backlog) = taken.pushed;
        let answer = taken.answer;
        if let Err(fault) = answer {
            locked.cell.refuse(seat.line(), TakeFault::Line(fault));
        }
        *looked = locked.look(begun_at(taken.renewed, packet));
        let is_new = self.set_backlog(seat.venue(), has_backlog);
        drop(locked);
        if pushed > 0 || is_new || has_news(&answer) {
            self.wakeups().wake_consolidators();
        }
        answer
    }

    /// Pushes what is ready of the venue, at most `most` items, until nothing is or the lane is
    /// full, and returns how many items were pushed: none where there is no such venue. Where
    /// something may be ready still, the venue has a backlog.
    pub fn flush_some<W: Wait>(&self, rt: &W, venue: VenueId, most: u64) -> u64
        ensures { FlushesVenue G.Genuine N.lanes venue most result }
    {
        let Some(lock) = self.get(venue) else {
            return 0;
        };
        let mut locked = lock_spinning(rt, lock);
        let (pushed, has_backlog) = flush_cell(rt, &mut locked.cell, venue, most);
        let _is_new = self.set_backlog(venue, has_backlog);
        drop(locked);
        if pushed > 0 {
            self.wakeups().wake_consolidators();
        }
        pushed
    }

    /// Gives up the messages of the venue that are missing below `number`, and goes on from it: its
    /// next item is `Skipped`, with the number before. What is ready is pushed before and after.
    /// Returns the skip's place among the datagrams and skips of the venue, in the order in which
    /// they were taken, from 1. The refusals, in this order: UnknownVenue, ItemsReady (the lane is
    /// full), PastEnd, NothingMissing, HeldBelow.
    pub fn skip_to<W: Wait>(&self, rt: &W, venue: VenueId, number: u64) -> Result<u64, GapFault>
        ensures skipped { SkipsVenue G.Genuine N.lanes venue number result }
        ensures unknown { IsErrOf result GapFault.UnknownVenue
            ↔ (length N.lanes.venues ≤ venue) }
    {
        let Some(lock) = self.get(venue) else {
            return Err(GapFault::UnknownVenue);
        };
        let mut locked = lock_spinning(rt, lock);
        let before = last_sent(&locked.cell);
        let (answer, (pushed, has_backlog)) = skip_in(rt, &mut locked.cell, venue, number);
        let from = before.saturating_add(pushed);
        self.wakeups()
            .times()
            .go_on_from(venue, from, last_sent(&locked.cell));
        let answer = match answer {
            Ok(()) => Ok(locked.next_place()),
            Err(fault) => Err(fault),
        };
        let is_new = self.set_backlog(venue, has_backlog);
        drop(locked);
        if pushed > 0 || is_new {
            self.wakeups().wake_consolidators();
        }
        answer
    }

    /// Hands out the seat of the venue's line, which has brought nothing. UnknownVenue, else
    /// SeatTaken where it was handed out already.
    pub fn line_seat<W: Wait>(
        &self,
        rt: &W,
        venue: VenueId,
        line: LineId,
    ) -> Result<LineSeat<G, N>, FeedFault>
        ensures seat { IfOk result (λ seat. seat ≡ new_seat venue line) }
        ensures unknown { IsErrOf result FeedFault.UnknownVenue ↔ (length N.lanes.venues ≤ venue) }
    {
        let Some(lock) = self.get(venue) else {
            return Err(FeedFault::UnknownVenue);
        };
        let mut locked = lock.lock(rt);
        if locked.cell.venue() != venue {
            return Err(FeedFault::SeatTaken);
        }
        locked.give_seat(line)
    }

    /// Pushes what is ready of the venue, until nothing is or the lane is full, and returns how
    /// many items were pushed. UnknownVenue where there is no such venue.
    #[tactic(auto, using(crate::proofs::CellMoves::at_one))]
    pub fn flush<W: Wait>(&self, rt: &W, venue: VenueId) -> Result<u64, FeedFault>
        ensures { AnswersAtVenue G.Genuine N.lanes venue
            (Pushes (2 ^ 64 - 1)) 0 result }
    {
        if venue.index() >= self.len() {
            return Err(FeedFault::UnknownVenue);
        }
        Ok(self.flush_some(rt, venue, u64::MAX))
    }

    /// Returns the request for the venue's gap to send now, if any, and counts it: for a gap that
    /// has been there for `wait_ms` milliseconds. UnknownVenue where there is no such venue.
    #[tactic(auto, using(crate::proofs::CellMoves::at_one))]
    pub fn request_due<W: Wait>(
        &self,
        rt: &W,
        venue: VenueId,
        now_ms: u64,
        wait_ms: u64,
    ) -> Result<Option<Request>, FeedFault>
        ensures { AnswersAtVenue G.Genuine N.lanes venue (RequestsGap now_ms wait_ms) None result }
    {
        let Some(lock) = self.get(venue) else {
            return Err(FeedFault::UnknownVenue);
        };
        let mut locked = lock_spinning(rt, lock);
        Ok(due_and_counted(&mut locked, venue, now_ms, wait_ms))
    }

    /// Begins the venue's session of this ordinal and name, once End of the one before it was sent,
    /// and returns the ordinal.
    pub fn renew<W: Wait>(
        &self,
        rt: &W,
        venue: VenueId,
        ordinal: u64,
        session: SessionName,
    ) -> Result<u64, RenewalFault>
        requires { G.sessions venue ordinal session }
        ensures ordinal { IfOk result (λ begun. begun ≡ ordinal) }
        ensures renewed { RenewsVenue G.Genuine N.lanes venue ordinal session result }
        ensures unknown { IsErrOf result RenewalFault.UnknownVenue
            ↔ (length N.lanes.venues ≤ venue) }
    {
        let Some(lock) = self.get(venue) else {
            return Err(RenewalFault::UnknownVenue);
        };
        let mut locked = lock.lock(rt);
        let from = last_sent(&locked.cell);
        let begun = renew_in(&mut locked.cell, venue, ordinal, session);
        self.wakeups()
            .times()
            .go_on_from(venue, from, last_sent(&locked.cell));
        begun
    }
}
