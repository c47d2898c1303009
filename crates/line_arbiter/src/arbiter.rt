//! One venue's lines, in sequence.

ghost use Rattle.std.specs.Prelude.{◌≡◌, ℕ, ◌∷◌, ◌++◌, ◌↔◌, ◌+◌, ◌^◌, ◌<◌, ◌≤◌, List, [], IfNone, IfOk, IfSome, Ok, IsSome, MatchBool, Contains, IsErrOf, OnErr, OnOk, slice_get, Some, None, length};
ghost use Rattle.feed_types.specs.Prefix.{IsPrefix};
ghost use Rattle.feed_types.specs.declared.line.LineId.{LineId};
ghost use Rattle.line_arbiter.specs.Packets.{Input, Skip, arrival_of};
ghost use Rattle.line_arbiter.specs.Streams.{IsComplete, place_of, stream_of, gap_of, wins_of};
ghost use Rattle.line_arbiter.specs.Outcomes.{IsOutcome};
ghost use Rattle.line_arbiter.specs.Renewals.{HasEnded, IsRenewal};
ghost use Rattle.line_arbiter.specs.Skips.{IsSkip};
ghost use Rattle.line_arbiter.specs.Genuine.{AreGenuine, IsGenuineItem};
ghost use Rattle.feed_types.specs.PerLines.{on_line};
ghost use Rattle.line_arbiter.specs.Counts.{shown};
ghost use Rattle.line_arbiter.specs.Holding.{held_at};
ghost use Rattle.line_arbiter.specs.States.{ordinal_of, held_of, next_of, ShowsCursors, IsNew, KeepsItsPlace, IsAdvanced, IsRenewed, IsSkipped};
ghost use Rattle.line_arbiter.specs.Fits.{Fits, cursors_of};
ghost use Rattle.line_arbiter.specs.Steps.{IsSound, DropsNext, SkipsTo};

use crate::faults::{ArbiterFault, RenewFault, SkipFault};
use crate::intake::next_after;
use crate::outcome::{LineFault, Outcome};
use crate::taking::{ends_below, raised};
use crate::window::Window;
use arrayvec::ArrayVec;
use feed_types::{
    Genuine, Item, LineId, MAX_SESSIONS, MAX_WINDOW, Numbered, PerLine, SessionName, VenueId,
};
use mold_packet::{Packet, Request};
use std::alloc::Global;
use std::marker::{Model, PhantomData};

/// The most sessions of a venue that are over while another goes on.
const EARLIER_SESSIONS: usize = MAX_SESSIONS - 1;

/// The cursors of a venue's present session. Numbers count from 1.
#[derive(Clone, Copy, Debug, PartialEq, Eq)]
pub struct ArbiterStatus {
    /// The number of the last item advanced past, 0 at first. End has a number of its own. After a
    /// skip it is two below the number that the session goes on from, until Skipped was advanced
    /// past.
    pub sent: u64,
    /// The greatest number up to which every message was taken.
    pub front: u64,
    /// The greatest number up to which the session is known to go.
    pub known: u64,
    /// The announced end, one more than the last message's number.
    pub end: Option<u64>,
    /// The number of messages that were taken and not yet advanced past, and Skipped while it is
    /// ready; at most the window.
    pub held: u32,
}

/// An arbiter of one venue's lines: it keeps what was taken from them and not yet sent on.
///
/// `G` names what the lines may carry ([`Genuine`]); [`feed_types::Anything`] where nothing is
/// known.
#[derive(Drop)]
pub struct Arbiter<G> {
    venue_id: VenueId,
    /// The names of the sessions that are over.
    earlier_names: ArrayVec<SessionName, EARLIER_SESSIONS>,
    pub(crate) session_name: SessionName,
    pub(crate) held: Window,
    pub(crate) run_to: u64,
    /// The lowest number past the front that is held.
    pub(crate) next_held: Option<u64>,
    pub(crate) known_to: u64,
    pub(crate) end_number: Option<u64>,
    pub(crate) won: PerLine<u64>,
    won_before: PerLine<u64>,
    lines: PhantomData<G>,
}

impl<G> Model for Arbiter<G> {
    ghost use Rattle.line_arbiter.specs.States.{State};

    ghost Value = { State };

    ghost use Rattle.line_arbiter.specs.Inside.{arbiter_inside, IsArbiter};

    ghost view = { λ a. arbiter_inside a };

    ghost invariant = { λ a. IsArbiter a };
}

impl<G: Genuine> Arbiter<G> {
    /// Returns an arbiter of the venue's first session, whose name is ten bytes, filled on the
    /// right with spaces. `window` is the number of messages past the last item sent that are held,
    /// 1 to 65,535; any other is refused as BadWindow. All memory is taken here and none later;
    /// where it was refused, the answer is NoMemory.
    pub fn new(
        alloc: Global,
        venue: VenueId,
        session: [u8; 10],
        window: u32,
    ) -> Result<Self, ArbiterFault>
        ensures made { IfOk result (λ a. IsNew a venue session window) }
        ensures fits { IfOk result (λ a. Fits a []) }
        ensures bad_window { IsErrOf result ArbiterFault.BadWindow
            ↔ (¬ ((1 ≤ window) × (window ≤ 65535))) }
    {
        if window < 1 || window > MAX_WINDOW {
            return Err(ArbiterFault::BadWindow);
        }
        let Ok(held) = Window::new(alloc, window) else {
            return Err(ArbiterFault::NoMemory);
        };
        Ok(Arbiter {
            venue_id: venue,
            earlier_names: ArrayVec::new(),
            session_name: session,
            held,
            run_to: 0,
            next_held: None,
            known_to: 0,
            end_number: None,
            won: PerLine::all(0),
            won_before: PerLine::all(0),
            lines: PhantomData,
        })
    }

    /// Returns the venue whose lines the arbiter takes.
    pub fn venue(&self) -> VenueId
        ensures { result ≡ self.now.venue }
    {
        self.venue_id
    }

    /// Returns the present session's name: ten bytes, filled on the right with spaces.
    pub fn session(&self) -> SessionName
        ensures { result ≡ self.now.session }
    {
        self.session_name
    }

    /// Returns the number of the venue's present session, counted from 1 to 64.
    pub fn ordinal(&self) -> u64
        ensures value { result ≡ ordinal_of self.now }
        ensures range { (1 ≤ result) × (result ≤ 64) }
    {
        self.earlier_names.len() as u64 + 1
    }

    /// Returns the item that is held at the number after the last one sent. Where all up to the
    /// front was sent none is, and no place is looked at.
    #[inline(always)]
    fn first_held(&self) -> Option<Item>
        ensures value { result ≡ held_at (held_of self.now) (self.now.sent + 1) }
        ensures small { IsSome result → self.now.sent + 1 < 2 ^ 64 }
    {
        if self.held.base() >= self.run_to {
            return None;
        }
        let Some(item) = self.held.first() else {
            unreachable!();
        };
        Some(item)
    }

    /// Returns the item that is ready, if any.
    fn ready(&self) -> Option<Numbered>
        ensures value { result ≡ next_of self.now }
        ensures sound { IsSound self.now }
    {
        let sent = self.held.base();
        if let Some(item) = self.first_held() {
            return Some(Numbered {
                number: sent + 1,
                item,
            });
        }
        match self.end_number {
            Some(end) if end > sent && end - sent == 1 => Some(Numbered {
                number: end,
                item: Item::End,
            }),
            _ => None,
        }
    }

    /// Returns whether an item is ready.
    fn has_ready(&self) -> bool
        ensures value { MatchBool result (IsSome (next_of self.now)) (next_of self.now ≡ None) }
        ensures sound { IsSound self.now }
    {
        self.ready().is_some()
    }

    /// Goes past the item that is ready, and returns it where it was held.
    #[inline(always)]
    fn drop_next(&mut self) -> Option<Item>
        requires { IsSome (next_of self.old) }
        ensures item { result ≡ held_at (held_of self.old) (self.old.sent + 1) }
        ensures after { DropsNext self.old self.new }
        ensures sound { IsSound self.old }
    {
        self.held.pass()
    }

    /// Takes the next message out, which is held.
    #[inline(always)]
    fn take_held(&mut self) -> Numbered
        requires held { IsSome (held_at (held_of self.old) (self.old.sent + 1)) }
        requires small { self.old.sent + 1 < 2 ^ 64 }
        ensures value { Some result ≡ next_of self.old }
        ensures after { DropsNext self.old self.new }
        ensures sound { IsSound self.old }
    {
        let number = self.held.base() + 1;
        let Some(item) = self.drop_next() else {
            unreachable!();
        };
        Numbered { number, item }
    }

    /// Takes the item out that is ready, if any. Most often it is a message, of which a place is
    /// known.
    #[inline(always)]
    fn take_out(&mut self) -> Option<Numbered>
        ensures value { result ≡ next_of self.old }
        ensures after { IfSome result (λ _. DropsNext self.old self.new) }
        ensures left { IfNone result (self.new ≡ self.old) }
        ensures sound { IsSound self.old }
    {
        if self.held.base() < self.run_to {
            return Some(self.take_held());
        }
        let end = self.ready()?;
        self.drop_next();
        Some(end)
    }

    /// Gives up all messages below the number, of which none is held.
    fn go_on_from(&mut self, number: u64)
        requires past { self.old.front + 1 < number }
        requires missing { (m : ℕ) → IsSome (held_at (held_of self.old) m) → number ≤ m }
        requires open { (e : ℕ) → self.old.end ≡ Some e → number ≤ e }
        ensures after { SkipsTo self.old self.new number }
        ensures sound { IsSound self.old }
    {
        let last = number - 1;
        self.held.give_up(last);
        self.run_to = self.held.run_end(last);
        self.next_held = next_after(&self.held, self.run_to, self.next_held, last);
        self.known_to = raised(self.known_to, self.end_number, last);
    }

    /// Takes a packet that came on `line`, and returns its outcome. A refused packet changes
    /// nothing. The refusals, in this order: another session's packet; messages at the announced
    /// end or past it; a held message that reads otherwise; a heartbeat past the end; an end that
    /// differs from the announced one, or is at a message that was taken or before it.
    #[inline(always)]
    pub fn take(&mut self, line: LineId, packet: &Packet<'_>) -> Result<Outcome, LineFault>
        ensures outcome { (packets : List Input) → Fits self.old packets
            → IsOutcome self.old.session self.old.window self.old.sent packets packet.now result }
        ensures fits { (packets : List Input) → Fits self.old packets
            → Fits self.new (packets ++ arrival_of line packet.now result ∷ []) }
        ensures grows { (packets : List Input) → Fits self.old packets
            → IsPrefix (stream_of packets)
            (stream_of (packets ++ arrival_of line packet.now result ∷ [])) }
        ensures refused { OnErr result (self.new ≡ self.old) }
        ensures kept { KeepsItsPlace self.old self.new }
    {
        self.take_any(line, packet)
    }

    /// Returns the item after the last one advanced past, if it is there: a message, or End after
    /// the last one. Nothing is ready after End. It stays until `advance`.
    pub fn next_ready(&self) -> Option<Numbered>
        ensures value { result ≡ next_of self.now }
        ensures number { IfSome result (λ n. n.number ≡ self.now.sent + 1) }
        ensures over { HasEnded self.now.end self.now.sent → result ≡ None }
        ensures stream { (packets : List Input) → Fits self.now packets
            → result ≡ slice_get (stream_of packets) (place_of packets self.now.sent) }
        ensures genuine { (packets : List Input) → Fits self.now packets
            → AreGenuine G.carries G.ends self.now.venue (ordinal_of self.now) packets
            → IfSome result (IsGenuineItem G.carries G.ends self.now.venue (ordinal_of self.now)) }
    {
        self.ready()
    }

    /// Goes past the item that is ready, so that the next one may be. One has to be ready.
    pub fn advance(&mut self)
        requires { IsSome (next_of self.old) }
        ensures after { IsAdvanced self.old self.new }
        ensures fits { (packets : List Input) → Fits self.old packets → Fits self.new packets }
    {
        self.drop_next();
    }

    /// Takes out the item after the last one advanced past, if it is there: it does what
    /// `next_ready` and then `advance` do.
    #[inline(always)]
    pub fn take_ready(&mut self) -> Option<Numbered>
        ensures value { result ≡ next_of self.old }
        ensures number { IfSome result (λ n. n.number ≡ self.old.sent + 1) }
        ensures over { HasEnded self.old.end self.old.sent → result ≡ None }
        ensures stream { (packets : List Input) → Fits self.old packets
            → result ≡ slice_get (stream_of packets) (place_of packets self.old.sent) }
        ensures genuine { (packets : List Input) → Fits self.old packets
            → AreGenuine G.carries G.ends self.old.venue (ordinal_of self.old) packets
            → IfSome result (IsGenuineItem G.carries G.ends self.old.venue (ordinal_of self.old)) }
        ensures after { IfSome result (λ _. IsAdvanced self.old self.new) }
        ensures left { IfNone result (self.new ≡ self.old) }
        ensures fits { (packets : List Input) → Fits self.old packets → Fits self.new packets }
    {
        self.take_out()
    }

    /// Returns the run of messages to ask for: from the first that is missing, as many as are
    /// missing in a row, as far as the window and what is known of the session go. `None` where
    /// none is.
    pub fn gap(&self) -> Option<Request>
        ensures { (packets : List Input) → Fits self.now packets
            → result ≡ gap_of self.now.session self.now.window self.now.sent packets }
    {
        let limit = self.known_to.min(self.held.reach());
        let last = match self.next_held {
            Some(next) => limit.min(next - 1),
            None => limit,
        };
        if last <= self.run_to {
            return None;
        }
        Some(Request {
            session: self.session_name,
            number: self.run_to + 1,
            count: (last - self.run_to) as u16,
        })
    }

    /// Returns the count of numbers that the line brought first, over all sessions. The count stays
    /// at 2^64 - 1.
    pub fn wins(&self, line: LineId) -> u64
        ensures value { result ≡ on_line line self.now.wins }
        ensures session { (packets : List Input) → Fits self.now packets
            → result ≡ shown (on_line line self.now.earlier + wins_of packets line) }
    {
        self.won.on(line)
    }

    /// Returns the counts of all lines, each that of `wins`.
    pub fn all_wins(&self) -> PerLine<u64>
        ensures value { result ≡ self.now.wins }
        ensures session { (packets : List Input) → Fits self.now packets → (line : LineId)
            → on_line line result ≡ shown (on_line line self.now.earlier + wins_of packets line) }
    {
        self.won
    }

    /// Returns the cursors of the present session.
    #[inline(always)]
    pub fn status(&self) -> ArbiterStatus
        ensures cursors { ShowsCursors self.now result }
        ensures packets { (packets : List Input) → Fits self.now packets
            → result ≡ cursors_of self.now.sent packets }
    {
        ArbiterStatus {
            sent: self.held.base(),
            front: self.run_to,
            known: self.known_to,
            end: self.end_number,
            held: self.held.count(),
        }
    }

    /// Returns whether a session of the venue has had the name.
    fn has_used(&self, name: &SessionName) -> bool
        ensures { MatchBool result (Contains self.now.sessions name.now)
            (Contains self.now.sessions name.now → ⊥) }
    {
        if self.session_name == *name {
            return true;
        }
        if self.earlier_names.as_slice().contains(name) {
            return true;
        }
        false
    }

    /// Begins the venue's next session under a name of ten bytes, once End was advanced past, and
    /// returns its ordinal. Nothing of it has come yet; wins go on counting. The refusals, in this
    /// order: NotEnded, SessionUsed, TooManySessions (64 at most).
    pub fn renew(&mut self, session: SessionName) -> Result<u64, RenewFault>
        ensures answer { IsRenewal self.old.sessions self.old.end self.old.sent session result }
        ensures ok { OnOk result (IsRenewed self.old self.new session) }
        ensures fits { OnOk result (Fits self.new []) }
        ensures complete { (packets : List Input) → Fits self.old packets
            → OnOk result (IsComplete packets
            × (place_of packets self.old.sent ≡ length (stream_of packets))) }
        ensures refused { OnErr result (self.new ≡ self.old) }
    {
        if self.end_number != Some(self.held.base()) {
            return Err(RenewFault::NotEnded);
        }
        if self.has_used(&session) {
            return Err(RenewFault::SessionUsed);
        }
        if self.earlier_names.is_full() {
            return Err(RenewFault::TooManySessions);
        }
        self.earlier_names.push(self.session_name);
        self.session_name = session;
        self.held.move_to(0);
        self.run_to = 0;
        self.known_to = 0;
        self.end_number = None;
        self.won_before = self.won;
        Ok(self.ordinal())
    }

    /// Gives up the messages that are missing below `number`, and goes on from it. The next item is
    /// then `Skipped`, with the number before; a message that was given up is answered as repeated
    /// where it comes later, and not read. What came from `number` on is kept. The refusals, in
    /// this order: ItemsReady, PastEnd, NothingMissing, HeldBelow.
    ///
    /// An arbiter that begins in the middle of a session skips to the first number that is to be
    /// read.
    pub fn skip_to(&mut self, number: u64) -> Result<(), SkipFault>
        ensures answer { (packets : List Input) → Fits self.old packets
            → IsSkip packets self.old.sent number result }
        ensures ok { OnOk result (IsSkipped self.old self.new number) }
        ensures fits { (packets : List Input) → Fits self.old packets
            → OnOk result (Fits self.new (packets ++ Skip number ∷ [])) }
        ensures grows { (packets : List Input) → Fits self.old packets
            → OnOk result (IsPrefix (stream_of packets) (stream_of (packets ++ Skip number ∷ []))) }
        ensures refused { OnErr result (self.new ≡ self.old) }
    {
        if self.has_ready() {
            return Err(SkipFault::ItemsReady);
        }
        if ends_below(self.end_number, number) {
            return Err(SkipFault::PastEnd);
        }
        if number.saturating_sub(1) <= self.run_to {
            return Err(SkipFault::NothingMissing);
        }
        if self.held.holds_below(number) {
            return Err(SkipFault::HeldBelow);
        }
        self.go_on_from(number);
        Ok(())
    }
}
