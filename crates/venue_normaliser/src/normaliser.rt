//! A venue's normaliser.

ghost use Rattle.std.specs.Prelude.{◌≡◌, ℕ, ◌∷◌, ◌++◌, ◌≤◌, ◌↔◌, ◌*◌, true, false, List, [], Ok, IfOk, OnErr, OnOk, IsErrOf, map, length};
ghost use Rattle.feed_types.specs.Sessions.{end_item};
ghost use Rattle.feed_types.specs.Symbols.{key_of};
ghost use Rattle.feed_types.specs.PerLines.{on_line};
ghost use Rattle.line_arbiter.specs.Packets.{Input, Skip, arrival_of, is_taken};
ghost use Rattle.line_arbiter.specs.InOrder.{IsNext, outcome_of_next};
ghost use Rattle.mold_packet.specs.Content.{last_number};
ghost use Rattle.line_arbiter.specs.Streams.{gap_of};
ghost use Rattle.line_arbiter.specs.Fits.{Fits, cursors_of};
ghost use Rattle.line_arbiter.specs.Outcomes.{IsOutcome};
ghost use Rattle.line_arbiter.specs.Skips.{AllSent, IsSkip};
ghost use Rattle.line_arbiter.specs.Renewals.{IsRenewal};
ghost use Rattle.line_arbiter.specs.States.{IsRenewed, KeepsItsPlace, KeepsItsSession, ordinal_of};
ghost use Rattle.venue_normaliser.specs.Brought.{has_skip_past, messages_brought};
ghost use Rattle.venue_normaliser.specs.Outputs.{Opening, events_of};
ghost use Rattle.itch_book.specs.Books.{session_orders_of};
ghost use Rattle.venue_normaliser.specs.Inside.{BringsPacket, PutsMany, PutsReady};
ghost use Rattle.venue_normaliser.specs.Slots.{KeepsPacket, KeepsTaken};
ghost use Rattle.venue_normaliser.specs.Ends.{read_as};
ghost use Rattle.venue_normaliser.specs.States.{FitsPackets, FitsOpened, IsNewNormaliser, KeepsItsBook, PutsOutFrom, Resumes, ShowsTooMuch};

use crate::end_number::{END_BYTES, EndNumber, moved_end};
use crate::fault::NormaliserFault;
use crate::message_slot::MessageSlot;
use crate::message_slots::{clear, empty_slots, keep_packet};
use crate::normaliser_settings::NormaliserSettings;
use crate::opening::{apply_all, begin_at, put_items, shown_items};
use crate::putting_out::{drop_ready, put_out, put_packet, put_ready};
use crate::resume_fault::ResumeFault;
use crate::snapshot::Snapshot;
use feed_types::{Anything, Item, LineId, Numbered, SessionName, SymbolName, VenueId};
use itch_book::{BookFault, Oddities, OrderBook};
use line_arbiter::{
    Arbiter, ArbiterFault, ArbiterStatus, LineFault, Outcome, RenewFault, SkipFault,
};
use mold_packet::{Packet, Request};
use std::alloc::Global;
use std::marker::Model;

/// One venue's lines in ITCH, in sequence, and the orders that their messages leave.
///
/// All memory of the window is taken in [`new`](VenueNormaliser::new), and that of the book as
/// orders come.
#[derive(Drop)]
pub struct VenueNormaliser {
    lines: Arbiter<Anything>,
    slots: Vec<MessageSlot>,
    book: OrderBook,
    has_given_up: bool,
    end_number: EndNumber,
    symbols: Vec<SymbolName>,
    most_orders: usize,
}

impl Model for VenueNormaliser {
    ghost use Rattle.std.specs.Prelude.{◌≡◌, ◌≤◌, ◌*◌, length, map};
    ghost use Rattle.feed_types.specs.Symbols.{key_of};
    ghost use Rattle.venue_normaliser.specs.States.{NormaliserState};

    ghost Value = { NormaliserState };

    ghost view = { λ n. record {
      lines = n.lines;
      slots = n.slots.items;
      book = n.book;
      has_given_up = n.has_given_up;
      end_number = n.end_number;
    } };

    ghost invariant = { λ n. (1 ≤ length n.slots.items)
        × (length n.slots.items ≡ n.lines.window)
        × (n.book.keys ≡ map key_of n.symbols.items) };
}

/// Returns whether a packet's messages were taken.
fn has_taken(answer: &Result<Outcome, LineFault>) -> bool
    ensures { result ≡ is_taken answer.now }
{
    matches!(answer, Ok(Outcome::Taken { .. }))
}

/// Returns the refusal of memory.
fn no_memory() -> NormaliserFault
    ensures { result ≡ NormaliserFault.Book BookFault.NoMemory }
{
    NormaliserFault::Book(BookFault::NoMemory)
}

impl VenueNormaliser {
    /// Makes the normaliser of a venue's first session, whose name is ten bytes, filled on the
    /// right with spaces. `symbols` are those whose quotations it makes, at most 65,536 and each
    /// once; orders of other symbols aren't kept, and without symbols nothing is quoted.
    pub fn new(
        alloc: Global,
        venue: VenueId,
        session: SessionName,
        symbols: &[SymbolName],
        settings: &NormaliserSettings,
    ) -> Result<VenueNormaliser, NormaliserFault>
        ensures fits { IfOk result (λ n. FitsPackets n []) }
        ensures made { IfOk result (λ n. IsNewNormaliser n venue session
            (map key_of symbols.now) settings.now.window settings.now.end_number) }
        ensures bad_window { IsErrOf result NormaliserFault.BadWindow
            ↔ (¬ ((1 ≤ settings.now.window) × (settings.now.window ≤ 65535))) }
    {
        let window = settings.window;
        let lines = match Arbiter::new(alloc, venue, session, window) {
            Ok(lines) => lines,
            Err(ArbiterFault::BadWindow) => return Err(NormaliserFault::BadWindow),
            Err(ArbiterFault::NoMemory) => return Err(no_memory()),
        };
        let Ok(slots) = empty_slots(alloc, window) else {
            return Err(no_memory());
        };
        let Ok(names) = Vec::from_slice(alloc, symbols) else {
            return Err(no_memory());
        };
        match OrderBook::new(alloc, symbols, settings.most_orders) {
            Ok(book) => Ok(VenueNormaliser {
                lines,
                slots,
                book,
                has_given_up: false,
                end_number: settings.end_number,
                symbols: names,
                most_orders: settings.most_orders,
            }),
            Err(fault) => Err(NormaliserFault::Book(fault)),
        }
    }

    /// Begins the venue's present session, of which nothing came yet, with a snapshot: with its
    /// orders, round lots and halts, and at its number. Messages before that aren't missing, and
    /// what they bring isn't put out. What the snapshot shows, the quotation of each symbol that
    /// has one and its halt, follows the items in `out`, with the numbers just before its own.
    ///
    /// TooFewNumbers is the answer where those are fewer than what it shows, which no true snapshot
    /// has: some message of the session made each. After an `Err` the normaliser is to be dropped,
    /// and what the call added to `out`.
    #[tactic(auto, using(crate::proofs::Opened::resumes))]
    pub fn resume(
        &mut self,
        alloc: Global,
        snapshot: &Snapshot<'_>,
        out: &mut Vec<Numbered>,
    ) -> Result<(), ResumeFault>
        ensures resumed { OnOk result (FitsPackets self.old []
            → Resumes snapshot.now self.old self.new out.old.items out.new.items) }
        ensures too_few { FitsPackets self.old []
            → IsErrOf result ResumeFault.TooFewNumbers
            → ShowsTooMuch self.old.book.keys snapshot.now }
        ensures begun { FitsPackets self.old []
            → IsErrOf result ResumeFault.HasBegun → ⊥ }
        ensures kept { KeepsItsSession self.old.lines self.new.lines
            × KeepsItsBook self.old self.new }
    {
        apply_all(&mut self.book, snapshot)?;
        let shown = shown_items(alloc, &self.book)?;
        let count = shown.len() as u64;
        let number = snapshot.number();
        if count >= number {
            return Err(ResumeFault::TooFewNumbers);
        }
        if !begin_at(&mut self.lines, number) {
            return Err(ResumeFault::HasBegun);
        }
        put_items(out, number - count, shown.as_slice())?;
        Ok(())
    }

    /// Takes a packet that goes on where nothing is held, and puts out its messages.
    #[inline(always)]
    fn take_next(
        &mut self,
        line: LineId,
        packet: &Packet<'_>,
        out: &mut Vec<Numbered>,
    ) -> Result<Outcome, BookFault>
        requires { IsNext self.old.lines packet.now }
        ensures answer { IfOk result (λ outcome. outcome ≡ outcome_of_next packet.now) }
        ensures fits { IfOk result (λ outcome. (packets : List Input)
            → Fits self.old.lines packets
            → Fits self.new.lines (packets ++ arrival_of line packet.now (Ok outcome) ∷ [])) }
        ensures puts { OnOk result (PutsMany packet.now.number packet.now.messages
            self.old.book self.new.book out.old.items out.new.items) }
        ensures sent { OnOk result (self.new.lines.sent ≡ last_number packet.now) }
        ensures kept { self.new
            ≡ record self.old { lines = self.new.lines; book = self.new.book } }
        ensures lines { KeepsItsSession self.old.lines self.new.lines }
        ensures keys { self.new.book.keys ≡ self.old.book.keys }
    {
        let outcome = self.lines.take_next(line, packet);
        put_packet(&mut self.book, packet, out)?;
        Ok(outcome)
    }

    /// Takes any packet, and keeps the messages of one that was taken.
    #[inline(always)]
    fn take_any(&mut self, line: LineId, packet: &Packet<'_>) -> Result<Outcome, LineFault>
        ensures outcome { (packets : List Input) → Fits self.old.lines packets
            → IsOutcome self.old.lines.session self.old.lines.window self.old.lines.sent packets
            packet.now result }
        ensures fits { (packets : List Input) → Fits self.old.lines packets
            → Fits self.new.lines (packets ++ arrival_of line packet.now result ∷ []) }
        ensures taken { is_taken result ≡ true
            → KeepsPacket self.old.lines.sent packet.now self.old.slots self.new.slots }
        ensures others { is_taken result ≡ false → self.new.slots ≡ self.old.slots }
        ensures count { length self.new.slots ≡ length self.old.slots }
        ensures window { length self.old.slots ≡ self.old.lines.window }
        ensures kept { self.new
            ≡ record self.old { lines = self.new.lines; slots = self.new.slots } }
        ensures lines { KeepsItsPlace self.old.lines self.new.lines }
    {
        let sent = self.lines.status().sent;
        let answer = self.lines.take(line, packet);
        if has_taken(&answer) {
            keep_packet(self.slots.as_mut_slice(), sent, packet);
        }
        answer
    }

    /// Takes a packet, and puts out its messages where it goes on where nothing is held; of another
    /// the messages are kept.
    #[inline(always)]
    fn take_packet(
        &mut self,
        line: LineId,
        packet: &Packet<'_>,
        out: &mut Vec<Numbered>,
    ) -> Result<Result<Outcome, LineFault>, BookFault>
        ensures brings { IfOk result (λ answer. (opening : Opening)
            (packets : List Input) → FitsOpened self.old opening packets
            → BringsPacket line packet.now answer packets self.old self.new
            out.old.items out.new.items) }
        ensures kept { KeepsItsSession self.old.lines self.new.lines
            × KeepsItsBook self.old self.new }
    {
        if !self.has_given_up && self.lines.is_next(packet) {
            let outcome = self.take_next(line, packet, out)?;
            return Ok(Ok(outcome));
        }
        Ok(self.take_any(line, packet))
    }

    /// Puts out all that is ready; nothing where a gap was given up.
    #[inline(always)]
    fn finish(&mut self, out: &mut Vec<Numbered>) -> Result<(), BookFault>
        ensures ready { OnOk result ((packets : List Input) → Fits self.old.lines packets
            → self.old.has_given_up ≡ false
            → KeepsTaken self.old.slots self.old.lines.sent packets
            → PutsReady packets self.old.slots self.old.lines self.new.lines self.old.book
            self.new.book out.old.items out.new.items) }
        ensures dropped { OnOk result (self.old.has_given_up ≡ true
            → (out.new.items ≡ out.old.items) × (self.new.book ≡ self.old.book)
            × ((packets : List Input) → Fits self.old.lines packets
            → Fits self.new.lines packets × AllSent packets self.new.lines.sent)) }
        ensures kept { OnOk result (self.new
            ≡ record self.old { lines = self.new.lines; book = self.new.book }) }
        ensures lines { KeepsItsSession self.old.lines self.new.lines }
        ensures keys { self.new.book.keys ≡ self.old.book.keys }
    {
        if self.has_given_up {
            drop_ready(&mut self.lines);
            return Ok(());
        }
        put_ready(&mut self.lines, self.slots.as_slice(), &mut self.book, out)
    }

    /// Ends what is put out of the session, at this number, unless it has ended.
    fn end_output(&mut self, number: u64, out: &mut Vec<Numbered>) -> Result<(), BookFault>
        ensures ended { OnOk result (self.old.has_given_up ≡ false
            → out.new.items ≡ out.old.items ++ end_item number ∷ []) }
        ensures over { OnOk result (self.old.has_given_up ≡ true
            → out.new.items ≡ out.old.items) }
        ensures kept { self.new ≡ record self.old { has_given_up = true } }
    {
        if self.has_given_up {
            return Ok(());
        }
        self.has_given_up = true;
        put_out(out, number, Item::End)
    }

    /// Takes a packet whose end's number is as the standard has it.
    #[inline(always)]
    fn take_read(
        &mut self,
        line: LineId,
        packet: &Packet<'_>,
        out: &mut Vec<Numbered>,
    ) -> Result<Result<Outcome, LineFault>, BookFault>
        ensures outcome { IfOk result (λ answer. (opening : Opening)
            (packets : List Input) → FitsOpened self.old opening packets
            → IsOutcome self.old.lines.session self.old.lines.window self.old.lines.sent packets
            packet.now answer) }
        ensures fits { IfOk result (λ answer. (opening : Opening)
            (packets : List Input) → FitsOpened self.old opening packets
            → FitsOpened self.new opening (packets ++ arrival_of line packet.now answer ∷ [])) }
        ensures output { IfOk result (λ answer. (opening : Opening)
            (packets : List Input) → FitsOpened self.old opening packets
            → PutsOutFrom self.old.book.keys opening packets (packets
            ++ arrival_of line packet.now answer ∷ [])
            out.old.items out.new.items) }
        ensures kept { OnOk result (KeepsItsSession self.old.lines self.new.lines
            × KeepsItsBook self.old self.new) }
    {
        let answer = self.take_packet(line, packet, out)?;
        self.finish(out)?;
        Ok(answer)
    }

    /// Takes a packet that came on `line`, puts the items that are ready then after those in `out`,
    /// and returns the arbiter's answer. A packet that goes on where nothing is held is read where
    /// it lies; of another the messages are kept until they are in sequence. Nothing is put out of
    /// a session of which a gap was given up.
    ///
    /// An `Err` ends the run: memory was refused, or the book has no room for an order. The
    /// normaliser is to be dropped then, since a replace may have taken the old order out, and so
    /// is what the call added to `out`.
    pub fn take(
        &mut self,
        line: LineId,
        packet: &Packet<'_>,
        out: &mut Vec<Numbered>,
    ) -> Result<Result<Outcome, LineFault>, BookFault>
        ensures outcome { IfOk result (λ answer. (opening : Opening)
            (packets : List Input) → FitsOpened self.old opening packets
            → IsOutcome self.old.lines.session self.old.lines.window self.old.lines.sent packets
            (read_as self.old.end_number packet.now) answer) }
        ensures fits { IfOk result (λ answer. (opening : Opening)
            (packets : List Input) → FitsOpened self.old opening packets
            → FitsOpened self.new opening (packets
            ++ arrival_of line (read_as self.old.end_number packet.now) answer ∷ [])) }
        ensures output { IfOk result (λ answer. (opening : Opening)
            (packets : List Input) → FitsOpened self.old opening packets
            → PutsOutFrom self.old.book.keys opening packets (packets
            ++ arrival_of line (read_as self.old.end_number packet.now) answer ∷ [])
            out.old.items out.new.items) }
        ensures kept { OnOk result (KeepsItsSession self.old.lines self.new.lines
            × KeepsItsBook self.old self.new) }
    {
        let mut bytes = [0; END_BYTES];
        match moved_end(self.end_number, packet, &mut bytes) {
            Some(end) => self.take_read(line, &end, out),
            None => self.take_read(line, packet, out),
        }
    }

    /// Gives up the messages that are missing below `number`, as [`Arbiter::skip_to`] does, and
    /// returns its answer. What is put out of the session ends then, with an end of session at the
    /// first missing number, after the items in `out`; a session that begins in the middle without
    /// a
    /// snapshot is such a gap, from number 1.
    ///
    /// An `Err` is a refusal of memory, which ends the run.
    pub fn skip_to(
        &mut self,
        number: u64,
        out: &mut Vec<Numbered>,
    ) -> Result<Result<(), SkipFault>, BookFault>
        ensures answer { IfOk result (λ answer. (opening : Opening)
            (packets : List Input) → FitsOpened self.old opening packets
            → IsSkip packets self.old.lines.sent number answer) }
        ensures fits { IfOk result (λ answer. (opening : Opening)
            (packets : List Input) → FitsOpened self.old opening packets → OnOk answer
            (FitsOpened self.new opening (packets ++ Skip number ∷ []))) }
        ensures output { IfOk result (λ answer. (opening : Opening)
            (packets : List Input) → FitsOpened self.old opening packets → OnOk answer
            (PutsOutFrom self.old.book.keys opening packets (packets ++ Skip number ∷ [])
            out.old.items out.new.items)) }
        ensures refused { IfOk result (λ answer. OnErr answer
            ((self.new ≡ self.old) × (out.new.items ≡ out.old.items))) }
        ensures kept { OnOk result (KeepsItsSession self.old.lines self.new.lines
            × KeepsItsBook self.old self.new) }
    {
        let first_missing = self.lines.status().front.saturating_add(1);
        if let Err(fault) = self.lines.skip_to(number) {
            return Ok(Err(fault));
        }
        self.end_output(first_missing, out)?;
        drop_ready(&mut self.lines);
        Ok(Ok(()))
    }

    /// Begins the venue's next session under a name of ten bytes, as [`Arbiter::renew`] does, and
    /// returns its answer: with its ordinal, an empty book, round lots of 100 and no halts.
    ///
    /// An `Err` is a refusal of memory, which ends the run.
    pub fn renew(
        &mut self,
        alloc: Global,
        session: SessionName,
    ) -> Result<Result<u64, RenewFault>, BookFault>
        ensures answer { IfOk result (λ answer. IsRenewal self.old.lines.sessions
            self.old.lines.end self.old.lines.sent session answer) }
        ensures fits { IfOk result (λ answer. OnOk answer (FitsPackets self.new [])) }
        ensures renewed { IfOk result (λ answer. OnOk answer
            (IsRenewed self.old.lines self.new.lines session)) }
        ensures refused { IfOk result (λ answer. OnErr answer (self.new ≡ self.old)) }
        ensures kept { OnOk result (KeepsItsBook self.old self.new) }
    {
        let ordinal = match self.lines.renew(session) {
            Ok(ordinal) => ordinal,
            Err(fault) => return Ok(Err(fault)),
        };
        clear(&mut self.slots);
        self.book = OrderBook::new(alloc, self.symbols.as_slice(), self.most_orders)?;
        self.has_given_up = false;
        Ok(Ok(ordinal))
    }

    /// Returns the venue whose lines the normaliser takes.
    pub fn venue(&self) -> VenueId
        ensures { result ≡ self.now.lines.venue }
    {
        self.lines.venue()
    }

    /// Returns the present session's name: ten bytes, filled on the right with spaces.
    pub fn session(&self) -> SessionName
        ensures { result ≡ self.now.lines.session }
    {
        self.lines.session()
    }

    /// Returns the number of the venue's present session, counted from 1 to 64.
    pub fn ordinal(&self) -> u64
        ensures { result ≡ ordinal_of self.now.lines }
    {
        self.lines.ordinal()
    }

    /// Returns whether a gap of the present session was given up, so that nothing more is put out
    /// of it.
    pub fn has_given_up(&self) -> bool
        ensures { (opening : Opening) (packets : List Input)
            → FitsOpened self.now opening packets
            → result ≡ has_skip_past opening.number packets }
    {
        self.has_given_up
    }

    /// Returns the cursors of the present session's input.
    pub fn status(&self) -> ArbiterStatus
        ensures { (opening : Opening) (packets : List Input)
            → FitsOpened self.now opening packets
            → result ≡ cursors_of self.now.lines.sent packets }
    {
        self.lines.status()
    }

    /// Returns the run of messages to ask for, as [`Arbiter::gap`] does. `None` where none is
    /// missing.
    pub fn gap(&self) -> Option<Request>
        ensures { (opening : Opening) (packets : List Input)
            → FitsOpened self.now opening packets
            → result
            ≡ gap_of self.now.lines.session self.now.lines.window self.now.lines.sent packets }
    {
        self.lines.gap()
    }

    /// Returns the count of numbers that the line brought first, over all sessions.
    pub fn wins(&self, line: LineId) -> u64
        ensures { result ≡ on_line line self.now.lines.wins }
    {
        self.lines.wins(line)
    }

    /// Returns the numbers of the session's messages that changed no order, or took more than there
    /// was, up to the first gap.
    pub fn oddities(&self) -> Oddities
        ensures { (opening : Opening) (packets : List Input)
            → FitsOpened self.now opening packets
            → self.now.has_given_up ≡ false
            → result ≡ (session_orders_of self.now.book.keys
            (events_of (opening.messages ++ messages_brought opening.number packets))).oddities }
    {
        self.book.oddities()
    }
}
