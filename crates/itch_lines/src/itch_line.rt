//! A line of a venue in ITCH.
ghost use Rattle.std.specs.Prelude.{◌≡◌, ◌∷◌, [], IfErr, IfOk, Ok};
ghost use Rattle.venue_lines.specs.Datagrams.{bytes_of};
ghost use Rattle.venue_lines.specs.Sources.{brought_in, failures_after};
ghost use Rattle.itch_lines.specs.Lines.{HandsOnMade, failures_at};

use crate::itch_cell::SectionDone;
use crate::itch_rules::ItchRules;
use crate::source_end::SourceEnd;
use crate::venue_share::VenueShare;
use feed_types::{Anything, LineId, VenueId};
use mold_packet::Request;
use std::alloc::Global;
use std::collections::VecDeque;
use std::marker::Model;
use std::time::Clock;
use venue_lines::{Datagram, LineSource, Looked, SourceFault};

/// A line of a venue in ITCH over the source that brings its datagrams.
///
/// Each datagram of the source goes to the venue's normaliser, and the line brings the packets that
/// carry what is put out then, in the turn of the venue's lines. The line asks for what is missing,
/// and gives up gaps, by its rules: the feed sees none.
#[derive(Drop)]
pub struct ItchLine<S, C> {
    pub source: S,
    pub(crate) venue: VenueId,
    pub(crate) line: LineId,
    share: VenueShare,
    rules: ItchRules,
    /// By what datagrams have times, if they have any.
    clock: Option<C>,
    /// When the datagram was read that has made what waits.
    time: Option<u64>,
    /// The datagrams that were made and are to be brought.
    pub(crate) waiting: VecDeque<Vec<u8>>,
    /// The ticket of the first of these.
    ticket: u64,
    /// Whether messages were missing when the line looked last.
    gap: bool,
    pub(crate) end: SourceEnd,
}

impl<S, C> Model for ItchLine<S, C> {
    ghost use Rattle.item_packets.specs.Packed.{bytes_of_each};
    ghost use Rattle.itch_lines.specs.Lines.{ItchLineState};

    ghost Value = { ItchLineState S };

    ghost view = { λ l. record {
      source = l.source;
      venue = l.venue;
      line = l.line;
      waiting = bytes_of_each l.waiting.items;
      end = l.end;
    } };
}

impl<S: LineSource<Anything>, C: Clock> ItchLine<S, C> {
    /// Makes the line over a source of its venue's datagrams. With a clock what it brings has the
    /// time at which the datagram was read that made it.
    pub fn new(
        alloc: Global,
        source: S,
        line: LineId,
        share: VenueShare,
        rules: ItchRules,
        clock: Option<C>,
    ) -> ItchLine<S, C>
        ensures source { result.source ≡ source }
        ensures venue { result.venue ≡ S.venue_of source }
        ensures line { result.line ≡ line }
        ensures waiting { result.waiting ≡ [] }
        ensures open { result.end ≡ SourceEnd.Open }
    {
        let venue = source.venue();
        ItchLine {
            source,
            venue,
            line,
            share,
            rules,
            clock,
            time: None,
            waiting: VecDeque::new(alloc),
            ticket: 0,
            gap: false,
            end: SourceEnd::Open,
        }
    }

    /// Returns this moment in nanoseconds from 1970 on, where datagrams have times and the system
    /// has it.
    fn time_now(&self) -> Option<u64> {
        match &self.clock {
            Some(clock) => match clock.since_1970() {
                Ok(time) => u64::try_from(time.as_nanos()).ok(),
                Err(_) => None,
            },
            None => None,
        }
    }

    /// Returns whether the next answer is there: a datagram that it is the line's turn to bring, or
    /// the end.
    fn has_answer(&self) -> bool {
        if self.waiting.is_empty() {
            self.end != SourceEnd::Open
        } else {
            self.share.is_turn(self.ticket)
        }
    }

    /// Sends the request for what the venue is missing that is due, if any.
    fn ask(&mut self, now_ms: u64)
        ensures brings { HandsOnMade S.brings self.old [] self.new }
        ensures failures { failures_at self.new.end ≡ failures_at self.old.end }
        ensures waiting { self.new.waiting ≡ self.old.waiting }
    {
        let Some(request) = self.share.request_due(now_ms, &self.rules) else {
            return;
        };
        if let Err(fault) = self.source.request(&request) {
            if self.end == SourceEnd::Open {
                self.end = SourceEnd::Failing(fault);
            }
        }
    }

    /// Has a fault end the line once what waits was brought, of which the first has this ticket.
    fn fail(&mut self, ticket: u64)
        ensures { self.new
            ≡ record self.old { end = SourceEnd.Failing SourceFault.NoMemory } }
    {
        self.ticket = ticket;
        self.end = SourceEnd::Failing(SourceFault::NoMemory);
    }

    /// Notes what a section has come to.
    fn note(&mut self, done: &SectionDone)
        ensures { self.new ≡ self.old }
    {
        self.ticket = done.ticket;
        self.gap = done.looked.gap;
    }

    /// Notes what a section has come to that gave up a gap, if one was given up.
    fn note_given(&mut self, given: Option<SectionDone>)
        ensures { self.new ≡ self.old }
    {
        if let Some(done) = given {
            self.note(&done);
        }
    }

    /// Gives up the venue's gap where it has stood long enough.
    fn leave(&mut self, now_ms: u64)
        requires none { self.old.waiting ≡ [] }
        requires open { self.old.end ≡ SourceEnd.Open }
        ensures brings { HandsOnMade S.brings self.old [] self.new }
        ensures failures { failures_at self.new.end ≡ failures_at self.old.end }
    {
        match self
            .share
            .give_up(self.venue, now_ms, &self.rules, &mut self.waiting)
        {
            Ok(given) => self.note_given(given),
            Err(failed) => self.fail(failed.ticket),
        }
    }

    /// Looks whether a reply is awaited, asks for what is missing, where it asks, and gives up what
    /// has stood long enough, where nothing waits.
    fn look_at_gap(&mut self, asks: bool)
        ensures brings { HandsOnMade S.brings self.old [] self.new }
        ensures failures { failures_at self.new.end ≡ failures_at self.old.end }
    {
        if !self.gap && !self.share.is_reply_awaited() {
            return;
        }
        let now_ms = self.source.now_ms();
        self.share.look_for_reply(now_ms, &self.rules);
        if asks {
            self.ask(now_ms);
        }
        if self.waiting.is_empty() && self.end == SourceEnd::Open {
            self.leave(now_ms);
        }
    }

    /// Has the venue take a datagram that the source has brought, and hands that back to it.
    fn take(&mut self, datagram: Datagram)
        requires none { self.old.waiting ≡ [] }
        requires open { self.old.end ≡ SourceEnd.Open }
        ensures brings { (before : S) → S.brings before (bytes_of datagram ∷ []) self.old.source
            → HandsOnMade S.brings (record self.old { source = before }) [] self.new }
        ensures failures { failures_at self.new.end ≡ 0 }
    {
        self.time = self.time_now();
        let taken = self
            .share
            .take(self.venue, self.line, datagram.bytes(), &mut self.waiting);
        match taken {
            Ok(done) => {
                self.note(&done);
                self.source.recycle(datagram, &done.looked);
            }
            Err(failed) => {
                self.fail(failed.ticket);
                self.source.recycle(datagram, &failed.looked);
            }
        }
    }

    /// Reads the source's next answer, and has the venue take what it brings.
    fn read(&mut self)
        requires none { self.old.waiting ≡ [] }
        requires open { self.old.end ≡ SourceEnd.Open }
        ensures brings { HandsOnMade S.brings self.old [] self.new }
        ensures failures { failures_at self.new.end ≡ failures_at self.old.end }
    {
        match self.source.next() {
            Ok(Some(datagram)) => {
                self.take(datagram);
                self.look_at_gap(true);
            }
            Ok(None) => self.end = SourceEnd::Ended,
            Err(fault) => self.end = SourceEnd::Failing(fault),
        }
    }

    /// Waits a while, and returns whether the next answer is there.
    fn poll(&mut self) -> bool
        ensures brings { HandsOnMade S.brings self.old [] self.new }
        ensures failures { failures_at self.new.end ≡ failures_at self.old.end }
    {
        if !self.waiting.is_empty() || self.end != SourceEnd::Open {
            return self.has_answer();
        }
        if self.source.await_next() {
            self.read();
        } else {
            self.look_at_gap(self.rules.request_after_ms > 0);
        }
        self.has_answer()
    }

    /// Waits until the next answer is there.
    fn wait_for_answer(&mut self)
        ensures brings { HandsOnMade S.brings self.old [] self.new }
        ensures failures { failures_at self.new.end ≡ failures_at self.old.end }
    {
        for _ in 0..u64::MAX {
            if self.poll() {
                break;
            }
        }
    }

    /// Returns what is next: the first datagram that waits, else a fault, once, or that there is no
    /// more.
    fn answer(&mut self) -> Result<Option<Datagram>, SourceFault>
        ensures brings { HandsOnMade S.brings self.old (brought_in result) self.new }
        ensures sound { IfOk result (λ _. failures_at self.new.end ≡ failures_at self.old.end) }
        ensures failed { IfErr result (λ fault. failures_at self.new.end
            ≡ failures_after (failures_at self.old.end) fault) }
    {
        if let Some(bytes) = self.waiting.pop_front() {
            return Ok(Some(Datagram::new(bytes).received_at(self.time)));
        }
        let fault = match self.end {
            SourceEnd::Failing(fault) => fault,
            SourceEnd::Open => SourceFault::TooManyTurns,
            SourceEnd::Ended | SourceEnd::Failed(_) => return Ok(None),
        };
        self.end = SourceEnd::Failed(fault);
        Err(fault)
    }
}

impl<S: LineSource<Anything>, C: Clock + Drop> LineSource<Anything> for ItchLine<S, C> {
    ghost use Rattle.itch_lines.specs.Lines.{HandsOnMade, failures_at};
    ghost use Rattle.itch_lines.specs.laws.Normalised.{normalised_more, normalised_nothing};

    ghost venue_of = { λ l. l.venue };

    ghost failures = { λ l. failures_at l.end };

    ghost brings = { λ l bytes m. HandsOnMade S.brings l bytes m };

    ghost brings_nothing = { normalised_nothing S.brings S.brings_nothing };

    ghost brings_more = { normalised_more S.brings S.brings_more };

    fn venue(&self) -> VenueId {
        self.venue
    }

    fn await_next(&mut self) -> bool {
        self.poll()
    }

    fn next(&mut self) -> Result<Option<Datagram>, SourceFault> {
        self.wait_for_answer();
        self.answer()
    }

    /// Passes the turn on to the line that brings what was made next.
    fn recycle(&mut self, datagram: Datagram, looked: &Looked) {
        let _unused = looked;
        drop(datagram);
        self.share.pass_turn(self.ticket);
        self.ticket = self.ticket.saturating_add(1);
    }

    fn now_ms(&mut self) -> u64 {
        self.source.now_ms()
    }

    /// Drops the request: the feed sees no gap of the venue, and the line asks by itself.
    fn request(&mut self, request: &Request) -> Result<(), SourceFault>
        ensures taken { result ≡ Ok tt }
        ensures same { self.new ≡ self.old }
        ensures brings { HandsOnMade S.brings self.old [] self.new }
    {
        let _unused = request;
        Ok(())
    }
}
