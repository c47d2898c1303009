//! A line that is received by UDP.
ghost use Rattle.std.specs.Prelude.{◌≡◌, ◌+◌, ◌*◌, ◌/◌, ◌^◌, ◌-◌, ℕ, List, [], Bool, min, IfOk, IfErr, OnErr, IsTrue, Ok, Some, None, true, false, is_some, option_map};
ghost use Rattle.std.specs.Duration.{as_nanos};
ghost use Rattle.line_recordings.specs.Placed.{HandsOver};
ghost use Rattle.venue_lines.specs.Datagrams.{bytes_of};
ghost use Rattle.venue_lines.specs.Sources.{brought_in, failures_after};
ghost use Rattle.run_settings.specs.Senders.{senders_of};
ghost use Rattle.udp_lines.specs.Brought.{nothing_kept, withheld_of};
ghost use Rattle.udp_lines.specs.EndsOfSessions.{SpellsEndOf};
ghost use Rattle.udp_lines.specs.UdpLines.{EndsLine, HasAwaited, HasBrought, HasEndedInTime, HasReadOn, IsEndedBy, IsOver, failures_of, is_none_left, is_read_out, line_of, looks_for_reply, may_read_on, read_on_by, waiting_in};

use crate::datagram_in::DatagramIn;
use crate::intake::Intake;
use crate::line_ends::{ended_session, is_last};
use crate::line_progress::LineProgress;
use crate::line_socket::{LineSocket, MAX_DATAGRAM};
use crate::line_use::LineUse;
use crate::number_check::{HeldFor, NO_ROW, NumberCheck};
use crate::requests::{RequestPace, Requests};
use crate::venue_marks::VenueMarks;
use feed_types::{Anything, SessionName, VenueId};
use line_recordings::{RecordSender, hand_over};
use mold_packet::{Request, write_request};
use run_settings::{EndRule, Senders};
use std::alloc::{AllocError, Global};
use std::marker::Model;
use std::mem;
use std::sync::Arc;
use std::sync::atomic::{AtomicBool, Ordering};
use std::time::{Clock, Duration};
use venue_lines::{Datagram, LineSource, Looked, SourceFault};

/// How many bytes a request has.
const REQUEST_LEN: usize = 20;

/// How long a line waits for a datagram, in milliseconds, until a run may look whether it is to
/// stop.
const WAIT_MS: u64 = 100;

/// What a line is made for.
#[derive(Drop)]
pub struct UdpLineSettings {
    /// The venue whose datagrams it brings.
    pub venue: VenueId,
    /// Which of the venue's lines it is.
    pub line: LineUse,
    /// The venue's session; where others follow it, the last one.
    pub session: SessionName,
    /// Which ends of session end it. A line of replies goes on after each.
    pub end: EndRule,
    /// The most datagrams that it reads, if there is any limit.
    pub datagrams: Option<u32>,
    /// After how many seconds it reads none any more, if after any number.
    pub seconds: Option<u32>,
    /// How its requests leave.
    pub requests: Requests,
    /// The senders whose datagrams it brings.
    pub senders: Senders,
    /// Whether its datagrams have the time at which they were read.
    pub timed: bool,
    /// The most that a number may be ahead of the highest that the venue's lines have brought. With
    /// None no number and no end is withheld for what it is.
    pub most_ahead: Option<u64>,
    /// What it shares with the venue's other lines.
    pub marks: VenueMarks,
    /// Whether it marks when it heard a datagram.
    pub marks_heard: bool,
    /// Where it hands over what its venue took, if that is recorded.
    pub records: Option<RecordSender>,
}

/// A line of a venue that is received by UDP. It ends after as many datagrams or seconds as it was
/// made for, if there is such a limit, and after an end of session that ends it. Where replies are
/// awaited it reads on after that, until none is.
///
/// Once its socket has failed the line has ended: it asks the socket for nothing more. A request
/// that can't be sent ends nothing. What has become of the line is marked in its progress.
#[derive(Drop)]
pub struct UdpLine<S, C> {
    line_venue: VenueId,
    line_use: LineUse,
    intake: Intake<S>,
    requests: Requests,
    pace: RequestPace,
    timed: bool,
    marks_heard: bool,
    clock: C,
    moment_ms: u64,
    /// The moment of the clock after which it reads no datagram, if there is any.
    deadline_ms: Option<u64>,
    to_read: Option<u32>,
    broken: bool,
    at_end: bool,
    /// The session whose end has ended the line, if one has.
    ender: Option<SessionName>,
    /// What the socket has brought for the next call: a datagram, or why there is none.
    received: Option<Result<Datagram, SourceFault>>,
    /// Where it hands over what its venue took, if that is recorded.
    records: Option<RecordSender>,
    /// What says whether a reply is awaited, if anything does.
    awaited: Option<Arc<AtomicBool, Global>>,
}

impl<S, C> Model for UdpLine<S, C> {
    ghost use Rattle.run_settings.specs.Senders.{senders_of};
    ghost use Rattle.std.specs.Prelude.{is_some};
    ghost use Rattle.udp_lines.specs.UdpLines.{UdpLineState, kept_in, line_of, waiting_in};

    ghost Value = { UdpLineState S };

    ghost view = { λ l. record {
      venue = l.line_venue;
      line = line_of l.line_use;
      session = l.intake.check.session;
      rule = l.intake.check.end_rule;
      senders = senders_of l.intake.line_socket.senders;
      left = l.to_read;
      deadline = l.deadline_ms;
      failed = l.broken;
      ended = l.at_end;
      ender = l.ender;
      awaited = l.awaited;
      most_ahead = l.intake.check.most_ahead;
      socket = l.intake.line_socket.socket;
      kept = kept_in l.intake;
      waiting = waiting_in l.received;
      answered = is_some l.received;
      records = l.records;
    } };
}

/// The moment of the clock `seconds` seconds from now, in milliseconds; None where there is no such
/// number, or where the clock can't be read.
fn deadline_of<C: Clock>(clock: &C, seconds: Option<u32>) -> Option<u64>
    ensures { seconds ≡ None → result ≡ None }
{
    match (seconds, clock.monotonic()) {
        (Some(seconds), Ok(now)) => Some(millis(now).saturating_add(u64::from(seconds) * 1_000)),
        _ => None,
    }
}

/// The whole milliseconds of a time, 2^64 - 1 at most.
pub fn millis(time: Duration) -> u64
    ensures { result ≡ min (as_nanos time / 1_000_000) (2 ^ 64 - 1) }
{
    let rest = u64::from(time.subsec_millis());
    time.as_secs().saturating_mul(1_000).saturating_add(rest)
}

/// Whether no datagram may be read any more, of as many as are left.
fn is_none_left(left: Option<u32>) -> bool
    ensures { result ≡ is_none_left left }
{
    match left {
        Some(count) => count == 0,
        None => false,
    }
}

/// How many datagrams are left after one more, of as many.
fn one_fewer(left: Option<u32>) -> Option<u32>
    requires { is_none_left left ≡ false }
    ensures { option_map (λ fewer. fewer + 1) result ≡ left }
{
    match left {
        Some(count) => Some(count - 1),
        None => None,
    }
}

impl<S: DatagramIn + Drop, C: Clock + Drop> UdpLine<S, C> {
    /// The line of these settings that this socket receives.
    ///
    /// The socket waits 100 ms for a datagram from now on. Where the system refuses that, it waits
    /// for ever, and so does a run that is to stop.
    pub fn new(
        alloc: Global,
        settings: UdpLineSettings,
        socket: S,
        clock: C,
    ) -> Result<UdpLine<S, C>, AllocError>
        ensures venue { IfOk result (λ line. line.venue ≡ settings.venue) }
        ensures line { IfOk result (λ line. line.line ≡ line_of settings.line) }
        ensures session { IfOk result (λ line. line.session ≡ settings.session) }
        ensures rule { IfOk result (λ line. line.rule ≡ settings.end) }
        ensures senders { IfOk result (λ line. line.senders ≡ senders_of settings.senders) }
        ensures left { IfOk result (λ line. line.left ≡ settings.datagrams) }
        ensures deadline { settings.seconds ≡ None
            → IfOk result (λ line. line.deadline ≡ None) }
        ensures most_ahead { IfOk result (λ line. line.most_ahead ≡ settings.most_ahead) }
        ensures whole { IfOk result (λ line. line.failed ≡ false) }
        ensures unended { IfOk result (λ line. line.ended ≡ false) }
        ensures ender { IfOk result (λ line. line.ender ≡ None) }
        ensures awaited { IfOk result (λ line. line.awaited ≡ None) }
        ensures kept { IfOk result (λ line. line.kept ≡ nothing_kept) }
        ensures waiting { IfOk result (λ line. line.waiting ≡ []) }
        ensures answered { IfOk result (λ line. line.answered ≡ false) }
        ensures records { IfOk result (λ line. line.records ≡ settings.records) }
    {
        socket.wait_each(Duration::from_millis(WAIT_MS));
        let deadline_ms = deadline_of(&clock, settings.seconds);
        let line_socket = LineSocket {
            socket,
            senders: settings.senders,
            buffer: vec![in alloc; 0; MAX_DATAGRAM]?,
        };
        let check = NumberCheck {
            session: settings.session,
            earlier: Vec::new(alloc),
            end_rule: settings.end,
            most_ahead: settings.most_ahead,
            line: settings.line.line(),
            marks: settings.marks,
            progress: LineProgress::new(alloc)?,
            highest: 0,
            far: NO_ROW,
            ends: NO_ROW,
            held_for: HeldFor::Nothing,
        };
        Ok(UdpLine {
            line_venue: settings.venue,
            line_use: settings.line,
            intake: Intake::new(alloc, line_socket, check),
            requests: settings.requests,
            pace: RequestPace::new(),
            timed: settings.timed,
            marks_heard: settings.marks_heard,
            clock,
            moment_ms: 0,
            deadline_ms,
            to_read: settings.datagrams,
            broken: false,
            at_end: false,
            ender: None,
            received: None,
            records: settings.records,
            awaited: None,
        })
    }

    /// Whether the time is over in which the line reads datagrams.
    fn is_late(&self) -> bool
        ensures { result ≡ true → IsTrue (is_some self.now.deadline) }
    {
        let Some(deadline_ms) = self.deadline_ms else {
            return false;
        };
        match self.clock.monotonic() {
            Ok(now) => millis(now) >= deadline_ms,
            Err(_) => false,
        }
    }

    /// Returns whether a reply is awaited, for which the line reads on. Without a mark none is.
    fn is_reply_awaited(&self) -> bool
        ensures { result ≡ true → IsTrue (is_some self.now.awaited) }
    {
        match &self.awaited {
            Some(awaited) => awaited.load(Ordering::SeqCst),
            None => false,
        }
    }

    /// Has a line that an end of session has ended read on where a reply is awaited, and end where
    /// none is.
    fn read_on(&mut self)
        ensures rest { self.new
            ≡ record (self.old) { left = self.new.left; ended = self.new.ended } }
        ensures looked { HasReadOn self.old self.new }
    {
        if self.looks_for_reply() {
            let awaits = self.is_reply_awaited();
            self.read_on_by(awaits);
        }
    }

    /// Ends the line where its time is over, or the lines have ended with which it ends, unless it
    /// has ended before, or a datagram waits that was received before. Where a reply is awaited it
    /// doesn't end with other lines.
    fn end_in_time(&mut self)
        ensures rest { self.new
            ≡ record (self.old) { left = self.new.left; ended = self.new.ended } }
        ensures in_time { HasEndedInTime self.old self.new }
    {
        if self.broken || is_none_left(self.to_read) || self.received.is_some() {
            return;
        }
        if self.is_late() || (self.line_use.is_over() && !self.is_reply_awaited()) {
            self.to_read = Some(0);
            self.at_end = true;
        }
    }

    /// This moment in nanoseconds from 1970 on, where datagrams have times and the system has it.
    fn time(&self) -> Option<u64> {
        if !self.timed {
            return None;
        }
        match self.clock.since_1970() {
            Ok(time) => u64::try_from(time.as_nanos()).ok(),
            Err(_) => None,
        }
    }

    /// Marks when a datagram of the line's senders came, if one has come and that is marked.
    fn mark_heard(&mut self)
        ensures { self.new ≡ self.old }
    {
        if !self.marks_heard || !mem::replace(&mut self.intake.has_heard, false) {
            return;
        }
        if let Ok(time) = self.clock.monotonic() {
            self.intake.check.progress.hear(millis(time));
        }
    }

    /// Waits a while for a datagram, where none is there for the next call.
    #[inline(never)]
    #[tactic(auto, using(crate::proofs::Meeting::polled))]
    fn ask(&mut self)
        requires { self.old.waiting ≡ [] }
        ensures brought { HasBrought S.brings S.waits self.old [] self.new }
        ensures rest { self.new ≡ record (self.old) {
          socket = self.new.socket;
          kept = self.new.kept;
          waiting = self.new.waiting;
          answered = self.new.answered;
        } }
    {
        self.received = match self.intake.next() {
            Some(Ok(datagram)) => Some(Ok(datagram.received_at(self.time()))),
            other => other,
        };
        self.mark_heard();
    }

    /// Waits a while for a datagram, and returns whether the next one needn't be waited for: it is
    /// there, or the socket has failed, or the line has ended.
    #[inline(always)]
    fn poll(&mut self) -> bool
        ensures brought { HasBrought S.brings S.waits self.old [] self.new }
        ensures rest { self.new ≡ record (self.old) {
          socket = self.new.socket;
          kept = self.new.kept;
          waiting = self.new.waiting;
          answered = self.new.answered;
        } }
    {
        if self.broken || is_none_left(self.to_read) || self.received.is_some() {
            return true;
        }
        self.ask();
        self.received.is_some()
    }
}

impl<S: Drop, C: Drop> UdpLine<S, C> {
    /// Names the venue's sessions before the line's, whose packets are handed on as they come.
    pub fn follow_after(&mut self, earlier: Vec<SessionName>)
        ensures { self.new ≡ self.old }
    {
        self.intake.check.earlier = earlier;
    }

    /// Has the line read on after an end of session as long as this mark shows that a reply is
    /// awaited.
    pub fn read_on_for(&mut self, awaited: Arc<AtomicBool, Global>)
        ensures { self.new ≡ record (self.old) { awaited = Some awaited } }
    {
        self.awaited = Some(awaited);
    }

    /// The progress of the line, for another thread. AllocError where it can't be shared any
    /// further.
    pub fn share_progress(&self) -> Result<LineProgress, AllocError> {
        self.intake.check.progress.share()
    }

    /// Returns whether an end of session has ended the line after which it may read on.
    fn may_read_on(&self) -> bool
        ensures { result ≡ may_read_on self.now }
    {
        self.awaited.is_some() && self.ender.is_some()
    }

    /// Returns whether the line looks if a reply is awaited: it may read on, and neither has failed
    /// nor has the next call's answer.
    fn looks_for_reply(&self) -> bool
        ensures { result ≡ looks_for_reply self.now }
    {
        self.may_read_on() && !self.broken && self.received.is_none()
    }

    /// Has the line read on, without a limit, where a reply is awaited, and end where none is.
    fn read_on_by(&mut self, awaits: bool)
        ensures { self.new ≡ read_on_by awaits self.old }
    {
        self.to_read = if awaits { None } else { Some(0) };
        self.at_end = !awaits;
        if !awaits {
            self.mark_ender();
        }
    }

    /// Marks the session whose end has ended the line, if one has.
    fn mark_ender(&self) {
        if let Some(session) = self.ender {
            self.intake
                .check
                .progress
                .end(&session, session == self.intake.check.session);
        }
    }

    /// Marks how the line has ended, if it has by a datagram. An end after which it may read on is
    /// marked once it doesn't.
    fn mark_end(&self) {
        if self.may_read_on() {
            return;
        }
        self.mark_ender();
        if self.ender.is_none() && is_none_left(self.to_read) {
            self.intake.check.progress.read_out();
        }
    }

    /// Marks that the line has failed, and returns the fault. Want of memory is no fault of its
    /// socket.
    fn fail(&mut self, fault: SourceFault) -> SourceFault
        requires { self.old.failed ≡ false }
        ensures fault { result ≡ fault }
        ensures rest { self.new ≡ record (self.old) { failed = self.new.failed } }
        ensures failed { failures_of self.new.failed
            ≡ failures_after (failures_of self.old.failed) fault }
    {
        self.intake.check.progress.fail();
        match fault {
            SourceFault::NoMemory => {}
            _ => self.broken = true,
        }
        fault
    }

    /// Counts a datagram of these bytes that was read. One that ends the line is its last.
    fn count_read(&mut self, bytes: &[u8])
        requires { is_none_left self.old.left ≡ false }
        ensures rest { self.new ≡ record (self.old) {
          left = self.new.left;
          ended = self.new.ended;
          ender = self.new.ender;
        } }
        ensures last { EndsLine self.old.rule self.old.session bytes.now
            → IsEndedBy bytes.now self.new }
        ensures other { (EndsLine self.old.rule self.old.session bytes.now → ⊥)
            → (option_map (λ left. left + 1) self.new.left ≡ self.old.left)
            × (self.new.ended ≡ false) × (self.new.ender ≡ self.old.ender) }
    {
        let ended = ended_session(bytes);
        self.at_end = is_last(self.intake.check.end_rule, self.intake.check.session, ended);
        if ended.is_some() && !self.at_end {
            self.intake.check.progress.count_passed();
        }
        if self.at_end {
            self.ender = ended;
            self.to_read = Some(0);
        } else {
            self.to_read = one_fewer(self.to_read);
        }
        self.mark_end();
    }

    /// The session whose end has ended the line, if one has.
    pub fn ender(&self) -> Option<SessionName>
        ensures { result ≡ self.now.ender }
    {
        self.ender
    }

    /// How many datagrams of its senders the line has read and not handed on. One that waits until
    /// it is confirmed is among them.
    pub fn withheld(&self) -> u64
        ensures { result ≡ withheld_of self.now.kept }
    {
        self.intake.withheld_so_far()
    }

    /// Whether the line has ended since it has read as many datagrams as it may.
    pub fn is_read_out(&self) -> bool
        ensures { result ≡ is_read_out self.now }
    {
        !self.broken && !self.at_end && is_none_left(self.to_read)
    }
}

impl<S: DatagramIn + Drop, C: Clock + Drop> UdpLine<S, C> {
    /// Waits until the next datagram is there, or why there is none, or until the line has ended.
    fn wait_for_next(&mut self)
        ensures brought { HasBrought S.brings S.waits self.old [] self.new }
        ensures rest { self.new ≡ record (self.old) {
          socket = self.new.socket;
          kept = self.new.kept;
          waiting = self.new.waiting;
          answered = self.new.answered;
        } }
    {
        for _ in 0..u64::MAX {
            if self.poll() {
                break;
            }
        }
    }

    /// Takes what was received for the next call.
    fn take_received(&mut self) -> Option<Result<Datagram, SourceFault>>
        ensures waiting { waiting_in result ≡ self.old.waiting }
        ensures rest { self.new ≡ record (self.old) { waiting = []; answered = false } }
    {
        self.received.take()
    }

    /// Receives the next datagram; None once the line has ended, and only then. An end of session
    /// that by the line's rule ends it is its last, and so is the last datagram that it may read.
    ///
    /// Device where the socket failed, TooManyTurns where it was interrupted a million times: the
    /// line has ended then. NoMemory where memory for the datagram was refused, which is lost then.
    fn receive_next(&mut self) -> Result<Option<Datagram>, SourceFault>
        ensures over { result ≡ Ok None → IsOver self.old }
        ensures ended { IsOver self.old → (result ≡ Ok None) × (self.new ≡ self.old) }
        ensures last { (datagram : Datagram) → result ≡ Ok (Some datagram)
            → EndsLine self.old.rule self.old.session (bytes_of datagram)
            → IsEndedBy (bytes_of datagram) self.new }
        ensures other { (datagram : Datagram) → result ≡ Ok (Some datagram)
            → (EndsLine self.old.rule self.old.session (bytes_of datagram) → ⊥)
            → (option_map (λ left. left + 1) self.new.left ≡ self.old.left)
            × (self.new.ended ≡ false) × (self.new.ender ≡ self.old.ender) }
        ensures brought { HasBrought S.brings S.waits self.old (brought_in result) self.new }
        ensures ended_by { OnErr result (self.new.ended ≡ self.old.ended) }
        ensures ender { OnErr result (self.new.ender ≡ self.old.ender) }
        ensures sound { IfOk result
            (λ _. failures_of self.new.failed ≡ failures_of self.old.failed) }
        ensures failed { IfErr result (λ fault. failures_of self.new.failed
            ≡ failures_after (failures_of self.old.failed) fault) }
    {
        if self.broken || is_none_left(self.to_read) {
            if self.is_read_out() {
                self.intake.check.progress.read_out();
            }
            return Ok(None);
        }
        self.wait_for_next();
        match self.take_received() {
            Some(Ok(datagram)) => {
                self.count_read(datagram.bytes());
                Ok(Some(datagram))
            }
            Some(Err(fault)) => Err(self.fail(fault)),
            None => Err(self.fail(SourceFault::TooManyTurns)),
        }
    }
}

impl<S: DatagramIn + Drop, C: Clock + Drop> UdpLine<S, C> {
    /// The milliseconds of the line's clock, or those read last where it can't be read.
    fn read_clock(&mut self) -> u64
        ensures { self.new ≡ self.old }
    {
        if let Ok(time) = self.clock.monotonic() {
            self.moment_ms = millis(time);
        }
        self.moment_ms
    }

    /// Sends these bytes as a request, and counts it. Where requests are dropped it
    /// isn't counted.
    fn send_request(&mut self, bytes: &[u8])
        ensures { self.new ≡ self.old }
    {
        if self.requests.are_dropped() {
            return;
        }
        let now_ms = self.read_clock();
        if !self.pace.may_send(now_ms) {
            self.intake.check.progress.count_held_back();
        } else if self.requests.send(&self.intake.line_socket.socket, bytes) {
            self.intake.check.progress.count_sent();
        } else {
            self.intake.check.progress.count_unsent();
        }
    }
}

impl<S: DatagramIn + Drop, C: Clock + Drop> LineSource<Anything> for UdpLine<S, C> {
    ghost use Rattle.udp_lines.specs.UdpLines.{HasBrought, failures_of};
    ghost use Rattle.udp_lines.specs.laws.Bringing.{brings_more, brings_nothing};

    ghost venue_of = { λ l. l.venue };

    ghost failures = { λ l. failures_of l.failed };

    ghost brings = { λ l bytes m. HasBrought S.brings S.waits l bytes m };

    ghost brings_nothing = { brings_nothing S.brings S.waits S.waits_not };

    ghost brings_more = { brings_more S.brings S.waits S.waits_more };

    fn venue(&self) -> VenueId {
        self.line_venue
    }

    fn await_next(&mut self) -> bool
        ensures brings { HasBrought S.brings S.waits self.old [] self.new }
        ensures rest { self.new ≡ record (self.old) {
          left = self.new.left;
          ended = self.new.ended;
          socket = self.new.socket;
          kept = self.new.kept;
          waiting = self.new.waiting;
          answered = self.new.answered;
        } }
        ensures awaited { HasAwaited self.old self.new }
    {
        self.read_on();
        self.end_in_time();
        self.poll()
    }

    fn next(&mut self) -> Result<Option<Datagram>, SourceFault> {
        self.receive_next()
    }

    /// Hands the datagram over at its place, and the session that began at it, if one did, where
    /// what the venue took is recorded; and keeps its memory for the next one.
    #[tactic(auto, using(crate::proofs::Meeting::recorded_only))]
    fn recycle(&mut self, datagram: Datagram, looked: &Looked)
        ensures brings { HasBrought S.brings S.waits self.old [] self.new }
        ensures rest { self.new ≡ record (self.old) { records = self.new.records } }
        ensures recorded { HandsOver self.old.records looked.now.place looked.now.begun
            (bytes_of datagram) self.new.records }
    {
        hand_over(
            &mut self.records,
            looked.place,
            looked.begun,
            datagram.bytes(),
        );
        self.intake.used = datagram.into_bytes();
    }

    fn now_ms(&mut self) -> u64
        ensures { self.new ≡ self.old }
    {
        self.read_clock()
    }

    /// Sends a request, and counts it. That it can't be sent, or isn't since too many were, is no
    /// fault of the line.
    fn request(&mut self, request: &Request) -> Result<(), SourceFault>
        ensures taken { result ≡ Ok tt }
        ensures same { self.new ≡ self.old }
    {
        let mut bytes = [0; REQUEST_LEN];
        if self.broken || write_request(request, &mut bytes).is_err() {
            return Ok(());
        }
        self.send_request(&bytes);
        Ok(())
    }
}
