//! One venue of a replay: its lines, and what they bring.
ghost use Rattle.std.specs.Prelude.{◌≡◌, ℕ, Bool, false, List, [], ◌∷◌, ◌+◌, ◌++◌, ◌<◌, ◌≤◌, length, drop, map, None, Ok, IfOk, OnErr, OnOk, vec_capacity};
ghost use Rattle.feed_types.specs.Sessions.{numbered_from};
ghost use Rattle.quote_payload.specs.Payload.{item_of};
ghost use Rattle.line_arbiter.specs.InOrder.{SendsPacket};
ghost use Rattle.line_arbiter.specs.Packets.{Input};
ghost use Rattle.line_arbiter.specs.Streams.{gap_of, place_of, stream_of};
ghost use Rattle.line_arbiter.specs.Counts.{shown};
ghost use Rattle.line_arbiter.specs.Fits.{Fits};
ghost use Rattle.line_arbiter.specs.Histories.{History, new_history, streams_of};
ghost use Rattle.line_arbiter.specs.LastSent.{last_gap};
ghost use Rattle.capture_records.specs.Capture.{datagram_record, renewal_record, skip_record};
ghost use Rattle.feed_text.specs.ReplayEvents.{item_taken, packet_answered};
ghost use Rattle.feed_text.specs.Emitted.{gap_event};
ghost use Rattle.feed_text.specs.Lacks.{lack_of};
ghost use Rattle.event_sinks.specs.SinkEvents.{timed_event};
ghost use Rattle.feed_text.specs.Tellings.{last_told};
ghost use Rattle.feed_text.specs.ReplayStates.{EmitsInto, state_of_replay};
ghost use Rattle.feed_text.specs.Following.{Follows, SendsReady, TakesReady, PublishesPacket, EmitsOne, GivesUp, Renews};

use crate::replay_sink::{PublishStop, ReplaySink};
use event_sinks::{EventSink, ReplayedEvent, SinkStop, VenueGap};
use feed_types::{Anything, Entry, LineId, Numbered, SessionName, VenueId};
use line_arbiter::{Arbiter, LineFault, Outcome, RenewFault, SkipFault};
use mold_packet::{Messages, Packet, Request, read_packet};
use quote_payload::{peek_symbol_bytes, read_item};
use std::alloc::{AllocError, Global};
use std::marker::Model;

/// The most messages of a packet for which the book is prefetched: their rows are in the cache
/// then.
const MOST_AHEAD: usize = 64;

/// A venue's arbiter, how many items were sent before the session's present part, and the number
/// after which that part opens: 0, or after a skip that of the last message but one that was given
/// up. The count stays at 2^64 - 1.
#[derive(Drop)]
pub struct VenueReplay {
    pub(crate) arbiter: Arbiter<Anything>,
    sent_before: u64,
    opens_after: u64,
}

impl Model for VenueReplay {
    ghost use Rattle.feed_text.specs.Following.{ReplayVenue};

    ghost Value = { ReplayVenue };

    ghost view = { λ v. record {
      arbiter = v.arbiter;
      sent_before = v.sent_before;
      opens_after = v.opens_after;
    } };
}

/// Publishes each item that is ready.
#[inline(never)]
fn publish_each<K: EventSink>(
    arbiter: &mut Arbiter<Anything>,
    venue: VenueId,
    output: &mut ReplaySink<K>,
) -> Result<(), PublishStop>
    requires { venue < output.old.journal.venues }
    ensures { TakesReady (record { takes = K.takes; fails = K.fails }) venue
        arbiter.old arbiter.new (state_of_replay output.old) (state_of_replay output.new) result }
{
    while let Some(numbered) = arbiter.take_ready() {
        output.take_item(&Entry::Consumed { venue, numbered })?;
    }
    Ok(())
}

/// Publishes each item that is ready. Most often there is none, which one look shows.
#[inline(always)]
fn publish_ready<K: EventSink>(
    arbiter: &mut Arbiter<Anything>,
    venue: VenueId,
    output: &mut ReplaySink<K>,
) -> Result<(), PublishStop>
    requires { venue < output.old.journal.venues }
    ensures { TakesReady (record { takes = K.takes; fails = K.fails }) venue
        arbiter.old arbiter.new (state_of_replay output.old) (state_of_replay output.new) result }
{
    match arbiter.next_ready() {
        Some(_) => publish_each(arbiter, venue, output),
        None => Ok(()),
    }
}

/// Publishes the items that a packet's messages are, one by one.
#[inline(always)]
fn publish_messages<K: EventSink>(
    venue: VenueId,
    packet: &Packet<'_>,
    output: &mut ReplaySink<K>,
) -> Result<(), PublishStop>
    requires { venue < output.old.journal.venues }
    ensures { EmitsInto (record { takes = K.takes; fails = K.fails })
        (state_of_replay output.old)
        (map (item_taken venue)
        (numbered_from packet.now.number (map item_of packet.now.messages)))
        (state_of_replay output.new) result }
{
    let first = packet.number();
    let mut messages = packet.messages();
    let mut place: u64 = 0;
    while let Some(message) = messages.next() {
        let numbered = Numbered {
            number: first + place,
            item: read_item(message),
        };
        output.take_item(&Entry::Consumed { venue, numbered })?;
        place += 1;
    }
    Ok(())
}

/// Has the book prefetch what the quotations among the first of these messages will read of it,
/// where that pays.
#[inline(never)]
fn prefetch<K: EventSink>(venue: VenueId, mut messages: Messages<'_>, output: &mut ReplaySink<K>)
    ensures { output.new ≡ output.old }
{
    for _ in 0..MOST_AHEAD {
        let Some(message) = messages.next() else {
            break;
        };
        if let Some(field) = peek_symbol_bytes(message) {
            if !output.journal.prefetch(venue, field) {
                break;
            }
        }
    }
}

/// Has the book prefetch for a packet of several messages.
#[inline(always)]
fn look_ahead<K: EventSink>(venue: VenueId, packet: &Packet<'_>, output: &mut ReplaySink<K>)
    ensures { output.new ≡ output.old }
{
    if packet.count() > 1 {
        prefetch(venue, packet.messages(), output);
    }
}

/// Tells the sink the answer of a packet, whose datagram has this many bytes.
#[inline(always)]
fn tell_answer<K: EventSink>(
    venue: VenueId,
    line: LineId,
    packet: &Packet<'_>,
    bytes: u64,
    answer: &Result<Outcome, LineFault>,
    output: &mut ReplaySink<K>,
) -> Result<(), PublishStop>
    ensures { EmitsInto (record { takes = K.takes; fails = K.fails })
        (state_of_replay output.old)
        (packet_answered venue line packet.now.number (length packet.now.messages) bytes answer.now
        ∷ [])
        (state_of_replay output.new) result }
{
    output.tell(&ReplayedEvent::Packet {
        venue,
        line,
        number: packet.number(),
        count: packet.count(),
        bytes,
        answer,
    })
}

/// Publishes the answer of a packet, whose datagram has this many bytes, and what is ready then.
#[inline(always)]
fn publish_answer<K: EventSink>(
    arbiter: &mut Arbiter<Anything>,
    venue: VenueId,
    line: LineId,
    packet: &Packet<'_>,
    bytes: u64,
    answer: &Result<Outcome, LineFault>,
    output: &mut ReplaySink<K>,
) -> Result<(), PublishStop>
    requires { venue < output.old.journal.venues }
    ensures emits { (packets : List Input) → Fits arbiter.old packets
        → EmitsInto (record { takes = K.takes; fails = K.fails })
        (state_of_replay output.old)
        (packet_answered venue line packet.now.number (length packet.now.messages) bytes answer.now
        ∷ map (item_taken venue) (drop (place_of packets arbiter.old.sent) (stream_of packets)))
        (state_of_replay output.new) result }
    ensures sent { OnOk result (SendsReady arbiter.old arbiter.new) }
{
    tell_answer(venue, line, packet, bytes, answer, output)?;
    publish_ready(arbiter, venue, output)
}

impl VenueReplay {
    /// A venue to which nothing came. It takes the memory of its window here, and none later.
    pub fn new(
        alloc: Global,
        venue: VenueId,
        session: SessionName,
        window: u32,
    ) -> Result<VenueReplay, AllocError>
        requires least { 1 ≤ window }
        requires most { window ≤ 65535 }
        ensures { IfOk result (λ v. Follows window venue v (new_history session)) }
    {
        match Arbiter::new(alloc, venue, session, window) {
            Ok(arbiter) => Ok(VenueReplay {
                arbiter,
                sent_before: 0,
                opens_after: 0,
            }),
            Err(_) => Err(AllocError),
        }
    }

    /// The number of items of all sessions that were sent.
    fn sent(&self) -> u64
        ensures { (width place : ℕ) (h : History) → Follows width place self.now h
            → result ≡ shown (length (streams_of h)) }
    {
        let in_part = self.arbiter.status().sent.saturating_sub(self.opens_after);
        self.sent_before.saturating_add(in_part)
    }

    /// Takes any packet, whose datagram has this many bytes, and publishes its outcome and each
    /// item that is ready then.
    #[inline(never)]
    fn take_any<K: EventSink>(
        &mut self,
        venue: VenueId,
        line: LineId,
        packet: &Packet<'_>,
        bytes: u64,
        output: &mut ReplaySink<K>,
    ) -> Result<(), PublishStop>
        requires { venue < output.old.journal.venues }
        ensures { PublishesPacket (record { takes = K.takes; fails = K.fails }) venue line
            packet.now bytes self.old (state_of_replay output.old) self.new
            (state_of_replay output.new) result }
    {
        let answer = self.arbiter.take(line, packet);
        publish_answer(
            &mut self.arbiter,
            venue,
            line,
            packet,
            bytes,
            &answer,
            output,
        )
    }

    /// Takes a packet, whose datagram has this many bytes, and publishes its outcome and each item
    /// that is ready then. Most go past the window.
    #[inline(always)]
    fn take_packet<K: EventSink>(
        &mut self,
        venue: VenueId,
        line: LineId,
        packet: &Packet<'_>,
        bytes: u64,
        output: &mut ReplaySink<K>,
    ) -> Result<(), PublishStop>
        requires { venue < output.old.journal.venues }
        ensures { PublishesPacket (record { takes = K.takes; fails = K.fails }) venue line
            packet.now bytes self.old (state_of_replay output.old) self.new
            (state_of_replay output.new) result }
    {
        if !self.arbiter.is_next(packet) {
            return match self.arbiter.repeat(packet) {
                Some(outcome) => publish_answer(
                    &mut self.arbiter,
                    venue,
                    line,
                    packet,
                    bytes,
                    &Ok(outcome),
                    output,
                ),
                None => self.take_any(venue, line, packet, bytes, output),
            };
        }
        let outcome = self.arbiter.take_next(line, packet);
        look_ahead(venue, packet, output);
        tell_answer(venue, line, packet, bytes, &Ok(outcome), output)?;
        publish_messages(venue, packet, output)?;
        publish_ready(&mut self.arbiter, venue, output)
    }

    /// Publishes the gap, if one is left. It is a call of its own, so that the loop over records
    /// has the registers.
    #[inline(never)]
    fn publish_gap<K: EventSink>(
        &self,
        venue: VenueId,
        output: &mut ReplaySink<K>,
    ) -> Result<(), PublishStop>
        ensures { (P : List Input) → Fits self.now.arbiter P
            → EmitsInto (record { takes = K.takes; fails = K.fails })
            (state_of_replay output.old)
            (gap_event venue
            (gap_of self.now.arbiter.session self.now.arbiter.window self.now.arbiter.sent P))
            (state_of_replay output.new) result }
    {
        match self.arbiter.gap() {
            Some(request) => output.tell(&ReplayedEvent::Gap {
                venue,
                request: &request,
            }),
            None => Ok(()),
        }
    }

    /// Takes a datagram of a line, and publishes its outcome, each item that is ready then, and
    /// where gaps are asked for the one that is left.
    pub fn take<K: EventSink>(
        &mut self,
        venue: VenueId,
        line: LineId,
        bytes: &[u8],
        gaps: bool,
        output: &mut ReplaySink<K>,
    ) -> Result<(), PublishStop>
        requires { venue < output.old.journal.venues }
        ensures { (width : ℕ) (h : History) → Follows width venue self.old h
            → EmitsOne (record { takes = K.takes; fails = K.fails })
            width gaps (datagram_record venue line bytes.now) h
            (state_of_replay output.old) (state_of_replay output.new) self.new result }
    {
        let emitted = match read_packet(bytes) {
            Ok(packet) => self.take_packet(venue, line, &packet, bytes.len() as u64, output),
            Err(fault) => output.tell(&ReplayedEvent::Refusal { venue, line, fault }),
        };
        if !gaps {
            return emitted;
        }
        emitted?;
        self.publish_gap(venue, output)
    }

    /// Begins the next session, where it may begin. Returns its ordinal.
    pub(crate) fn next_session(&mut self, session: SessionName) -> Result<u64, RenewFault>
        ensures { (width place : ℕ) (h : History) → Follows width place self.old h
            → Renews width place session h self.new result }
    {
        let sent = self.sent();
        let ordinal = self.arbiter.renew(session)?;
        self.sent_before = sent;
        self.opens_after = 0;
        Ok(ordinal)
    }

    /// Begins the next session under this name, where it may begin, and publishes the answer.
    #[inline(never)]
    pub fn renew<K: EventSink>(
        &mut self,
        venue: VenueId,
        session: SessionName,
        output: &mut ReplaySink<K>,
    ) -> Result<(), PublishStop>
        ensures { (width : ℕ) (gaps : Bool) (h : History) → Follows width venue self.old h
            → EmitsOne (record { takes = K.takes; fails = K.fails })
            width gaps (renewal_record venue session) h
            (state_of_replay output.old) (state_of_replay output.new) self.new result }
    {
        let answer = self.next_session(session);
        output.tell(&ReplayedEvent::Renewal {
            venue,
            answer: &answer,
        })
    }

    /// Gives up what is missing below the number, where it may be. Nothing that it makes ready is
    /// sent yet.
    fn give_up(&mut self, number: u64) -> Result<(), SkipFault>
        ensures { (width place : ℕ) (h : History) → Follows width place self.old h
            → GivesUp width place number h self.new result }
    {
        let sent = self.sent();
        self.arbiter.skip_to(number)?;
        self.sent_before = sent;
        self.opens_after = self.arbiter.status().sent;
        Ok(())
    }

    /// Gives up what is missing below the number, where it may be, and publishes the answer and
    /// each item that is ready then.
    #[inline(never)]
    pub fn skip_to<K: EventSink>(
        &mut self,
        venue: VenueId,
        number: u64,
        output: &mut ReplaySink<K>,
    ) -> Result<(), PublishStop>
        requires { venue < output.old.journal.venues }
        ensures { (width : ℕ) (gaps : Bool) (h : History) → Follows width venue self.old h
            → EmitsOne (record { takes = K.takes; fails = K.fails })
            width gaps (skip_record venue number) h
            (state_of_replay output.old) (state_of_replay output.new) self.new result }
    {
        let answer = self.give_up(number);
        output.tell(&ReplayedEvent::Skip {
            venue,
            number,
            answer: &answer,
        })?;
        publish_each(&mut self.arbiter, venue, output)
    }

    /// Returns the run of messages that the venue lacks, if it lacks any.
    pub fn gap(&self) -> Option<Request>
        ensures { (width place : ℕ) (h : History) → Follows width place self.now h
            → result ≡ last_gap width h }
    {
        self.arbiter.gap()
    }

    /// Appends what the venue lacks, if it lacks anything. There is memory for it.
    pub fn put_lack(&self, lacks: &mut Vec<VenueGap>)
        requires { length lacks.old.items < vec_capacity lacks.old }
        ensures lack { (width place : ℕ) (h : History) → Follows width place self.now h
            → lacks.new.items ≡ lacks.old.items ++ lack_of width place h }
        ensures most { length lacks.new.items ≤ length lacks.old.items + 1 }
        ensures capacity { vec_capacity lacks.new ≡ vec_capacity lacks.old }
    {
        if let Some(gap) = self.arbiter.gap() {
            lacks.push_reserved(VenueGap::of(self.arbiter.venue(), &gap));
        }
    }

    /// Gives the sink the venue's last event.
    pub fn tell_last<K: EventSink>(&self, sink: &mut K) -> Result<(), SinkStop>
        ensures took { OnOk result
            ((width place : ℕ) (h : History) → Follows width place self.now h
            → K.takes sink.old (timed_event None (last_told place h) ∷ []) sink.new) }
        ensures failed { OnErr result
            ((width place : ℕ) (h : History) → Follows width place self.now h
            → K.fails sink.old (timed_event None (last_told place h) ∷ []) sink.new) }
    {
        sink.take(
            None,
            &ReplayedEvent::Last {
                venue: self.arbiter.venue(),
                sent: self.sent(),
                a: self.arbiter.wins(LineId::A),
                b: self.arbiter.wins(LineId::B),
                recovery: self.arbiter.wins(LineId::Recovery),
            },
        )
    }
}
