//! A venue whose lines are normalised.
ghost use Rattle.text_out.specs.Members.{writing_of};
ghost use Rattle.std.specs.Prelude.{◌≡◌, ℕ, ◌+◌, ◌<◌, ◌≤◌, List, [], true, IfErr, IfOk, IsErrOf, MatchBool, OnOk, Some, slice_index_or};
ghost use Rattle.capture_records.specs.Capture.{datagram_record, renewal_record, skip_record};
ghost use Rattle.line_arbiter.specs.Packets.{Input};
ghost use Rattle.line_arbiter.specs.Streams.{front_of};
ghost use Rattle.mold_packet.specs.Content.{Spells};
ghost use Rattle.venue_normaliser.specs.Outputs.{Opening};
ghost use Rattle.venue_normaliser.specs.States.{FitsOpened, FitsPackets, IsNewNormaliser, ShowsTooMuch};
ghost use Rattle.normalising.specs.Carried.{RunsFrom, last_put};
ghost use Rattle.normalising.specs.Keeping.{FollowsNew, FollowsVenue, IsSameVenue, ReportsVenue, SkippedWhere, TakesAtVenue, gap_noted};
ghost use Rattle.normalising.specs.Normalised.{NormalisedHistory, gap_skipped, quoted_keys, snapshot_at};
ghost use Rattle.normalising.specs.Reported.{standing_gap};
ghost use Rattle.normalising.specs.Writes.{PutsPackets, StopsPut, origin_of};
ghost use Rattle.normalising.specs.declared.normalised_feed.NormalisedFeed.{NormalisedFeed};

use crate::output_packets::OutputPackets;
use crate::packet_counts::PacketCounts;
use crate::packet_origin::PacketOrigin;
use crate::standing_since::StandingSince;
use crate::venue_report::VenueReport;
use crate::venue_stop::VenueStop;
use capture_writing::CaptureTime;
use event_sinks::VenueGap;
use feed_types::{LineId, MissingRange, Numbered, SessionName, VenueId};
use itch_book::BookFault;
use line_arbiter::{LineFault, Outcome};
use mold_packet::{Body, Kind, Packet};
use std::alloc::Global;
use text_out::TextOut;
use venue_normaliser::{ResumeFault, Snapshot, VenueNormaliser, what_a_snapshot_shows_is_put_out};

/// A venue whose lines are normalised.
#[derive(Drop)]
pub(crate) struct NormalisedVenue {
    pub(crate) normaliser: VenueNormaliser,
    /// What is put out and not written: what the snapshot shows, before anything is given.
    pub(crate) ready: Vec<Numbered>,
    window: u32,
    standing: Option<StandingSince>,
    pub(crate) counts: PacketCounts,
}

/// Returns the origin of what a normaliser makes ready at a time.
fn origin_at(normaliser: &VenueNormaliser, time: CaptureTime) -> PacketOrigin
    ensures { result ≡ origin_of normaliser.now time }
{
    PacketOrigin {
        venue: normaliser.venue(),
        session: normaliser.session(),
        time,
    }
}

/// Returns whether nothing is ready.
fn is_none_ready(items: &[Numbered]) -> bool
    ensures { MatchBool result (items.now ≡ []) (items.now ≡ [] → ⊥) }
{
    items.is_empty()
}

/// Returns whether an answer is that to a heartbeat.
fn is_heartbeat(answer: &Result<Outcome, LineFault>) -> bool {
    matches!(answer, Ok(Outcome::Heartbeat))
}

/// Returns the gap after a front that a skip to a number gave up, if it did and no gap of the
/// session was given up before.
fn gap_below(
    venue: VenueId,
    number: u64,
    front: u64,
    had_given_up: bool,
    is_given_up: bool,
) -> Option<VenueGap>
    ensures { (is_given_up ≡ true → front + 1 < number)
        → gap_noted result ≡ gap_skipped venue number front had_given_up is_given_up }
{
    if had_given_up || !is_given_up {
        return None;
    }
    let first = front.saturating_add(1);
    Some(VenueGap {
        venue,
        messages: MissingRange {
            first,
            count: number.saturating_sub(first),
        },
    })
}

impl NormalisedVenue {
    /// Makes a venue of a normaliser to which nothing was given.
    pub(crate) fn new(
        alloc: Global,
        normaliser: VenueNormaliser,
        window: u32,
    ) -> Result<NormalisedVenue, BookFault>
        ensures normaliser { IfOk result (λ v. v.normaliser ≡ normaliser) }
        ensures none { IfOk result (λ v. v.ready.items ≡ []) }
    {
        let Ok(ready) = Vec::with_capacity(alloc, 65_536) else {
            return Err(BookFault::NoMemory);
        };
        Ok(NormalisedVenue {
            normaliser,
            ready,
            window,
            standing: None,
            counts: PacketCounts::default(),
        })
    }

    /// Begins the first session with a snapshot. What it shows is ready then.
    pub(crate) fn resume(
        &mut self,
        alloc: Global,
        snapshot: &Snapshot<'_>,
    ) -> Result<(), ResumeFault>
        requires { self.old.ready.items ≡ [] }
        ensures opened { OnOk result ((feed : NormalisedFeed) (place : ℕ) (name : List ℕ)
            → slice_index_or feed.sessions.now place [] ≡ name
            → snapshot_at feed.snapshots.now place ≡ Some snapshot.now
            → FitsPackets self.old.normaliser []
            → IsNewNormaliser self.old.normaliser place name (quoted_keys feed)
            feed.normaliser.window feed.normaliser.end_number → FollowsNew feed place self.new) }
        ensures too_few { FitsPackets self.old.normaliser []
            → IsErrOf result ResumeFault.TooFewNumbers
            → ShowsTooMuch self.old.normaliser.book.keys snapshot.now }
        ensures begun { FitsPackets self.old.normaliser []
            → IsErrOf result ResumeFault.HasBegun → ⊥ }
    {
        what_a_snapshot_shows_is_put_out();
        self.normaliser.resume(alloc, snapshot, &mut self.ready)
    }

    /// Returns the gap that stands; `None` where one was given up.
    fn missing(&self) -> Option<MissingRange>
        ensures { (opening : Opening) (packets : List Input)
            → FitsOpened self.now.normaliser opening packets
            → result ≡ standing_gap self.now.normaliser.lines.session
            self.now.normaliser.lines.window self.now.normaliser.lines.sent opening packets }
    {
        if self.normaliser.has_given_up() {
            return None;
        }
        let Some(gap) = self.normaliser.gap() else {
            return None;
        };
        Some(MissingRange {
            first: gap.number,
            count: gap.count as u64,
        })
    }

    /// Returns what is reported of the venue.
    pub(crate) fn report(&self) -> VenueReport
        ensures { ReportsVenue self.now result }
    {
        VenueReport {
            venue: self.normaliser.venue(),
            missing: self.missing(),
            oddities: self.normaliser.oddities(),
            counts: self.counts,
        }
    }

    /// Returns the name of the present session.
    pub(crate) fn session(&self) -> SessionName
        ensures { result ≡ self.now.normaliser.lines.session }
    {
        self.normaliser.session()
    }

    /// Writes what is ready.
    fn write_ready<W: TextOut>(
        &mut self,
        time: CaptureTime,
        output: &mut OutputPackets<'_>,
        writer: &mut W,
    ) -> Result<(), VenueStop>
        ensures put { OnOk result ((last first : ℕ) → 1 ≤ first
            → RunsFrom first self.old.ready.items → PutsPackets
            (writing_of W.TextOut) output.old.page.form
            (origin_of self.old.normaliser time) last self.old.ready.items
            writer.old writer.new output.old.page.page output.new.page.page) }
        ensures stopped { IfErr result (λ stop. (last first : ℕ) → 1 ≤ first
            → RunsFrom first self.old.ready.items → StopsPut
            (writing_of W.TextOut) output.old.page.form
            (origin_of self.old.normaliser time) last self.old.ready.items
            writer.old writer.new output.old.page.page output.new.page.page stop) }
        ensures form { output.new.page.form ≡ output.old.page.form }
        ensures same { self.new.normaliser ≡ self.old.normaliser }
        ensures written { OnOk result (self.new.ready.items ≡ []) }
    {
        let origin = origin_at(&self.normaliser, time);
        let items = self.ready.as_slice();
        output.put_items(&origin, items, writer)?;
        self.ready.clear();
        Ok(())
    }

    /// Passes on a heartbeat of the input, with the number after the last message that is put out.
    fn pass_on<W: TextOut>(
        &self,
        time: CaptureTime,
        output: &mut OutputPackets<'_>,
        writer: &mut W,
    ) -> Result<(), VenueStop>
        ensures put { OnOk result ((opening : Opening) (packets : List Input)
            → FitsOpened self.now.normaliser opening packets
            → PutsPackets (writing_of W.TextOut) output.old.page.form
            (origin_of self.now.normaliser time) (last_put opening packets) []
            writer.old writer.new output.old.page.page output.new.page.page) }
        ensures stopped { IfErr result (λ stop. (opening : Opening) (packets : List Input)
            → FitsOpened self.now.normaliser opening packets
            → StopsPut (writing_of W.TextOut) output.old.page.form
            (origin_of self.now.normaliser time) (last_put opening packets) []
            writer.old writer.new output.old.page.page output.new.page.page stop) }
        ensures form { output.new.page.form ≡ output.old.page.form }
    {
        let status = self.normaliser.status();
        let is_over = match status.end {
            Some(end) => status.sent >= end,
            None => false,
        };
        if self.normaliser.has_given_up() || is_over {
            return Ok(());
        }
        let Some(number) = status.front.checked_add(1) else {
            return Ok(());
        };
        let origin = origin_at(&self.normaliser, time);
        output.put_empty(&origin, number, Body::Heartbeat, writer)?;
        Ok(())
    }

    /// Writes what is ready, or where nothing is, a heartbeat of the input.
    fn write_more<W: TextOut>(
        &mut self,
        is_heartbeat: bool,
        time: CaptureTime,
        output: &mut OutputPackets<'_>,
        writer: &mut W,
    ) -> Result<(), VenueStop>
        ensures put { OnOk result ((opening : Opening) (packets : List Input) (first : ℕ)
            → FitsOpened self.old.normaliser opening packets → 1 ≤ first
            → RunsFrom first self.old.ready.items → PutsPackets
            (writing_of W.TextOut) output.old.page.form
            (origin_of self.old.normaliser time) (last_put opening packets)
            self.old.ready.items
            writer.old writer.new output.old.page.page output.new.page.page) }
        ensures stopped { IfErr result (λ stop. (opening : Opening) (packets : List Input)
            (first : ℕ) → FitsOpened self.old.normaliser opening packets → 1 ≤ first
            → RunsFrom first self.old.ready.items → StopsPut
            (writing_of W.TextOut) output.old.page.form
            (origin_of self.old.normaliser time) (last_put opening packets)
            self.old.ready.items
            writer.old writer.new output.old.page.page output.new.page.page stop) }
        ensures form { output.new.page.form ≡ output.old.page.form }
        ensures same { self.new.normaliser ≡ self.old.normaliser }
        ensures written { OnOk result (self.new.ready.items ≡ []) }
    {
        if is_none_ready(self.ready.as_slice()) {
            if is_heartbeat {
                return self.pass_on(time, output, writer);
            }
            return Ok(());
        }
        self.write_ready(time, output, writer)
    }

    /// Takes a packet, and writes what is ready then.
    pub(crate) fn take<W: TextOut>(
        &mut self,
        line: LineId,
        packet: &Packet<'_>,
        time: CaptureTime,
        output: &mut OutputPackets<'_>,
        writer: &mut W,
    ) -> Result<(), VenueStop>
        ensures takes { (feed : NormalisedFeed) (place : ℕ) (h : NormalisedHistory)
            (bytes more : List ℕ) → FollowsVenue feed place self.old h
            → Spells bytes packet.now more → output.old.page.form ≡ feed.form
            → TakesAtVenue (writing_of W.TextOut) feed time place
            (datagram_record place line bytes) h self.new writer.old writer.new
            output.old.page.page output.new.page.page result }
        ensures form { output.new.page.form ≡ output.old.page.form }
    {
        self.counts.note_payload(packet);
        let answer = self.normaliser.take(line, packet, &mut self.ready)?;
        self.counts.count_answer(&answer);
        self.write_more(is_heartbeat(&answer), time, output, writer)
    }

    /// Counts a datagram that is no packet.
    pub(crate) fn count_bad(&mut self)
        ensures { IsSameVenue self.old self.new }
    {
        self.counts.count_bad();
    }

    /// Gives up what is missing below a number, where something is, and writes the end. Returns
    /// whether it was given up.
    pub(crate) fn skip_to<W: TextOut>(
        &mut self,
        number: u64,
        time: CaptureTime,
        output: &mut OutputPackets<'_>,
        writer: &mut W,
    ) -> Result<bool, VenueStop>
        ensures skips { (feed : NormalisedFeed) (place : ℕ) (h : NormalisedHistory)
            → FollowsVenue feed place self.old h → output.old.page.form ≡ feed.form
            → TakesAtVenue (writing_of W.TextOut) feed time place
            (skip_record place number) h self.new writer.old writer.new
            output.old.page.page output.new.page.page result }
        ensures form { output.new.page.form ≡ output.old.page.form }
        ensures given_up { IfOk result (λ was. (opening : Opening) (packets : List Input)
            → FitsOpened self.old.normaliser opening packets
            → SkippedWhere packets number self.old.normaliser self.new.normaliser was) }
    {
        match self.normaliser.skip_to(number, &mut self.ready)? {
            Err(_) => Ok(false),
            Ok(()) => {
                self.standing = None;
                self.write_ready(time, output, writer)?;
                Ok(true)
            }
        }
    }

    /// The same, and returns what was given up, if it is the first gap of the session that is.
    pub(crate) fn give_up<W: TextOut>(
        &mut self,
        number: u64,
        time: CaptureTime,
        output: &mut OutputPackets<'_>,
        writer: &mut W,
    ) -> Result<Option<VenueGap>, VenueStop>
        ensures skips { (feed : NormalisedFeed) (place : ℕ) (h : NormalisedHistory)
            → FollowsVenue feed place self.old h → output.old.page.form ≡ feed.form
            → TakesAtVenue (writing_of W.TextOut) feed time place
            (skip_record place number) h self.new writer.old writer.new
            output.old.page.page output.new.page.page result }
        ensures form { output.new.page.form ≡ output.old.page.form }
        ensures gap { IfOk result (λ gap. (opening : Opening) (packets : List Input)
            → FitsOpened self.old.normaliser opening packets
            → gap_noted gap ≡ gap_skipped self.old.normaliser.lines.venue number
            (front_of packets) self.old.normaliser.has_given_up
            self.new.normaliser.has_given_up) }
    {
        let venue = self.normaliser.venue();
        let front = self.normaliser.status().front;
        let had_given_up = self.normaliser.has_given_up();
        let is_given_up = self.skip_to(number, time, output, writer)?;
        Ok(gap_below(venue, number, front, had_given_up, is_given_up))
    }

    /// Returns whether a packet lies past the window.
    fn would_be_ahead(&self, packet: &Packet<'_>) -> bool {
        let status = self.normaliser.status();
        packet.kind() == Kind::Messages
            && packet.session() == self.normaliser.session()
            && packet.last_number() > status.sent.saturating_add(u64::from(self.window))
    }

    /// Returns the number to go on from before a packet that lies past the window: the first one
    /// past the gap at the front that has come, or the packet's.
    pub(crate) fn gap_before(&self, packet: &Packet<'_>) -> Option<u64> {
        if !self.would_be_ahead(packet) {
            return None;
        }
        let to = match self.normaliser.gap() {
            Some(gap) if self.normaliser.status().held > 0 => {
                gap.number.saturating_add(u64::from(gap.count))
            }
            _ => packet.number(),
        };
        Some(to.min(packet.number()))
    }

    /// Notes since when a gap stands.
    pub(crate) fn note_gap(&mut self, time: u64)
        ensures { IsSameVenue self.old self.new }
    {
        let status = self.normaliser.status();
        self.standing = StandingSince::after(self.standing, &status, time);
    }

    /// Returns the number to go on from where a gap has stood for `span` nanoseconds.
    pub(crate) fn overdue(&self, span: u64, time: u64) -> Option<u64> {
        let standing = self.standing?;
        if !standing.is_overdue(span, time) {
            return None;
        }
        let gap = self.normaliser.gap()?;
        gap.number.checked_add(u64::from(gap.count))
    }

    /// Begins the venue's next session, where it may begin, and writes that. Returns whether it
    /// began.
    pub(crate) fn renew<W: TextOut>(
        &mut self,
        alloc: Global,
        session: SessionName,
        output: &mut OutputPackets<'_>,
        writer: &mut W,
    ) -> Result<bool, VenueStop>
        ensures renews { (feed : NormalisedFeed) (time place : ℕ) (h : NormalisedHistory)
            → FollowsVenue feed place self.old h → output.old.page.form ≡ feed.form
            → TakesAtVenue (writing_of W.TextOut) feed time place
            (renewal_record place session) h self.new writer.old writer.new
            output.old.page.page output.new.page.page result }
        ensures form { output.new.page.form ≡ output.old.page.form }
    {
        match self.normaliser.renew(alloc, session)? {
            Err(_) => Ok(false),
            Ok(_) => {
                self.ready.clear();
                self.standing = None;
                output.put_renewal(self.normaliser.venue(), &session, writer)?;
                Ok(true)
            }
        }
    }
}
