//! The venues of a run.
ghost use Rattle.std.specs.Prelude.{◌≡◌, ℕ, ◌+◌, ◌<◌, ◌≤◌, [], ◌∷◌, List, None, Option, IfErr, IfOk, IfSome, OnErr, OnOk, length, option_map, slice_index_or};
ghost use Rattle.capture_records.specs.Capture.{datagram_record, record_of, record_venue, renewal_record, self_help_record, skip_record};
ghost use Rattle.capture_records.specs.Formats.{TimedRecord, timed_record};
ghost use Rattle.mold_packet.specs.Content.{Spells};
ghost use Rattle.text_out.specs.Devices.{Wrote};
ghost use Rattle.text_out.specs.Members.{writing_of};
ghost use Rattle.venue_normaliser.specs.States.{FitsPackets, IsNewNormaliser};
ghost use Rattle.normalising.specs.Keeping.{FollowNew, FollowsNew, FollowsRun, GivesNext, IsBeginFault, IsNewRun, IsNoted, IsSameRun, PutsInFirst, RunsOn, TakesToo};
ghost use Rattle.normalising.specs.Normalised.{IsNamedNext, IsPacketOfName, MaySkipBefore, NormalisedPoint, quoted_keys, snapshot_at, time_after};

use crate::begin_fault::BeginFault;
use crate::normalised_feed::NormalisedFeed;
use crate::normalised_venue::NormalisedVenue;
use crate::output_packets::OutputPackets;
use crate::venue_stop::VenueStop;
use capture_records::Record;
use capture_writing::CaptureTime;
use event_sinks::{SinkStop, VenueGap};
use feed_types::{LineId, SessionName, VenueId, is_same_name};
use itch_book::BookFault;
use mold_packet::{Packet, read_packet};
use run_settings::SkipRule;
use std::alloc::{AllocError, Global};
use text_out::TextOut;
use venue_normaliser::{NormaliserFault, Snapshot, VenueNormaliser};

/// The nanoseconds of a millisecond.
const MILLISECOND: u64 = 1_000_000;

/// All venues, and what is kept of a run.
#[derive(Drop)]
pub(crate) struct NormalisedVenues<'a> {
    pub(crate) settings: NormalisedFeed<'a>,
    pub(crate) venues: Vec<NormalisedVenue>,
    pub(crate) output: OutputPackets<'a>,
    /// Which of the next sessions have begun, by their places in the list.
    begun: Vec<bool>,
    pub(crate) given_up: Vec<VenueGap>,
    /// The time of the latest record that has one.
    pub(crate) latest: CaptureTime,
    /// The venue that was given something last.
    current: VenueId,
    alloc: Global,
}

/// Returns the snapshot of the venue at a place, if it has one.
fn snapshot_of<'s, 'a>(
    snapshots: &'s [Option<Snapshot<'a>>],
    place: usize,
) -> Option<&'s Snapshot<'a>>
    ensures { option_map (λ s. s.now) result ≡ snapshot_at snapshots.now place }
{
    match snapshots.get(place) {
        Some(Some(snapshot)) => Some(snapshot),
        _ => None,
    }
}

/// Makes a venue whose session begins with its first message.
fn plain_venue(
    alloc: Global,
    settings: &NormalisedFeed<'_>,
    venue: VenueId,
    session: SessionName,
) -> Result<NormalisedVenue, NormaliserFault>
    ensures fits { IfOk result (λ v. FitsPackets v.normaliser []) }
    ensures made { IfOk result (λ v. IsNewNormaliser v.normaliser venue session
        (quoted_keys settings.now) settings.now.normaliser.window
        settings.now.normaliser.end_number) }
    ensures none { IfOk result (λ v. v.ready.items ≡ []) }
{
    let made = settings.normaliser;
    let normaliser = VenueNormaliser::new(alloc, venue, session, settings.symbols, &made)?;
    match NormalisedVenue::new(alloc, normaliser, made.window) {
        Ok(venue) => Ok(venue),
        Err(fault) => Err(NormaliserFault::Book(fault)),
    }
}

/// Makes the venue at a place.
fn make_venue(
    alloc: Global,
    settings: &NormalisedFeed<'_>,
    place: usize,
    session: SessionName,
) -> Result<NormalisedVenue, BeginFault>
    requires { place < 16 }
    ensures made { IfOk result (λ v. slice_index_or settings.now.sessions.now place [] ≡ session
        → FollowsNew settings.now place v) }
    ensures refused { IfErr result (IsBeginFault settings.now) }
{
    let venue = VenueId::at(place);
    let mut made = plain_venue(alloc, settings, venue, session)?;
    if let Some(snapshot) = snapshot_of(settings.snapshots, place) {
        if let Err(fault) = made.resume(alloc, snapshot) {
            return Err(BeginFault::Snapshot(venue, fault));
        }
    }
    Ok(made)
}

/// Makes the venues.
fn make_venues(
    alloc: Global,
    settings: &NormalisedFeed<'_>,
) -> Result<Vec<NormalisedVenue>, BeginFault>
    requires { length settings.now.sessions.now ≤ 16 }
    ensures made { IfOk result (λ vs. FollowNew settings.now vs.items) }
    ensures count { IfOk result (λ vs. length vs.items ≡ length settings.now.sessions.now) }
    ensures refused { IfErr result (IsBeginFault settings.now) }
{
    let mut venues = Vec::new(alloc);
    for (place, session) in settings.sessions.iter().enumerate() {
        let venue = make_venue(alloc, settings, place, *session)?;
        match venues.push(venue) {
            Ok(()) => {}
            Err(_) => return Err(BeginFault::Normaliser(NormaliserFault::Book(
                BookFault::NoMemory,
            ))),
        }
    }
    Ok(venues)
}

/// Returns what a refusal of memory is to a run.
fn no_memory(_error: AllocError) -> BeginFault
    ensures { result ≡ BeginFault.Normaliser (NormaliserFault.Book BookFault.NoMemory) }
{
    BeginFault::Normaliser(NormaliserFault::Book(BookFault::NoMemory))
}

/// Returns the venue of a record.
fn venue_of(record: &Record<'_>) -> VenueId
    ensures { result ≡ record_venue (record_of «record».now) }
{
    match record {
        Record::Datagram { venue, .. }
        | Record::Renewal { venue, .. }
        | Record::Skip { venue, .. }
        | Record::SelfHelp { venue, .. } => *venue,
    }
}

/// Returns the time of the latest record, where one with this time comes after it.
fn latest_after(latest: CaptureTime, time: Option<u64>) -> CaptureTime
    ensures { result ≡ time_after latest time }
{
    let Some(now) = time else {
        return latest;
    };
    match CaptureTime::new(now) {
        Some(at) => at,
        None => latest,
    }
}

/// Returns the span after which the rule gives up a gap before a record with this time, in
/// nanoseconds, and the time; `None` where it gives up none by time.
fn overdue_clock(rule: SkipRule, time: Option<u64>) -> Option<(u64, u64)>
    ensures { IfSome result (λ clock. (r : TimedRecord) (venue : ℕ) → r.time ≡ time
        → MaySkipBefore rule r venue) }
{
    match (rule, time) {
        (SkipRule::After(milliseconds), Some(now)) => {
            Some((u64::from(milliseconds).saturating_mul(MILLISECOND), now))
        }
        _ => None,
    }
}

impl<'a> NormalisedVenues<'a> {
    /// Takes the memory of a run.
    pub(crate) fn new(
        alloc: Global,
        settings: &NormalisedFeed<'a>,
    ) -> Result<NormalisedVenues<'a>, BeginFault>
        requires { length settings.now.sessions.now ≤ 16 }
        ensures begun { IfOk result (IsNewRun settings.now) }
        ensures refused { IfErr result (IsBeginFault settings.now) }
    {
        let venues = make_venues(alloc, settings)?;
        let output = OutputPackets::new(alloc, settings.form).map_err(no_memory)?;
        let begun = vec![in alloc; false; settings.next_sessions.len()].map_err(no_memory)?;
        let Some(latest) = CaptureTime::new(0) else {
            return Err(BeginFault::Normaliser(NormaliserFault::Book(BookFault::NoMemory)));
        };
        Ok(NormalisedVenues {
            settings: *settings,
            venues,
            output,
            begun,
            given_up: Vec::new(alloc),
            latest,
            current: VenueId::at(0),
            alloc,
        })
    }

    /// Writes all that waits.
    pub(crate) fn write<W: TextOut>(&mut self, writer: &mut W) -> Result<(), SinkStop>
        ensures written { OnOk result (W.adds writer.old self.old.output.page.page writer.new) }
        ensures none { OnOk result (self.new.output.page.page ≡ []) }
        ensures kept { OnOk result (W.failures writer.new ≡ W.failures writer.old) }
        ensures part { OnErr result
            (Wrote W.adds writer.old self.old.output.page.page writer.new) }
        ensures failed { OnErr result (W.failures writer.new ≡ W.failures writer.old + 1) }
        ensures follows { (time : Option ℕ) (at : NormalisedPoint)
            → FollowsRun self.old time at → FollowsRun self.new time at }
        ensures same { IsSameRun self.old self.new }
    {
        self.output.write(writer)
    }

    /// Gives up what is missing at a venue below a number, where it may be given up, and notes that
    /// gap where it is the first one of the session.
    fn give_up<W: TextOut>(
        &mut self,
        venue: VenueId,
        number: u64,
        writer: &mut W,
    ) -> Result<(), VenueStop>
        requires { venue < length self.old.venues.items }
        ensures takes { GivesNext (writing_of W.TextOut)
            (skip_record venue number) self.old self.new writer.old writer.new result }
        ensures same { IsSameRun self.old self.new }
    {
        match self.given_up.reserve(1) {
            Ok(()) => {}
            Err(_) => return Err(VenueStop::Book(BookFault::NoMemory)),
        }
        self.current = venue;
        let it = &mut self.venues[venue.index()];
        let given_up = it.give_up(number, self.latest, &mut self.output, writer)?;
        if let Some(gap) = given_up {
            self.given_up.push_reserved(gap);
        }
        Ok(())
    }

    /// Begins a venue's next session, where it may begin, and returns whether it began.
    fn renew<W: TextOut>(
        &mut self,
        venue: VenueId,
        session: SessionName,
        writer: &mut W,
    ) -> Result<bool, VenueStop>
        requires { venue < length self.old.venues.items }
        ensures takes { GivesNext (writing_of W.TextOut)
            (renewal_record venue session) self.old self.new writer.old writer.new result }
        ensures same { IsSameRun self.old self.new }
    {
        self.current = venue;
        let it = &mut self.venues[venue.index()];
        it.renew(self.alloc, session, &mut self.output, writer)
    }

    /// Gives a packet to the normaliser of a venue.
    fn give_packet<W: TextOut>(
        &mut self,
        venue: VenueId,
        line: LineId,
        packet: &Packet<'_>,
        writer: &mut W,
    ) -> Result<(), VenueStop>
        requires { venue < length self.old.venues.items }
        ensures takes { (bytes more : List ℕ) → Spells bytes packet.now more
            → GivesNext (writing_of W.TextOut)
            (datagram_record venue line bytes) self.old self.new writer.old writer.new result }
        ensures same { IsSameRun self.old self.new }
    {
        self.current = venue;
        let it = &mut self.venues[venue.index()];
        it.take(line, packet, self.latest, &mut self.output, writer)
    }

    /// Counts a datagram of a venue that is no packet.
    fn count_bad(&mut self, venue: VenueId)
        requires { venue < length self.old.venues.items }
        ensures { IsNoted self.old self.new }
    {
        let it = &mut self.venues[venue.index()];
        it.count_bad();
    }

    /// Notes since when the gap of a venue stands.
    fn note_gap(&mut self, venue: VenueId, time: u64)
        requires { venue < length self.old.venues.items }
        ensures { IsNoted self.old self.new }
    {
        let it = &mut self.venues[venue.index()];
        it.note_gap(time);
    }

    /// Passes on a declaration of self-help, or that it is withdrawn.
    fn pass_on<W: TextOut>(
        &mut self,
        venue: VenueId,
        on: bool,
        writer: &mut W,
    ) -> Result<(), VenueStop>
        requires { venue < length self.old.venues.items }
        ensures takes { GivesNext (writing_of W.TextOut)
            (self_help_record venue on) self.old self.new writer.old writer.new result }
        ensures same { IsSameRun self.old self.new }
    {
        self.output.put_self_help(venue, on, writer)?;
        Ok(())
    }

    /// Gives up a venue's gap at a time where it has stood for `span` nanoseconds.
    fn give_up_standing<W: TextOut>(
        &mut self,
        venue: VenueId,
        span: u64,
        now: u64,
        writer: &mut W,
    ) -> Result<(), VenueStop>
        requires { venue < length self.old.venues.items }
        ensures puts_in { (r : TimedRecord) → MaySkipBefore self.old.settings.skips r venue
            → PutsInFirst (writing_of W.TextOut) r self.old self.new writer.old writer.new result }
        ensures same { IsSameRun self.old self.new }
    {
        let Some(number) = self.venues[venue.index()].overdue(span, now) else {
            return Ok(());
        };
        self.give_up(venue, number, writer)?;
        self.note_gap(venue, now);
        Ok(())
    }

    /// Gives up the gaps that have stood for long enough before a record with this time.
    fn give_up_overdue<W: TextOut>(
        &mut self,
        time: Option<u64>,
        writer: &mut W,
    ) -> Result<(), VenueStop>
        requires { length self.old.venues.items ≤ 16 }
        ensures puts_in { (r : TimedRecord) → r.time ≡ time
            → PutsInFirst (writing_of W.TextOut) r self.old self.new writer.old writer.new result }
        ensures same { IsSameRun self.old self.new }
    {
        let Some((span, now)) = overdue_clock(self.settings.skips, time) else {
            return Ok(());
        };
        for place in 0..self.venues.len() {
            self.give_up_standing(VenueId::at(place), span, now, writer)?;
        }
        Ok(())
    }

    /// Gives up the gaps of a venue before a packet, until the packet lies within the window.
    fn give_up_ahead<W: TextOut>(
        &mut self,
        venue: VenueId,
        packet: &Packet<'_>,
        writer: &mut W,
    ) -> Result<(), VenueStop>
        requires venue { venue < length self.old.venues.items }
        requires rule { self.old.settings.skips ≡ SkipRule.Gaps }
        ensures puts_in { (r : TimedRecord) → venue ≡ record_venue r.what
            → PutsInFirst (writing_of W.TextOut) r self.old self.new writer.old writer.new result }
        ensures same { IsSameRun self.old self.new }
    {
        for _ in 0..self.settings.normaliser.window {
            let Some(number) = self.venues[venue.index()].gap_before(packet) else {
                return Ok(());
            };
            self.give_up(venue, number, writer)?;
        }
        Ok(())
    }

    /// Does so by the rule for gaps.
    fn make_room<W: TextOut>(
        &mut self,
        venue: VenueId,
        packet: &Packet<'_>,
        writer: &mut W,
    ) -> Result<(), VenueStop>
        requires { venue < length self.old.venues.items }
        ensures puts_in { (r : TimedRecord) → venue ≡ record_venue r.what
            → PutsInFirst (writing_of W.TextOut) r self.old self.new writer.old writer.new result }
        ensures same { IsSameRun self.old self.new }
    {
        match self.settings.skips {
            SkipRule::Gaps => self.give_up_ahead(venue, packet, writer),
            _ => Ok(()),
        }
    }

    /// Returns whether the next session at a place of the list has begun.
    fn has_begun(&self, place: usize) -> bool {
        match self.begun.get(place) {
            Some(begun) => *begun,
            None => true,
        }
    }

    /// Notes that the next session at a place of the list has begun.
    fn note_begun(&mut self, place: usize)
        ensures { IsNoted self.old self.new }
    {
        if let Some(begun) = self.begun.get_mut(place) {
            *begun = true;
        }
    }

    /// Returns the place of the session that is named to follow a venue's next, where it has this
    /// name.
    fn next_named(&self, venue: VenueId, session: SessionName) -> Option<usize>
        ensures { IfSome result (λ place.
            IsNamedNext self.now.settings.next_sessions.now venue session) }
    {
        for (place, next) in self.settings.next_sessions.iter().enumerate() {
            if next.venue == venue && !self.has_begun(place) {
                if is_same_name(&next.name, &session) {
                    return Some(place);
                }
                return None;
            }
        }
        None
    }

    /// Begins the session that is named to follow a venue's, where this packet is of it.
    fn follow<W: TextOut>(
        &mut self,
        venue: VenueId,
        packet: &Packet<'_>,
        writer: &mut W,
    ) -> Result<(), VenueStop>
        requires { venue < length self.old.venues.items }
        ensures puts_in { (r : TimedRecord) → IsPacketOfName r.what venue packet.now.session
            → PutsInFirst (writing_of W.TextOut) r self.old self.new writer.old writer.new result }
        ensures same { IsSameRun self.old self.new }
    {
        let session = packet.session();
        if is_same_name(&self.venues[venue.index()].session(), &session) {
            return Ok(());
        }
        let Some(place) = self.next_named(venue, session) else {
            return Ok(());
        };
        if self.renew(venue, session, writer)? {
            self.note_begun(place);
        }
        Ok(())
    }

    /// Takes a datagram.
    fn take_datagram<W: TextOut>(
        &mut self,
        venue: VenueId,
        line: LineId,
        bytes: &[u8],
        writer: &mut W,
    ) -> Result<(), VenueStop>
        requires { venue < length self.old.venues.items }
        ensures takes { (r : TimedRecord) → r.what ≡ datagram_record venue line bytes.now
            → TakesToo (writing_of W.TextOut) r self.old self.new writer.old writer.new result }
        ensures same { IsSameRun self.old self.new }
    {
        let Ok(packet) = read_packet(bytes) else {
            self.count_bad(venue);
            return Ok(());
        };
        self.follow(venue, &packet, writer)?;
        self.make_room(venue, &packet, writer)?;
        self.give_packet(venue, line, &packet, writer)
    }

    /// Takes a record, after what is put in before it but for gaps by time.
    fn take<W: TextOut>(&mut self, record: &Record<'_>, writer: &mut W) -> Result<(), VenueStop>
        requires { record_venue (record_of «record».now) < length self.old.venues.items }
        ensures takes { (r : TimedRecord) → r.what ≡ record_of «record».now
            → TakesToo (writing_of W.TextOut) r self.old self.new writer.old writer.new result }
        ensures same { IsSameRun self.old self.new }
    {
        match record {
            Record::Datagram { venue, line, bytes } => {
                self.take_datagram(*venue, *line, bytes, writer)
            }
            Record::Renewal { venue, session } => {
                self.renew(*venue, *session, writer)?;
                Ok(())
            }
            Record::Skip { venue, number } => self.give_up(*venue, *number, writer),
            Record::SelfHelp { venue, on } => self.pass_on(*venue, *on, writer),
        }
    }

    /// Takes a record at its time, after what is put in before it.
    pub(crate) fn take_timed<W: TextOut>(
        &mut self,
        record: &Record<'_>,
        time: Option<u64>,
        writer: &mut W,
    ) -> Result<(), VenueStop>
        requires venue { record_venue (record_of «record».now) < length self.old.venues.items }
        requires few { length self.old.venues.items ≤ 16 }
        ensures takes { (at : NormalisedPoint) → FollowsRun self.old None at
            → RunsOn (writing_of W.TextOut) self.old.settings
            (timed_record (record_of «record».now) time ∷ []) at (λ l. l ≡ [])
            (FollowsRun self.new None) writer.old writer.new self.old.output.page.page
            self.new.output.page.page result }
        ensures same { IsSameRun self.old self.new }
    {
        self.latest = latest_after(self.latest, time);
        self.give_up_overdue(time, writer)?;
        self.take(record, writer)?;
        if let Some((_, now)) = overdue_clock(self.settings.skips, time) {
            self.note_gap(venue_of(record), now);
        }
        Ok(())
    }

    /// Returns the venue that was given something last, the first one where none was.
    pub(crate) fn current(&self) -> VenueId {
        self.current
    }
}
