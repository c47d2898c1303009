//! What came of a venue, in its order.
ghost use Rattle.std.specs.Prelude.{◌≡◌, ◌≤◌, ◌<◌, ◌/◌, ◌%◌, ◌++◌, [], ◌∷◌, IfOk, MatchOption, length};
ghost use Rattle.line_recordings.specs.Recordings.{ComesFrom, HasHeardNone, IsTaken, IsUnchanged, NoneComes, PutsRecords, hearing, is_next, kind_letter, renewal_bytes};

use crate::placed::Placed;
use crate::record_kind::RecordKind;
use crate::record_source::{RecordSource, silent_source};
use capture_records::ReadBuffer;
use feed_types::{LineId, SessionName, VenueId};
use std::alloc::{AllocError, Global};
use std::sync::Arc;
use std::sync::atomic::AtomicU64;

/// How many bytes of records wait at most for the writer.
pub const PAGE: usize = 131_072;

/// How many may wait before another record is put: as many as leave room for a longest one, which
/// has 65,539, and that of a renewal before it, which has 14.
pub(crate) const FULL: usize = 65_519;

/// The most bytes of a record, but for the four before them.
const LONGEST: usize = 65_535;

/// How many looks one waits for what is before it, which is lost then: half a second.
pub(crate) const PATIENCE: u32 = 100;

/// The most that is taken of a venue at once.
const MOST: u32 = 65_536;

/// The kinds of records.
const KINDS: [RecordKind; 4] = [
    RecordKind::Line(LineId::A),
    RecordKind::Line(LineId::B),
    RecordKind::Line(LineId::Recovery),
    RecordKind::Skip,
];

/// What is next of a venue.
#[derive(Drop)]
pub enum Taken {
    /// Nothing, for now.
    Nothing,
    /// One that is left out.
    LeftOut,
    /// The venue's next record.
    Next(RecordKind, Placed),
}

/// What came of a venue from its senders, and how far its records are written.
#[derive(Drop)]
pub struct VenueRecords {
    pub(crate) venue: VenueId,
    /// The place past those of the records that are written.
    pub(crate) next: u64,
    /// How many that came were left out.
    pub(crate) left_out: u64,
    /// How many looks the next one waits for those before it.
    waited: u32,
    pub(crate) of_a: RecordSource,
    pub(crate) of_b: RecordSource,
    pub(crate) of_recovery: RecordSource,
    pub(crate) of_skips: RecordSource,
}

/// Appends the record of a renewal, if the venue's session of this name has begun.
fn put_renewal(page: &mut ReadBuffer<PAGE>, venue: VenueId, begun: Option<SessionName>)
    requires room { length page.old ≤ 65519 }
    ensures puts { page.new ≡ page.old ++ renewal_bytes venue begun }
    ensures room { length page.new ≤ 65533 }
{
    if let Some(name) = begun {
        page.push(&[venue.index() as u8, b'N', 0, 10]);
        page.push(&name);
    }
}

/// Appends the bytes of a record.
fn put_record(page: &mut ReadBuffer<PAGE>, venue: VenueId, kind: RecordKind, bytes: &[u8])
    requires len { length bytes.now < 65536 }
    requires room { length page.old ≤ 65533 }
    ensures { page.new ≡ page.old ++ (venue ∷ kind_letter kind ∷ length bytes.now / 256
        ∷ length bytes.now % 256 ∷ bytes.now) }
{
    let len = bytes.len();
    page.push(&[
        venue.index() as u8,
        kind.letter(),
        (len / 256) as u8,
        (len % 256) as u8,
    ]);
    page.push(bytes);
}

impl VenueRecords {
    /// What comes of the venue, of which nothing is written: its skips come from this source, and
    /// of its lines nothing comes yet.
    pub fn new(
        alloc: Global,
        venue: VenueId,
        of_skips: RecordSource,
    ) -> Result<VenueRecords, AllocError>
        ensures venue { IfOk result (λ records. records.venue ≡ venue) }
        ensures next { IfOk result (λ records. records.next ≡ 1) }
        ensures left_out { IfOk result (λ records. records.left_out ≡ 0) }
        ensures skips { IfOk result (λ records. records.of_skips ≡ of_skips) }
        ensures lines { IfOk result HasHeardNone }
    {
        Ok(VenueRecords {
            venue,
            next: 1,
            left_out: 0,
            waited: 0,
            of_a: silent_source(alloc)?,
            of_b: silent_source(alloc)?,
            of_recovery: silent_source(alloc)?,
            of_skips,
        })
    }

    /// Hears the line from this source from now on.
    pub fn hear(&mut self, line: LineId, source: RecordSource)
        ensures { self.new ≡ hearing self.old line source }
    {
        match line {
            LineId::A => self.of_a = source,
            LineId::B => self.of_b = source,
            LineId::Recovery => self.of_recovery = source,
        }
    }

    /// The place of the next one of this kind, if one is there.
    fn next_place(&mut self, kind: RecordKind) -> Option<u64>
        ensures { IsUnchanged self.old self.new }
    {
        match kind {
            RecordKind::Line(LineId::A) => self.of_a.next_place(),
            RecordKind::Line(LineId::B) => self.of_b.next_place(),
            RecordKind::Line(LineId::Recovery) => self.of_recovery.next_place(),
            RecordKind::Skip => self.of_skips.next_place(),
        }
    }

    /// Whether half of the room for this kind is taken.
    fn is_crowded(&mut self, kind: RecordKind) -> bool
        ensures { IsUnchanged self.old self.new }
    {
        match kind {
            RecordKind::Line(LineId::A) => self.of_a.is_crowded(),
            RecordKind::Line(LineId::B) => self.of_b.is_crowded(),
            RecordKind::Line(LineId::Recovery) => self.of_recovery.is_crowded(),
            RecordKind::Skip => self.of_skips.is_crowded(),
        }
    }

    /// Takes the next one of this kind, if one is there.
    fn take(&mut self, kind: RecordKind) -> Option<Placed>
        ensures comes { MatchOption result (NoneComes self.old self.new)
            (λ placed. ComesFrom self.old self.new kind placed) }
        ensures next { self.new.next ≡ self.old.next }
        ensures left_out { self.new.left_out ≡ self.old.left_out }
        ensures venue { self.new.venue ≡ self.old.venue }
    {
        match kind {
            RecordKind::Line(LineId::A) => self.of_a.take(),
            RecordKind::Line(LineId::B) => self.of_b.take(),
            RecordKind::Line(LineId::Recovery) => self.of_recovery.take(),
            RecordKind::Skip => self.of_skips.take(),
        }
    }

    /// Gives the memory of a record of this kind back.
    fn give_back(&mut self, kind: RecordKind, memory: Vec<u8>)
        ensures { IsUnchanged self.old self.new }
    {
        match kind {
            RecordKind::Line(LineId::A) => self.of_a.give_back(memory),
            RecordKind::Line(LineId::B) => self.of_b.give_back(memory),
            RecordKind::Line(LineId::Recovery) => self.of_recovery.give_back(memory),
            RecordKind::Skip => self.of_skips.give_back(memory),
        }
    }

    /// The kind of the one with the lowest place, and that place, if one is there.
    fn first(&mut self) -> Option<(RecordKind, u64)>
        ensures { IsUnchanged self.old self.new }
    {
        let mut first = None;
        for kind in KINDS {
            if let Some(place) = self.next_place(kind) {
                first = match first {
                    Some((_, lowest)) if lowest <= place => first,
                    _ => Some((kind, place)),
                };
            }
        }
        first
    }

    /// Whether the first one, of this kind and at this place, waits for those before it: they are
    /// looked for some times, unless that is the last look, or its sender's room is half full.
    fn is_early(&mut self, kind: RecordKind, place: u64, is_last: bool) -> bool
        ensures { IsUnchanged self.old self.new }
    {
        place > self.next && !is_last && self.waited < PATIENCE && !self.is_crowded(kind)
    }

    /// Whether it may be written after those that are.
    fn is_next(&self, placed: &Placed) -> bool
        ensures { result ≡ is_next self.now placed.now }
    {
        placed.place >= self.next && placed.place < u64::MAX && placed.bytes.len() <= LONGEST
    }

    /// Takes what is next of the venue. With `is_last` nothing is waited for any more.
    fn take_next(&mut self, is_last: bool) -> Taken
        ensures { IsTaken self.old result self.new }
    {
        let Some((kind, place)) = self.first() else {
            return Taken::Nothing;
        };
        if self.is_early(kind, place, is_last) {
            self.waited = self.waited.saturating_add(1);
            return Taken::Nothing;
        }
        let Some(placed) = self.take(kind) else {
            return Taken::Nothing;
        };
        if !self.is_next(&placed) {
            self.left_out = self.left_out.saturating_add(1);
            return Taken::LeftOut;
        }
        self.next = placed.place + 1;
        self.waited = 0;
        Taken::Next(kind, placed)
    }

    /// Puts the records on the page that are next of the venue, as far as that has room. What is
    /// missing before them is waited for in some looks, and with `is_last` not any more. Returns
    /// how many were put, not counting renewals.
    pub fn put_ready(&mut self, is_last: bool, page: &mut ReadBuffer<PAGE>) -> u64
        ensures { PutsRecords self.old self.new page.old page.new }
    {
        let mut count = 0u64;
        for _ in 0..MOST {
            if page.len() > FULL {
                break;
            }
            match self.take_next(is_last) {
                Taken::Nothing => break,
                Taken::LeftOut => {}
                Taken::Next(kind, placed) => {
                    put_renewal(page, self.venue, placed.begun);
                    put_record(page, self.venue, kind, placed.bytes.as_slice());
                    count = count.saturating_add(1);
                    self.give_back(kind, placed.bytes);
                }
            }
        }
        count
    }

    /// Adds to the list how many each sender of the venue was given, as it goes on.
    pub(crate) fn share_given(
        &self,
        given: &mut Vec<Arc<AtomicU64, Global>>,
    ) -> Result<(), AllocError> {
        given.push(self.of_a.share_given()?)?;
        given.push(self.of_b.share_given()?)?;
        given.push(self.of_recovery.share_given()?)?;
        given.push(self.of_skips.share_given()?)?;
        Ok(())
    }
}
