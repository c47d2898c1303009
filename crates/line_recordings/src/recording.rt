//! A recording that is written as it comes.
ghost use Rattle.std.specs.Prelude.{◌≡◌, ◌+◌, [], IfOk, OnErr, OnOk, false, true};
ghost use Rattle.text_out.specs.Devices.{Wrote};
ghost use Rattle.line_recordings.specs.Written.{HasWritten, HavePut, ClosesRecording};

use crate::recording_state::RecordingState;
use crate::venue_records::{FULL, PAGE, VenueRecords};
use capture_records::ReadBuffer;
use std::alloc::{AllocError, Global};
use text_out::{TextOut, WriteStop, write_all};

/// The most rounds of one look.
const MOST_ROUNDS: u32 = 1_024;

/// The bytes after the last record where one that came isn't written: they begin a record and end
/// before its number.
const CUT: [u8; 4] = [0, b'K', 0, 8];

/// A recording of a run: the datagrams and skips of its venues, and where they are written.
#[derive(Drop)]
pub struct Recording<W> {
    venues: Vec<VenueRecords>,
    page: ReadBuffer<PAGE>,
    /// How many records are on the page.
    on_page: u64,
    pub(crate) writer: W,
    has_failed: bool,
    state: RecordingState,
}

/// Writes all of the page.
fn write_page<W: TextOut>(page: &mut ReadBuffer<PAGE>, writer: &mut W) -> Result<(), WriteStop>
    ensures written { OnOk result (W.adds writer.old page.old writer.new) }
    ensures none { OnOk result (page.new ≡ []) }
    ensures failed { OnErr result (W.failures writer.new ≡ W.failures writer.old + 1) }
    ensures part { OnErr result (Wrote W.adds writer.old page.old writer.new) }
{
    match write_all(page.bytes(), writer) {
        Ok(()) => {
            page.advance(page.len());
            Ok(())
        }
        Err(stop) => Err(stop),
    }
}

/// Puts what is next of the venue at a place on the page, if there is such a venue, and returns how
/// many records these are.
fn put_venue(
    venues: &mut Vec<VenueRecords>,
    place: usize,
    is_last: bool,
    page: &mut ReadBuffer<PAGE>,
) -> u64
    ensures { HavePut venues.old.items page.old venues.new.items page.new }
{
    if place >= venues.len() {
        return 0;
    }
    venues[place].put_ready(is_last, page)
}

impl<W: TextOut + Drop> Recording<W> {
    /// A recording of these venues, of which nothing is written. It marks in `state` how far it is.
    pub fn new(
        alloc: Global,
        venues: Vec<VenueRecords>,
        writer: W,
        state: RecordingState,
    ) -> Result<Recording<W>, AllocError>
        ensures venues { IfOk result (λ recording. recording.venues ≡ venues) }
        ensures writer { IfOk result (λ recording. recording.writer ≡ writer) }
        ensures page { IfOk result (λ recording. recording.page ≡ []) }
    {
        Ok(Recording {
            venues,
            page: ReadBuffer::new(alloc)?,
            on_page: 0,
            writer,
            has_failed: false,
            state,
        })
    }

    /// Writes what is on the page.
    #[tactic(auto, using(crate::proofs::Writing::wrote_none, crate::proofs::Writing::front_none))]
    fn write(&mut self)
        ensures written { HasWritten W.adds self.old self.new }
        ensures front { Wrote W.adds self.old.writer self.old.page self.new.writer }
        ensures kept { self.old.has_failed ≡ true → self.new ≡ self.old }
        ensures none { self.new.has_failed ≡ false → self.new.page ≡ [] }
    {
        if self.has_failed || self.page.is_empty() {
            return;
        }
        match write_page(&mut self.page, &mut self.writer) {
            Ok(()) => {
                self.state.count_written(self.on_page);
                self.on_page = 0;
            }
            Err(_) => {
                self.has_failed = true;
                self.state.fail();
            }
        }
    }

    /// Puts what is next of the venue at a place on the page, and returns how many records these
    /// are.
    #[tactic(auto, using(crate::proofs::Writing::wrote_put))]
    fn put_at(&mut self, place: usize, is_last: bool) -> u64
        ensures written { HasWritten W.adds self.old self.new }
        ensures sound { self.new.has_failed ≡ self.old.has_failed }
    {
        let put = put_venue(&mut self.venues, place, is_last, &mut self.page);
        self.on_page = self.on_page.saturating_add(put);
        put
    }

    /// Puts what is next of each venue on the page, and returns how many records these are. A page
    /// that is full is written.
    fn put_all(&mut self, is_last: bool) -> u64
        ensures written { HasWritten W.adds self.old self.new }
        ensures kept { self.old.has_failed ≡ true → self.new ≡ self.old }
    {
        let mut count = 0u64;
        for place in 0..self.venues.len() {
            if self.has_failed {
                break;
            }
            count = count.saturating_add(self.put_at(place, is_last));
            if self.page.len() > FULL {
                self.write();
            }
        }
        count
    }

    /// Writes what has come, venue by venue. With `is_last` nothing is waited for any more. Once a
    /// write has failed nothing is written, nor taken from the senders.
    pub fn turn(&mut self, is_last: bool)
        ensures written { HasWritten W.adds self.old self.new }
        ensures kept { self.old.has_failed ≡ true → self.new ≡ self.old }
        ensures none { self.new.has_failed ≡ false → self.new.page ≡ [] }
    {
        for _ in 0..MOST_ROUNDS {
            if self.put_all(is_last) == 0 {
                break;
            }
        }
        self.write();
    }

    /// Whether a write has failed.
    pub fn has_failed(&self) -> bool
        ensures { result ≡ self.now.has_failed }
    {
        self.has_failed
    }

    /// Ends the recording, of which all is written that came. Where one that came isn't, what is
    /// written ends within a record, so that a replay of it says so.
    pub fn close(&mut self)
        ensures { ClosesRecording W.adds self.old self.new }
    {
        if !self.has_failed && self.page.len() <= FULL && self.state.without() > 0 {
            self.page.push(&CUT);
            self.write();
        }
        self.state.finish();
    }

    /// Whether nothing more comes.
    pub(crate) fn is_ending(&self) -> bool {
        self.state.is_ending()
    }
}
