//! A capture in the project's own format.
ghost use Rattle.std.specs.Prelude.{◌≡◌, ◌+◌, ◌≤◌, ◌<◌, ◌++◌, [], ◌∷◌, ◌/◌, ◌%◌, IfOk, OnErr, OnOk, length};
ghost use Rattle.capture_records.specs.Capture.{HasNumber, bytes_of_record, payload_of, record_of};
ghost use Rattle.text_out.specs.Devices.{Moved, Wrote};
ghost use Rattle.text_out.specs.Members.{reading_of, writing_of};
ghost use Rattle.line_captures.specs.Conversions.{AnswersConversion};

use capture_records::{
    CAPTURE_ROOM, ReadBuffer, ReadStep, Record, RecordFormat, Step, is_complete,
};
use event_sinks::{ReplayStop, SinkStop};
use feed_types::VenueId;
use std::alloc::{AllocError, Global};
use text_out::{CaptureIn, TextOut, WriteStop, write_all};

/// How many bytes of records wait at most for the writer.
const PAGE: usize = 131_072;

/// How many may wait before another record is read: as many as leave room for a longest one, which
/// has 65,539.
const FULL: usize = 65_533;

/// Takes the memory for the bytes of a capture, and for those of records.
fn make_buffers(alloc: Global) -> Result<(ReadBuffer<CAPTURE_ROOM>, ReadBuffer<PAGE>), AllocError>
    ensures { IfOk result (λ made. (made.0 ≡ []) × (made.1 ≡ [])) }
{
    Ok((ReadBuffer::new(alloc)?, ReadBuffer::new(alloc)?))
}

/// Appends the bytes of a record of this kind, with the bytes that its length counts.
#[inline(always)]
fn put_bytes(page: &mut ReadBuffer<PAGE>, venue: VenueId, kind: u8, payload: &[u8])
    requires len { length payload.now < 65536 }
    requires room { length page.old ≤ 65533 }
    ensures { page.new ≡ page.old ++ (venue ∷ kind ∷ length payload.now / 256
        ∷ length payload.now % 256 ∷ payload.now) }
{
    let len = payload.len();
    page.push(&[
        venue.index() as u8,
        kind,
        (len / 256) as u8,
        (len % 256) as u8,
    ]);
    page.push(payload);
}

/// Appends the bytes of a record.
#[inline(always)]
#[tactic(auto, unfolding(capture_records::specs::Capture::number_bytes))]
fn put_record(page: &mut ReadBuffer<PAGE>, next: &Record<'_>)
    requires len { length (payload_of (record_of next.now)) < 65536 }
    requires number { HasNumber (record_of next.now) }
    requires room { length page.old ≤ 65533 }
    ensures { page.new ≡ page.old ++ bytes_of_record (record_of next.now) }
{
    match next {
        Record::Datagram { venue, line, bytes } => put_bytes(page, *venue, line.letter(), bytes),
        Record::Renewal { venue, session } => put_bytes(page, *venue, b'N', session),
        Record::Skip { venue, number } => put_bytes(page, *venue, b'K', &number.to_be_bytes()),
        Record::SelfHelp { venue, on: true } => put_bytes(page, *venue, b'H', &[]),
        Record::SelfHelp { venue, on: false } => put_bytes(page, *venue, b'W', &[]),
    }
}

/// Writes all of the page.
#[inline(never)]
fn write_page<W: TextOut>(page: &mut ReadBuffer<PAGE>, writer: &mut W) -> Result<(), SinkStop>
    ensures written { OnOk result (Moved W.adds writer.old writer.new page.old page.new) }
    ensures none { OnOk result (page.new ≡ []) }
    ensures failed { OnErr result (W.failures writer.new ≡ W.failures writer.old + 1) }
    ensures part { OnErr result (Wrote W.adds writer.old page.old writer.new) }
    ensures kept { OnOk result (W.failures writer.new ≡ W.failures writer.old) }
{
    match write_all(page.bytes(), writer) {
        Ok(()) => {
            page.advance(page.len());
            Ok(())
        }
        Err(WriteStop::Failed) => Err(SinkStop::Failed),
    }
}

/// Writes all of the page, once it has no room for a longest record.
#[inline(always)]
fn write_full<W: TextOut>(page: &mut ReadBuffer<PAGE>, writer: &mut W) -> Result<(), SinkStop>
    ensures written { OnOk result (Moved W.adds writer.old writer.new page.old page.new) }
    ensures room { OnOk result (length page.new ≤ 65533) }
    ensures failed { OnErr result (W.failures writer.new ≡ W.failures writer.old + 1) }
    ensures part { OnErr result (Wrote W.adds writer.old page.old writer.new) }
    ensures kept { OnOk result (W.failures writer.new ≡ W.failures writer.old) }
{
    if page.len() > FULL {
        return write_page(page, writer);
    }
    Ok(())
}

/// Reads a capture of any format to its end, by at most `turns` calls of the reader, and writes its
/// records in the project's own format, in order. What is ready is written before each call of the
/// reader. Its memory, some 1.3 MB, is asked for before anything is read.
pub fn convert<R: CaptureIn, F: RecordFormat, W: TextOut>(
    alloc: Global,
    turns: u64,
    format: &mut F,
    reader: &mut R,
    writer: &mut W,
) -> Result<(), ReplayStop<F::Fault>>
    ensures { AnswersConversion
        (reading_of R.CaptureIn)
        (record { reads = F.reads; wants = F.wants; is_bad = F.is_bad; is_whole = F.is_whole })
        (writing_of W.TextOut)
        (F.venues format.old) turns reader.old reader.new format.old format.new
        writer.old writer.new result }
{
    let Ok((mut unread, mut page)) = make_buffers(alloc) else {
        return Err(ReplayStop::NoMemory);
    };
    let mut left = turns;
    'pieces: loop {
        match format.next(unread.bytes()) {
            Step::Came { record, len, .. } => {
                put_record(&mut page, &record);
                unread.advance(len);
                write_full(&mut page, writer)?;
            }
            Step::Passed(len) => unread.advance(len),
            Step::Bad(fault) => {
                write_page(&mut page, writer)?;
                return Err(ReplayStop::Bad(fault));
            }
            Step::Wants => {
                write_page(&mut page, writer)?;
                if left == 0 {
                    return Err(ReplayStop::TooManyTurns);
                }
                left -= 1;
                match unread.read_from(reader) {
                    ReadStep::Went => {}
                    ReadStep::Failed => return Err(ReplayStop::ReadFailed),
                    ReadStep::Ended if is_complete(format, &unread) => return Ok(()),
                    ReadStep::Ended => return Err(ReplayStop::Short),
                }
            }
        }
    }
}
