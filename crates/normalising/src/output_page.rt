//! The output that waits for the writer.
ghost use Rattle.std.specs.Prelude.{◌≡◌, ◌+◌, ◌≤◌, ◌++◌, ◌∷◌, ◌/◌, ◌%◌, [], IfOk, OnErr, OnOk, length, slice_index_or};
ghost use Rattle.capture_writing.specs.Frames.{file_header};
ghost use Rattle.capture_records.specs.Capture.{bytes_of_record, datagram_record, renewal_record, self_help_record};
ghost use Rattle.text_out.specs.Devices.{Wrote};
ghost use Rattle.text_out.specs.Members.{writing_of};
ghost use Rattle.normalising.specs.Texts.{datagram_text, begun_text, nowhere, record_text};
ghost use Rattle.normalising.specs.Writes.{PutsText};

use crate::output_form::OutputForm;
use crate::packet_origin::PacketOrigin;
use capture_records::ReadBuffer;
use capture_writing::{Destination, file_header, frame_head};
use event_sinks::SinkStop;
use feed_types::{SessionName, VenueId};
use std::alloc::{AllocError, Global};
use text_out::{TextOut, WriteStop, write_all};

/// How many bytes wait at most.
const PAGE: usize = 262_144;

/// How many may wait before another record is appended: as many as leave room for a longest one.
const FULL: usize = 196_000;

/// Where the frames of a venue without a destination go.
const NOWHERE: Destination = Destination {
    address: [0; 4],
    port: 0,
};

/// The output that waits for the writer, in its form.
#[derive(Drop)]
pub(crate) struct OutputPage<'a> {
    pub(crate) form: OutputForm<'a>,
    pub(crate) page: ReadBuffer<PAGE>,
}

/// Returns where the frames of a venue go.
fn destination_of(destinations: &[Destination], venue: VenueId) -> Destination
    ensures { result ≡ slice_index_or destinations.now venue nowhere }
{
    match destinations.get(venue.index()) {
        Some(to) => *to,
        None => NOWHERE,
    }
}

/// Appends a record of the project's own format.
fn put_own(page: &mut ReadBuffer<PAGE>, venue: VenueId, kind: u8, payload: &[u8])
    requires short { length payload.now ≤ 65535 }
    requires room { length page.old + 4 + length payload.now ≤ 262144 }
    ensures { page.new ≡ page.old ++ (venue ∷ kind ∷ length payload.now / 256
        ∷ length payload.now % 256 ∷ payload.now) }
{
    let len = payload.len();
    let head = [
        venue.index() as u8,
        kind,
        (len / 256) as u8,
        (len % 256) as u8,
    ];
    page.push(&head);
    page.push(payload);
}

impl<'a> OutputPage<'a> {
    /// Takes the memory, and begins the file.
    pub(crate) fn new(alloc: Global, form: OutputForm<'a>) -> Result<OutputPage<'a>, AllocError>
        ensures form { IfOk result (λ p. p.form ≡ form.entry) }
        ensures begun { IfOk result (λ p. p.page ≡ begun_text form.entry) }
    {
        let mut page = ReadBuffer::new(alloc)?;
        if let OutputForm::Capture(_) = form {
            page.push(&file_header());
        }
        Ok(OutputPage { form, page })
    }

    /// Writes all that waits.
    pub(crate) fn write<W: TextOut>(&mut self, writer: &mut W) -> Result<(), SinkStop>
        ensures written { OnOk result (W.adds writer.old self.old.page writer.new) }
        ensures none { OnOk result (self.new.page ≡ []) }
        ensures kept { OnOk result (W.failures writer.new ≡ W.failures writer.old) }
        ensures part { OnErr result (Wrote W.adds writer.old self.old.page writer.new) }
        ensures failed { OnErr result (W.failures writer.new ≡ W.failures writer.old + 1) }
        ensures form { self.new.form ≡ self.old.form }
    {
        match write_all(self.page.bytes(), writer) {
            Ok(()) => {
                let len = self.page.len();
                self.page.advance(len);
                Ok(())
            }
            Err(WriteStop::Failed) => Err(SinkStop::Failed),
        }
    }

    /// Writes all that waits where a longest record has no room after it.
    fn make_room<W: TextOut>(&mut self, writer: &mut W) -> Result<(), SinkStop>
        ensures taken { OnOk result (PutsText
            (writing_of W.TextOut) writer.old writer.new self.old.page [] self.new.page) }
        ensures room { OnOk result (length self.new.page ≤ 196000) }
        ensures part { OnErr result (Wrote W.adds writer.old self.old.page writer.new) }
        ensures failed { OnErr result (W.failures writer.new ≡ W.failures writer.old + 1) }
        ensures form { self.new.form ≡ self.old.form }
    {
        if self.page.len() > FULL {
            return self.write(writer);
        }
        Ok(())
    }

    /// Appends a datagram of at most 65,507 bytes.
    pub(crate) fn put_datagram<W: TextOut>(
        &mut self,
        origin: &PacketOrigin,
        bytes: &[u8],
        writer: &mut W,
    ) -> Result<(), SinkStop>
        requires { length bytes.now ≤ 65507 }
        ensures taken { OnOk result (PutsText
            (writing_of W.TextOut) writer.old writer.new self.old.page
            (datagram_text self.old.form origin.now.venue origin.now.time bytes.now)
            self.new.page) }
        ensures part { OnErr result (Wrote W.adds writer.old self.old.page writer.new) }
        ensures failed { OnErr result (W.failures writer.new ≡ W.failures writer.old + 1) }
        ensures form { self.new.form ≡ self.old.form }
    {
        self.make_room(writer)?;
        match self.form {
            OutputForm::Own => put_own(&mut self.page, origin.venue, b'A', bytes),
            OutputForm::Capture(destinations) => {
                let to = destination_of(destinations, origin.venue);
                let head = frame_head(&to, origin.time, bytes);
                self.page.push(&head);
                self.page.push(bytes);
            }
        }
        Ok(())
    }

    /// Appends that a venue's next session begins; nothing to a savefile, which has none but
    /// datagrams.
    pub(crate) fn put_renewal<W: TextOut>(
        &mut self,
        venue: VenueId,
        session: &SessionName,
        writer: &mut W,
    ) -> Result<(), SinkStop>
        ensures taken { OnOk result (PutsText
            (writing_of W.TextOut) writer.old writer.new
            self.old.page (record_text self.old.form (renewal_record venue session.now))
            self.new.page) }
        ensures part { OnErr result (Wrote W.adds writer.old self.old.page writer.new) }
        ensures failed { OnErr result (W.failures writer.new ≡ W.failures writer.old + 1) }
        ensures form { self.new.form ≡ self.old.form }
    {
        self.make_room(writer)?;
        if let OutputForm::Own = self.form {
            put_own(&mut self.page, venue, b'N', session);
        }
        Ok(())
    }

    /// Appends a declaration of self-help, or that it is withdrawn; nothing to a savefile.
    pub(crate) fn put_self_help<W: TextOut>(
        &mut self,
        venue: VenueId,
        on: bool,
        writer: &mut W,
    ) -> Result<(), SinkStop>
        ensures taken { OnOk result (PutsText
            (writing_of W.TextOut) writer.old writer.new
            self.old.page (record_text self.old.form (self_help_record venue on))
            self.new.page) }
        ensures part { OnErr result (Wrote W.adds writer.old self.old.page writer.new) }
        ensures failed { OnErr result (W.failures writer.new ≡ W.failures writer.old + 1) }
        ensures form { self.new.form ≡ self.old.form }
    {
        self.make_room(writer)?;
        if let OutputForm::Own = self.form {
            put_own(&mut self.page, venue, if on { b'H' } else { b'W' }, &[]);
        }
        Ok(())
    }
}
