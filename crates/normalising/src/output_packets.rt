//! Items as packets.
ghost use Rattle.std.specs.Prelude.{◌≡◌, ◌⊎◌, ℕ, ◌+◌, ◌^◌, ◌≤◌, List, [], ◌∷◌, length, IfOk, OnErr, OnOk};
ghost use Rattle.std.specs.List.{AllByRecursion};
ghost use Rattle.feed_types.specs.declared.item.Item.{Item};
ghost use Rattle.feed_types.specs.Sessions.{end_item, numbered_from};
ghost use Rattle.mold_packet.specs.Body.{body_kind, body_messages};
ghost use Rattle.mold_packet.specs.declared.packet.Kind.TheVariants as kinds;
ghost use Rattle.normalising.specs.Carried.{IsMessageItem, RunsFrom, end_of_kind};
ghost use Rattle.capture_records.specs.Capture.{renewal_record, self_help_record};
ghost use Rattle.text_out.specs.Devices.{Wrote};
ghost use Rattle.text_out.specs.Members.{writing_of};
ghost use Rattle.normalising.specs.Texts.{begun_text, record_text};
ghost use Rattle.normalising.specs.Writes.{PutsFront, PutsPackets, PutsText};

use crate::output_form::OutputForm;
use crate::output_page::OutputPage;
use crate::packet_origin::PacketOrigin;
use capture_writing::MOST_BYTES;
use event_sinks::SinkStop;
use feed_types::{Numbered, SessionName, VenueId};
use item_packets::{end_number, first_number, messages_before_end, write_items};
use mold_packet::{Body, write_packet};
use std::alloc::{AllocError, Global};
use text_out::TextOut;

/// The output that waits, and the room in which its packets are made.
#[derive(Drop)]
pub(crate) struct OutputPackets<'a> {
    pub(crate) page: OutputPage<'a>,
    packet: Vec<u8>,
    pub ghost has_room: { length packet.items ≡ 65507 },
}

/// Writes the packets of messages in a row from a number on, as few as can be.
fn put_messages<W: TextOut>(
    page: &mut OutputPage<'_>,
    origin: &PacketOrigin,
    number: u64,
    items: &[Numbered],
    packet: &mut [u8],
    writer: &mut W,
) -> Result<(), SinkStop>
    requires from_one { 1 ≤ number }
    requires in_range { number + length items.now ≤ 2 ^ 64 }
    requires room { length packet.old ≡ 65507 }
    ensures put { OnOk result ((last : ℕ) (its : List Item)
        → items.now ≡ numbered_from number its → AllByRecursion IsMessageItem its → PutsPackets
        (writing_of W.TextOut) page.old.form origin.now last items.now
        writer.old writer.new page.old.page page.new.page) }
    ensures front { OnErr result ((last : ℕ) (its : List Item)
        → items.now ≡ numbered_from number its → AllByRecursion IsMessageItem its → PutsFront
        (writing_of W.TextOut) page.old.form origin.now last items.now
        writer.old writer.new page.old.page) }
    ensures form { page.new.form ≡ page.old.form }
    ensures room { length packet.new ≡ 65507 }
{
    let mut from = 0;
    'packets: while from < items.len() {
        let written = write_items(
            &origin.session,
            number + from as u64,
            &items[from..],
            packet,
        );
        page.put_datagram(origin, &packet[..written.len], writer)?;
        from += written.count;
    }
    Ok(())
}

/// Writes a packet without messages.
fn put_without_messages<W: TextOut>(
    page: &mut OutputPage<'_>,
    origin: &PacketOrigin,
    number: u64,
    body: Body<'_>,
    packet: &mut [u8],
    writer: &mut W,
) -> Result<(), SinkStop>
    requires from_one { 1 ≤ number }
    requires empty { body_messages body ≡ [] }
    requires kind { body_kind body ≡ kinds.Messages → ⊥ }
    requires room { length packet.old ≡ 65507 }
    ensures put { OnOk result ((last : ℕ)
        → (body_kind body.entry ≡ kinds.Heartbeat → number ≡ last + 1)
        → PutsPackets (writing_of W.TextOut)
        page.old.form origin.now last (end_of_kind (body_kind body.entry) number)
        writer.old writer.new page.old.page page.new.page) }
    ensures front { OnErr result ((last : ℕ)
        → PutsFront (writing_of W.TextOut)
        page.old.form origin.now last (end_of_kind (body_kind body.entry) number)
        writer.old writer.new page.old.page) }
    ensures form { page.new.form ≡ page.old.form }
    ensures room { length packet.new ≡ 65507 }
{
    match write_packet(&origin.session, number, body, packet) {
        Ok(len) => page.put_datagram(origin, &packet[..len], writer),
        Err(_) => unreachable!(),
    }
}

impl<'a> OutputPackets<'a> {
    /// Takes the memory, and begins the file.
    pub(crate) fn new(alloc: Global, form: OutputForm<'a>) -> Result<OutputPackets<'a>, AllocError>
        ensures form { IfOk result (λ p. p.page.form ≡ form.entry) }
        ensures begun { IfOk result (λ p. p.page.page ≡ begun_text form.entry) }
    {
        let page = OutputPage::new(alloc, form)?;
        let packet = vec![in alloc; 0u8; MOST_BYTES]?;
        Ok(OutputPackets { page, packet })
    }

    /// Writes all that waits.
    pub(crate) fn write<W: TextOut>(&mut self, writer: &mut W) -> Result<(), SinkStop>
        ensures written { OnOk result (W.adds writer.old self.old.page.page writer.new) }
        ensures none { OnOk result (self.new.page.page ≡ []) }
        ensures part { OnErr result (Wrote W.adds writer.old self.old.page.page writer.new) }
        ensures kept { OnOk result (W.failures writer.new ≡ W.failures writer.old) }
        ensures failed { OnErr result (W.failures writer.new ≡ W.failures writer.old + 1) }
        ensures form { self.new.page.form ≡ self.old.page.form }
    {
        self.page.write(writer)
    }

    /// Appends that a venue's next session begins; nothing to a savefile, which has none but
    /// datagrams.
    pub(crate) fn put_renewal<W: TextOut>(
        &mut self,
        venue: VenueId,
        session: &SessionName,
        writer: &mut W,
    ) -> Result<(), SinkStop>
        ensures taken { OnOk result (PutsText
            (writing_of W.TextOut) writer.old writer.new
            self.old.page.page (record_text self.old.page.form (renewal_record venue session.now))
            self.new.page.page) }
        ensures part { OnErr result (Wrote W.adds writer.old self.old.page.page writer.new) }
        ensures failed { OnErr result (W.failures writer.new ≡ W.failures writer.old + 1) }
        ensures form { self.new.page.form ≡ self.old.page.form }
    {
        self.page.put_renewal(venue, session, writer)
    }

    /// Appends a declaration of self-help, or that it is withdrawn; nothing to a savefile.
    pub(crate) fn put_self_help<W: TextOut>(
        &mut self,
        venue: VenueId,
        on: bool,
        writer: &mut W,
    ) -> Result<(), SinkStop>
        ensures taken { OnOk result (PutsText
            (writing_of W.TextOut) writer.old writer.new
            self.old.page.page (record_text self.old.page.form (self_help_record venue on))
            self.new.page.page) }
        ensures part { OnErr result (Wrote W.adds writer.old self.old.page.page writer.new) }
        ensures failed { OnErr result (W.failures writer.new ≡ W.failures writer.old + 1) }
        ensures form { self.new.page.form ≡ self.old.page.form }
    {
        self.page.put_self_help(venue, on, writer)
    }

    /// Writes a packet without messages.
    pub(crate) fn put_empty<W: TextOut>(
        &mut self,
        origin: &PacketOrigin,
        number: u64,
        body: Body<'_>,
        writer: &mut W,
    ) -> Result<(), SinkStop>
        requires from_one { 1 ≤ number }
        requires empty { body_messages body ≡ [] }
        requires kind { body_kind body ≡ kinds.Messages → ⊥ }
        ensures put { OnOk result ((last : ℕ)
            → (body_kind body.entry ≡ kinds.Heartbeat → number ≡ last + 1)
            → PutsPackets (writing_of W.TextOut)
            self.old.page.form origin.now last (end_of_kind (body_kind body.entry) number)
            writer.old writer.new self.old.page.page self.new.page.page) }
        ensures front { OnErr result ((last : ℕ)
            → PutsFront (writing_of W.TextOut)
            self.old.page.form origin.now last (end_of_kind (body_kind body.entry) number)
            writer.old writer.new self.old.page.page) }
        ensures form { self.new.page.form ≡ self.old.page.form }
    {
        let packet = self.packet.as_mut_slice();
        put_without_messages(&mut self.page, origin, number, body, packet, writer)
    }

    /// Writes the packets of messages in a row.
    fn put_run<W: TextOut>(
        &mut self,
        origin: &PacketOrigin,
        items: &[Numbered],
        writer: &mut W,
    ) -> Result<(), SinkStop>
        ensures put { OnOk result ((last first : ℕ) (its : List Item)
            → 1 ≤ first → items.now ≡ numbered_from first its
            → AllByRecursion IsMessageItem its → PutsPackets
            (writing_of W.TextOut) self.old.page.form origin.now last
            items.now writer.old writer.new self.old.page.page self.new.page.page) }
        ensures front { OnErr result ((last first : ℕ) (its : List Item)
            → 1 ≤ first → items.now ≡ numbered_from first its
            → AllByRecursion IsMessageItem its → PutsFront
            (writing_of W.TextOut) self.old.page.form origin.now last
            items.now writer.old writer.new self.old.page.page) }
        ensures form { self.new.page.form ≡ self.old.page.form }
    {
        let Some(number) = first_number(items) else {
            return Ok(());
        };
        let packet = self.packet.as_mut_slice();
        put_messages(&mut self.page, origin, number, items, packet, writer)
    }

    /// Writes the end of a session, where there is one.
    fn put_end<W: TextOut>(
        &mut self,
        origin: &PacketOrigin,
        ends: &[Numbered],
        writer: &mut W,
    ) -> Result<(), SinkStop>
        ensures put { OnOk result ((last number : ℕ) → 1 ≤ number
            → (ends.now ≡ []) ⊎ (ends.now ≡ end_item number ∷ []) → PutsPackets
            (writing_of W.TextOut) self.old.page.form origin.now last
            ends.now writer.old writer.new self.old.page.page self.new.page.page) }
        ensures front { OnErr result ((last number : ℕ) → 1 ≤ number
            → (ends.now ≡ []) ⊎ (ends.now ≡ end_item number ∷ []) → PutsFront
            (writing_of W.TextOut) self.old.page.form origin.now last
            ends.now writer.old writer.new self.old.page.page) }
        ensures form { self.new.page.form ≡ self.old.page.form }
    {
        let Some(number) = end_number(ends) else {
            return Ok(());
        };
        self.put_empty(origin, number, Body::End, writer)
    }

    /// Writes the packets of items in a row, of which the last may be the end.
    pub(crate) fn put_items<W: TextOut>(
        &mut self,
        origin: &PacketOrigin,
        items: &[Numbered],
        writer: &mut W,
    ) -> Result<(), SinkStop>
        ensures put { OnOk result ((last first : ℕ) → 1 ≤ first
            → RunsFrom first items.now → PutsPackets
            (writing_of W.TextOut) self.old.page.form origin.now last
            items.now writer.old writer.new self.old.page.page self.new.page.page) }
        ensures front { OnErr result ((last first : ℕ) → 1 ≤ first
            → RunsFrom first items.now → PutsFront
            (writing_of W.TextOut) self.old.page.form origin.now last
            items.now writer.old writer.new self.old.page.page) }
        ensures form { self.new.page.form ≡ self.old.page.form }
    {
        let count = messages_before_end(items);
        self.put_run(origin, &items[..count], writer)?;
        self.put_end(origin, &items[count..], writer)
    }
}
