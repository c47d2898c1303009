//! A venue in ITCH, and the datagrams of what its messages make.
ghost use Rattle.std.specs.Prelude.{◌≡◌, ℕ, ◌≤◌, true, false, List, [], IfOk, OnErr, OnOk, slice_get};
ghost use Rattle.feed_types.specs.declared.item.Numbered.{Numbered};
ghost use Rattle.line_arbiter.specs.Packets.{Input};
ghost use Rattle.line_arbiter.specs.States.{KeepsItsSession, ordinal_of};
ghost use Rattle.venue_normaliser.specs.Outputs.{IsPutOut};
ghost use Rattle.venue_normaliser.specs.States.{FitsPackets, KeepsItsBook};
ghost use Rattle.item_packets.specs.Carried.{RunsFrom};
ghost use Rattle.item_packets.specs.Packed.{ArePacked, bytes_of_each};
ghost use Rattle.itch_lines.specs.Sections.{BeginsOrKeeps, BringsEnd, MakesOfPacket, BringsSkip, MakesOfDatagram, name_following};

use feed_types::{Item, LineId, Numbered, SessionName};
use itch_book::BookFault;
use item_packets::PackingRoom;
use line_arbiter::{LineFault, Outcome, SkipFault};
use mold_packet::{Packet, read_packet};
use std::alloc::{AllocError, Global};
use std::collections::VecDeque;
use venue_normaliser::VenueNormaliser;

/// A venue in ITCH: its normaliser, and what it makes.
#[derive(Drop)]
pub(crate) struct ItchVenue {
    pub(crate) normaliser: VenueNormaliser,
    /// The names of the sessions that follow the first one, in order.
    pub(crate) names: Vec<SessionName>,
    ready: Vec<Numbered>,
    room: PackingRoom,
    alloc: Global,
    /// The number of the last item that was put out of the present session.
    last: u64,
    /// Whether that is the end.
    is_over: bool,
}

/// What a section has done with a datagram.
#[derive(Clone, Copy, Debug)]
pub(crate) struct DatagramTaken {
    /// The name of the session that has begun at it, if one has.
    pub(crate) begun: Option<SessionName>,
}

/// Returns the name at this place, if there is one.
fn name_at(names: &[SessionName], place: usize) -> Option<SessionName>
    ensures { result ≡ slice_get names.now place }
{
    match names.get(place) {
        Some(name) => Some(*name),
        None => None,
    }
}

impl ItchVenue {
    /// Makes the venue of a normaliser to which nothing was given, whose first session these
    /// follow.
    pub(crate) fn new(
        alloc: Global,
        normaliser: VenueNormaliser,
        names: Vec<SessionName>,
    ) -> Result<ItchVenue, AllocError>
        ensures venue { IfOk result (λ v. v.normaliser ≡ normaliser) }
        ensures names { IfOk result (λ v. v.names ≡ names) }
    {
        Ok(ItchVenue {
            normaliser,
            names,
            ready: Vec::new(alloc),
            room: PackingRoom::new(alloc)?,
            alloc,
            last: 0,
            is_over: false,
        })
    }

    /// Notes which item was put out last.
    fn note_last(&mut self)
        ensures normaliser { self.new.normaliser ≡ self.old.normaliser }
        ensures names { self.new.names ≡ self.old.names }
        ensures ready { self.new.ready ≡ self.old.ready }
    {
        if let Some(last) = self.ready.last() {
            self.last = last.number;
            self.is_over = matches!(last.item, Item::End);
        }
    }

    /// Makes the datagrams of what is ready.
    fn pack_ready(&mut self, made: &mut VecDeque<Vec<u8>>) -> Result<(), BookFault>
        requires none { made.old.items ≡ [] }
        ensures packed { OnOk result ((first : ℕ) → 1 ≤ first
            → RunsFrom first self.old.ready.items
            → ArePacked self.old.normaliser.lines.session self.old.ready.items
            (bytes_of_each made.new.items)) }
        ensures normaliser { self.new.normaliser ≡ self.old.normaliser }
        ensures names { self.new.names ≡ self.old.names }
    {
        self.note_last();
        let session = self.normaliser.session();
        self.room.pack(&session, self.ready.as_slice(), made)?;
        Ok(())
    }

    /// Takes a packet, and makes the datagrams of what is put out more.
    pub(crate) fn take_packet(
        &mut self,
        line: LineId,
        packet: &Packet<'_>,
        made: &mut VecDeque<Vec<u8>>,
    ) -> Result<Result<Outcome, LineFault>, BookFault>
        requires none { made.old.items ≡ [] }
        ensures takes { IfOk result (λ answer. (packets : List Input) (put : List Numbered)
            → FitsPackets self.old.normaliser packets
            → IsPutOut self.old.normaliser.book.keys packets put
            → MakesOfPacket line packet.now answer self.old.normaliser self.new.normaliser
            packets put (bytes_of_each made.new.items)) }
        ensures kept { OnOk result
            (KeepsItsSession self.old.normaliser.lines self.new.normaliser.lines
            × KeepsItsBook self.old.normaliser self.new.normaliser) }
        ensures names { self.new.names ≡ self.old.names }
    {
        self.ready.clear();
        let answer = self.normaliser.take(line, packet, &mut self.ready)?;
        self.pack_ready(made)?;
        Ok(answer)
    }

    /// Gives up what is missing below a number, and makes the datagrams of what is put out more.
    pub(crate) fn skip_to(
        &mut self,
        number: u64,
        made: &mut VecDeque<Vec<u8>>,
    ) -> Result<Result<(), SkipFault>, BookFault>
        requires none { made.old.items ≡ [] }
        ensures skips { IfOk result (λ answer. OnOk answer
            ((packets : List Input) (put : List Numbered)
            → FitsPackets self.old.normaliser packets
            → IsPutOut self.old.normaliser.book.keys packets put
            → BringsSkip number self.old.normaliser self.new.normaliser packets put
            (bytes_of_each made.new.items))) }
        ensures refused { IfOk result (λ answer. OnErr answer
            ((self.new.normaliser ≡ self.old.normaliser) × (made.new.items ≡ []))) }
        ensures kept { OnOk result
            (KeepsItsSession self.old.normaliser.lines self.new.normaliser.lines
            × KeepsItsBook self.old.normaliser self.new.normaliser) }
        ensures names { self.new.names ≡ self.old.names }
    {
        self.ready.clear();
        match self.normaliser.skip_to(number, &mut self.ready)? {
            Ok(()) => {
                self.pack_ready(made)?;
                Ok(Ok(()))
            }
            Err(fault) => Ok(Err(fault)),
        }
    }

    /// Begins the session that follows the present one where that is over, all of it was sent, and
    /// the packet is of the one that is named to follow it. Returns whether that was done.
    fn renew_at(&mut self, packet: &Packet<'_>) -> Result<bool, BookFault>
        ensures renews { IfOk result (λ renewed. BeginsOrKeeps self.old.names.items packet.now
            renewed self.old.normaliser self.new.normaliser) }
        ensures names { self.new.names ≡ self.old.names }
    {
        let ordinal = self.normaliser.ordinal();
        let Some(name) = name_at(self.names.as_slice(), ordinal.saturating_sub(1) as usize) else {
            return Ok(false);
        };
        if packet.session() != name {
            return Ok(false);
        }
        match self.normaliser.renew(self.alloc, name)? {
            Ok(_) => {
                self.last = 0;
                self.is_over = false;
                Ok(true)
            }
            Err(_) => Ok(false),
        }
    }

    /// Takes a datagram, before which the next session begins where it is due, and makes the
    /// datagrams of what is put out more.
    pub(crate) fn take(
        &mut self,
        line: LineId,
        bytes: &[u8],
        made: &mut VecDeque<Vec<u8>>,
    ) -> Result<DatagramTaken, BookFault>
        requires none { made.old.items ≡ [] }
        ensures takes { OnOk result ((packets : List Input) (put : List Numbered)
            → FitsPackets self.old.normaliser packets
            → IsPutOut self.old.normaliser.book.keys packets put
            → MakesOfDatagram self.old.names.items line bytes.now self.old.normaliser
            self.new.normaliser packets put (bytes_of_each made.new.items)) }
        ensures kept { OnOk result (KeepsItsBook self.old.normaliser self.new.normaliser
            × (self.new.normaliser.lines.venue ≡ self.old.normaliser.lines.venue)) }
        ensures names { self.new.names ≡ self.old.names }
    {
        let packet = match read_packet(bytes) {
            Ok(packet) => packet,
            Err(_) => return Ok(DatagramTaken { begun: None }),
        };
        let renewed = self.renew_at(&packet)?;
        let _answer = self.take_packet(line, &packet, made)?;
        Ok(DatagramTaken {
            begun: if renewed {
                Some(packet.session())
            } else {
                None
            },
        })
    }

    /// Makes the datagram of an end of the session after what was put out of it, unless it has
    /// ended.
    pub(crate) fn end_output(&mut self, made: &mut VecDeque<Vec<u8>>)
        ensures end { BringsEnd (bytes_of_each made.new.items) }
        ensures normaliser { self.new.normaliser ≡ self.old.normaliser }
        ensures names { self.new.names ≡ self.old.names }
    {
        made.clear();
        if self.is_over {
            return;
        }
        let end = [Numbered {
            number: self.last.saturating_add(1),
            item: Item::End,
        }];
        let session = self.normaliser.session();
        if self.room.pack(&session, &end, made).is_err() {
            made.clear();
        }
    }
}
