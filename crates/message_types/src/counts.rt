//! The counts of messages by venue, line and type.
ghost use Rattle.std.specs.Prelude.{◌≡◌, ◌<◌, [], ◌∷◌, length, replicate, slice_index_or, slice_set};
ghost use Rattle.feed_types.specs.FullCounts.{count_after};
ghost use Rattle.message_types.specs.TypeCounts.{AddsCounts, CountsDatagram, type_count_at, count_place, place_of_line};

use crate::types::TYPES;
use feed_types::{LineId, VenueId};
use message_forms::itch_place;
use mold_packet::{Packet, read_packet};

/// The number of counts: for 16 venues three lines, and for each of these 24 types.
const PLACES: usize = 1_152;

/// How many messages of each type came on each line of each venue. A count stays at 2^64 - 1.
#[derive(Clone, Copy, Debug)]
pub struct TypeCounts {
    /// The types of line A of venue 0, then those of its line B and of what came as a reply, then
    /// those of venue 1, and so on.
    pub each: [u64; 1_152],
}

/// Returns the place of a line among the three of a venue.
fn place_of_line(line: LineId) -> usize
    ensures place { result ≡ place_of_line line }
    ensures within { result < 3 }
{
    match line {
        LineId::A => 0,
        LineId::B => 1,
        LineId::Recovery => 2,
    }
}

/// Returns the place of the count of a type, 0 to 23, on a line of a venue.
fn count_place(venue: VenueId, line: LineId, place: usize) -> usize
    requires { place < 24 }
    ensures place { result ≡ count_place venue line place }
    ensures within { result < 1152 }
{
    (venue.index() * 3 + place_of_line(line)) * TYPES + place
}

/// Counts one more at a place.
fn add_one(counts: &mut [u64], place: usize)
    requires { place < length counts.old }
    ensures added { counts.new ≡ slice_set counts.old place
        (count_after (slice_index_or counts.old place 0) 1) }
    ensures within { place < length counts.old }
{
    counts[place] = counts[place].saturating_add(1);
}

impl TypeCounts {
    /// Counts of nothing.
    pub fn new() -> TypeCounts
        ensures { result.each ≡ replicate 1152 0 }
    {
        TypeCounts { each: [0; PLACES] }
    }

    /// Returns how many messages of the type at a place, 0 to 23, came on a line of a venue.
    pub(crate) fn at(&self, venue: VenueId, line: LineId, place: usize) -> u64
        requires { place < 24 }
        ensures { result ≡ type_count_at self.now venue line place }
    {
        self.each[count_place(venue, line, place)]
    }

    /// Counts a message.
    fn count_message(&mut self, venue: VenueId, line: LineId, message: &[u8])
        ensures { AddsCounts self.old (record {
          venue = venue;
          line = line;
          messages = message.now ∷ [];
        } ∷ []) self.new }
    {
        let place = count_place(venue, line, itch_place(message));
        add_one(&mut self.each, place);
    }

    /// Counts the messages of a packet.
    fn count_packet(&mut self, venue: VenueId, line: LineId, packet: &Packet<'_>)
        ensures { AddsCounts self.old (record {
          venue = venue;
          line = line;
          messages = packet.now.messages;
        } ∷ []) self.new }
    {
        for message in packet.messages() {
            self.count_message(venue, line, message);
        }
    }

    /// Counts the messages of a datagram of a line. One that is no packet has none.
    pub(crate) fn count_datagram(&mut self, venue: VenueId, line: LineId, bytes: &[u8])
        ensures { CountsDatagram self.old venue line bytes.now self.new }
    {
        match read_packet(bytes) {
            Ok(packet) => self.count_packet(venue, line, &packet),
            Err(_) => {}
        }
    }
}
