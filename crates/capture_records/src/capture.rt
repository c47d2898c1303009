//! The records of a capture.
ghost use Rattle.std.specs.Prelude.{◌≡◌, ◌≢◌, ◌<◌, ◌≤◌, ◌+◌, ◌^◌, MatchOption, length};
ghost use Rattle.std.specs.Option.{SomeIff};
ghost use Rattle.capture_records.specs.Capture.{HasNumber, IsKind, StandsAtFront, kind_byte, number_bytes, payload_of, record_of, record_venue};
ghost use Rattle.capture_records.specs.Kind.{IsKindOf, MayHave, byte_of};

use feed_types::{LineId, SessionName, VenueId};

/// The number of bytes before those that a record's length counts.
const HEADER: usize = 4;

/// A record of a capture, which borrows its bytes.
#[derive(Clone, Copy, Debug, PartialEq, Eq)]
pub enum Record<'a> {
    /// The bytes of one datagram, as they came on a line: at most 65,535.
    Datagram {
        venue: VenueId,
        line: LineId,
        bytes: &'a [u8],
    },
    /// The name of the venue's next session.
    Renewal {
        venue: VenueId,
        session: SessionName,
    },
    /// What is missing at the venue below the number is given up.
    Skip {
        venue: VenueId,
        number: u64,
    },
    /// Self-help on the venue is declared, or withdrawn.
    SelfHelp {
        venue: VenueId,
        on: bool,
    },
}

/// The answer of [`parse_record`].
#[derive(Clone, Copy, Debug, PartialEq, Eq)]
pub enum Parse<'a> {
    /// A whole record, and its length in bytes: from 4 to 65,539.
    Whole(Record<'a>, usize),
    /// No record, however the bytes go on: of a venue or a kind that isn't there, a renewal whose
    /// length isn't 10, a skip whose length isn't 8, or a declaration whose length isn't 0.
    Bad,
    /// Less than a record. This number of bytes, with those that are there, is needed to go on.
    Wants(usize),
}

/// The kind of a record.
#[derive(Clone, Copy, Debug, PartialEq, Eq)]
enum RecordType {
    Line(LineId),
    Renewal,
    Skip,
    SelfHelp(bool),
}

/// Returns the kind of a byte that is no line's letter, with a length, if there is one. Few records
/// have such a byte.
#[inline(never)]
fn other_kind(byte: u8, len: usize) -> Option<RecordType>
    requires { (byte ≢ 65) × (byte ≢ 66) × (byte ≢ 82) }
    ensures { MatchOption result (IsKind byte len → ⊥) (IsKindOf byte len) }
{
    match byte {
        b'N' if len == 10 => Some(RecordType::Renewal),
        b'K' if len == 8 => Some(RecordType::Skip),
        b'H' if len == 0 => Some(RecordType::SelfHelp(true)),
        b'W' if len == 0 => Some(RecordType::SelfHelp(false)),
        _ => None,
    }
}

/// Returns the kind of a byte with a length, if there is one.
#[inline(always)]
fn kind_from(byte: u8, len: usize) -> Option<RecordType>
    ensures { MatchOption result (IsKind byte len → ⊥) (IsKindOf byte len) }
{
    match byte {
        b'A' => Some(RecordType::Line(LineId::A)),
        b'B' => Some(RecordType::Line(LineId::B)),
        b'R' => Some(RecordType::Line(LineId::Recovery)),
        _ => other_kind(byte, len),
    }
}

/// Returns the venue of a byte, where it is below `venues`.
fn venue_from(venues: usize, byte: u8) -> Option<VenueId>
    requires { venues ≤ 16 }
    ensures { SomeIff result (byte < venues) byte }
{
    if usize::from(byte) < venues {
        VenueId::new(byte)
    } else {
        None
    }
}

/// Copies ten bytes as a session's name.
fn name_from(bytes: &[u8]) -> SessionName
    requires { length bytes.now ≡ 10 }
    ensures { result ≡ bytes.now }
{
    let mut session = [0; 10];
    session.copy_from_slice(bytes);
    session
}

/// Reads eight bytes as a number, the first one first.
#[tactic(auto, unfolding(crate::specs::Capture::number_bytes))]
fn number_from(bytes: &[u8]) -> u64
    requires { length bytes.now ≡ 8 }
    ensures { number_bytes result ≡ bytes.now }
{
    let mut number = [0; 8];
    number.copy_from_slice(bytes);
    u64::from_be_bytes(number)
}

/// Makes the record of a kind, with the bytes that its length counts.
#[inline(always)]
fn record_from(venue: VenueId, kind: RecordType, held: &[u8]) -> Record<'_>
    requires { MayHave kind (length held.now) }
    ensures venue { record_venue (record_of result) ≡ venue }
    ensures kind { kind_byte (record_of result) ≡ byte_of kind }
    ensures payload { payload_of (record_of result) ≡ held.now }
    ensures fits { IsKind (byte_of kind) (length held.now) }
    ensures number { HasNumber (record_of result) }
{
    match kind {
        RecordType::Line(line) => Record::Datagram {
            venue,
            line,
            bytes: held,
        },
        RecordType::Renewal => Record::Renewal {
            venue,
            session: name_from(held),
        },
        RecordType::Skip => Record::Skip {
            venue,
            number: number_from(held),
        },
        RecordType::SelfHelp(on) => Record::SelfHelp { venue, on },
    }
}

/// Reads the record at the front of `bytes`, in a capture of `venues` venues.
// With a second caller this and Venues::take were left calls, which took some 50 instructions a
// record: the answer went through memory. tests/instructions counts them.
#[inline(always)]
pub fn parse_record(venues: usize, bytes: &[u8]) -> Parse<'_>
    requires { venues ≤ 16 }
    ensures { StandsAtFront venues bytes.now result }
{
    if bytes.len() < HEADER {
        return Parse::Wants(HEADER);
    }
    let len = usize::from(bytes[2]) * 256 + usize::from(bytes[3]);
    let Some(venue) = venue_from(venues, bytes[0]) else {
        return Parse::Bad;
    };
    let Some(kind) = kind_from(bytes[1], len) else {
        return Parse::Bad;
    };
    if bytes.len() < HEADER + len {
        return Parse::Wants(HEADER + len);
    }
    let held = &bytes[HEADER..HEADER + len];
    Parse::Whole(record_from(venue, kind, held), HEADER + len)
}
