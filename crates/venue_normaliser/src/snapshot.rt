//! A snapshot of a venue's live orders.

ghost use Rattle.std.specs.Prelude.{◌≡◌, ℕ, ◌<◌, ◌≤◌, ◌++◌, IfErr, IfNone, IfOk, IfSome, IsTrue, length, slice_index, true, false};
ghost use Rattle.mold_packet.specs.Block.{IsCut, IsMessage, block};
ghost use Rattle.itch_messages.specs.Forms.{is_one_of, silent_forms};
ghost use Rattle.venue_normaliser.specs.Inside.{HasStated};
ghost use Rattle.feed_types.specs.Symbols.{is_space};
ghost use Rattle.venue_normaliser.specs.Snapshots.{EndsSnapshot, HasDigits, HasSnapshotFault, IsNumberField, IsSnapshot, digits_value, is_digit, is_end_form, is_of_snapshot};

use crate::snapshot_fault::SnapshotFault;
use itch_messages::{OrderEvent, read_event};
use std::marker::Model;

/// The greatest number of a session's message after a snapshot: a replay's journal has no more
/// entries.
const GREATEST_NUMBER: u64 = 4_294_967_295;

/// The bytes of an End of Snapshot: its type, and the number in 20 bytes.
const END_LEN: usize = 21;

/// A snapshot that was read: the messages before its end, and the number of the session's message
/// that follows it. It borrows its messages from the bytes.
#[derive(Debug, Drop)]
pub struct Snapshot<'a> {
    /// The blocks of the messages, and nothing else.
    pub(crate) blocks: &'a [u8],
    pub(crate) count: usize,
    pub(crate) number: u64,
}

impl<'a> Model for Snapshot<'a> {
    ghost use Rattle.std.specs.Prelude.{◌*◌, ◌≤◌};
    ghost use Rattle.mold_packet.specs.Block.{AreBlocks, blocks_at};
    ghost use Rattle.venue_normaliser.specs.Snapshots.{SnapshotContent};

    ghost Value = { SnapshotContent };

    ghost view = { λ s. record { messages = blocks_at s.count s.blocks.now; number = s.number } };

    ghost invariant = { λ s. AreBlocks s.count s.blocks.now × (1 ≤ s.number) };
}

/// Returns the message of the block at the front, and what follows the block; `None` where it is
/// cut.
#[inline]
pub(crate) fn first_message(bytes: &[u8]) -> Option<(&[u8], &[u8])>
    ensures message { IfSome result (λ r. IsMessage r.0.now) }
    ensures found { IfSome result (λ r. bytes.now ≡ block r.0.now ++ r.1.now) }
    ensures cut { IfNone result (IsCut bytes.now) }
{
    match bytes {
        [high, low, rest @ ..] => {
            let len = usize::from(u16::from_be_bytes([*high, *low]));
            if rest.len() < len {
                return None;
            }
            Some(rest.split_at(len))
        }
        _ => None,
    }
}

/// Returns whether the message is of a form of the standard that says nothing of orders, round lots
/// and halts.
fn is_silent(message: &[u8]) -> bool
    ensures { result ≡ is_one_of silent_forms message.now }
{
    let Some(kind) = message.first() else {
        return false;
    };
    match *kind {
        b'S' | b'W' => message.len() == 12,
        b'Y' | b'N' => message.len() == 20,
        b'L' => message.len() == 26,
        b'V' | b'J' => message.len() == 35,
        b'K' => message.len() == 28,
        b'P' => message.len() == 44,
        b'Q' => message.len() == 40,
        b'B' => message.len() == 19,
        b'I' => message.len() == 50,
        b'O' => message.len() == 48,
        _ => false,
    }
}

/// Returns whether a snapshot may have the message: it states an order, a round lot or a halt, or
/// says nothing of these.
fn is_stated(message: &[u8]) -> bool
    ensures { result ≡ is_of_snapshot message.now }
{
    match read_event(message) {
        OrderEvent::Add(_) | OrderEvent::RoundLot { .. } | OrderEvent::Halt { .. } => true,
        OrderEvent::Reduce { .. } | OrderEvent::Delete { .. } | OrderEvent::Replace(_) => false,
        OrderEvent::Other => is_silent(message),
    }
}

/// Returns whether the message is an End of Snapshot by its type and length.
fn is_end(message: &[u8]) -> bool
    ensures form { result ≡ is_end_form message.now }
    ensures len { IsTrue result → length message.now ≡ 21 }
{
    message.len() == END_LEN && message[0] == b'G'
}

/// Returns whether a byte is a space.
fn is_blank(byte: u8) -> bool
    ensures { result ≡ is_space byte }
{
    byte == b' '
}

/// Returns whether a byte is a digit.
fn is_decimal(byte: u8) -> bool
    ensures { result ≡ is_digit byte }
{
    b'0' <= byte && byte <= b'9'
}

/// Returns the place of the first byte that isn't a space, from a place on; the length where all
/// are.
fn after_spaces(field: &[u8], from: usize) -> usize
    requires { from ≤ length field.now }
    ensures from { from ≤ result }
    ensures within { result ≤ length field.now }
    ensures spaces { (k : ℕ) → from ≤ k → k < result → is_space (slice_index field.now k) ≡ true }
    ensures stops { result < length field.now → is_space (slice_index field.now result) ≡ false }
{
    for place in from..field.len() {
        if !is_blank(field[place]) {
            return place;
        }
    }
    field.len()
}

/// Returns the place of the first byte that is no digit, from a place on; the length where all are.
fn after_digits(field: &[u8], from: usize) -> usize
    requires { from ≤ length field.now }
    ensures from { from ≤ result }
    ensures within { result ≤ length field.now }
    ensures digits { (k : ℕ) → from ≤ k → k < result → is_digit (slice_index field.now k) ≡ true }
    ensures stops { result < length field.now → is_digit (slice_index field.now result) ≡ false }
{
    for place in from..field.len() {
        if !is_decimal(field[place]) {
            return place;
        }
    }
    field.len()
}

/// Returns from which place to which the digits of a field stand, between spaces.
#[tactic(auto, using(crate::proofs::Numbers::stops_found, crate::proofs::Numbers::stops_none))]
fn digits_in(field: &[u8]) -> Option<(usize, usize)>
    ensures found { IfSome result (λ r. HasDigits field.now r.0 r.1) }
    ensures none { IfNone result ((from to : ℕ) → HasDigits field.now from to → ⊥) }
{
    let from = after_spaces(field, 0);
    let to = after_digits(field, from);
    let end = after_spaces(field, to);
    if to == from || end != field.len() {
        return None;
    }
    Some((from, to))
}

/// Returns the number that digits are; `None` where it is greater than 4,294,967,295.
#[tactic(auto, using(crate::proofs::Numbers::value_more, crate::proofs::Numbers::value_part))]
fn value_of(digits: &[u8]) -> Option<u64>
    ensures is { IfSome result (λ value. value ≡ digits_value digits.now) }
    ensures most { IfSome result (λ value. value ≤ 4294967295) }
    ensures greater { IfNone result (4294967295 < digits_value digits.now) }
{
    let mut value: u64 = 0;
    for digit in digits {
        value = value * 10 + u64::from(digit.saturating_sub(b'0'));
        if value > GREATEST_NUMBER {
            return None;
        }
    }
    Some(value)
}

/// Returns the number of a field of digits with spaces before and after them, where it is one of 1
/// to 4,294,967,295.
fn number_in(field: &[u8]) -> Option<u64>
    ensures is { IfSome result (λ number. IsNumberField field.now number) }
    ensures one { IfSome result (λ number. 1 ≤ number) }
    ensures most { IfSome result (λ number. number ≤ 4294967295) }
    ensures none { IfNone result ((number : ℕ) → IsNumberField field.now number → 1 ≤ number
        → number ≤ 4294967295 → ⊥) }
{
    let (from, to) = digits_in(field)?;
    let number = value_of(&field[from..to])?;
    if number == 0 {
        return None;
    }
    Some(number)
}

/// Returns the number of an End of Snapshot; `None` where it has none.
fn end_number_of(message: &[u8]) -> Option<u64>
    requires form { is_end_form message.now ≡ true }
    requires len { length message.now ≡ 21 }
    ensures ends { IfSome result (λ number. EndsSnapshot message.now number) }
    ensures none { IfNone result ((number : ℕ) → EndsSnapshot message.now number → ⊥) }
{
    match number_in(&message[1..]) {
        Some(number) => Some(number),
        None => None,
    }
}

/// Reads what follows the messages of a snapshot and is a message that it has only at its end.
#[tactic(auto, using(crate::proofs::Snapshotting::end_faults))]
fn read_end<'a>(
    bytes: &'a [u8],
    count: usize,
    rest: &[u8],
    message: &[u8],
    after: &[u8],
) -> Result<Snapshot<'a>, SnapshotFault>
    requires stated { HasStated count bytes.now rest.now }
    requires found { rest.now ≡ block message.now ++ after.now }
    requires fits { IsMessage message.now }
    requires none { is_of_snapshot message.now ≡ false }
    ensures read { IfOk result (λ s. IsSnapshot bytes.now s.messages s.number) }
    ensures fault { IfErr result (HasSnapshotFault bytes.now) }
{
    let byte = bytes.len() - rest.len();
    if !is_end(message) {
        return Err(SnapshotFault::NotOfSnapshot { byte });
    }
    let Some(number) = end_number_of(message) else {
        return Err(SnapshotFault::BadNumber { byte });
    };
    if !after.is_empty() {
        return Err(SnapshotFault::AfterEnd {
            byte: bytes.len() - after.len(),
        });
    }
    Ok(Snapshot {
        blocks: &bytes[..byte],
        count,
        number,
    })
}

/// Returns why bytes that have no end are no snapshot, of which `rest` is no whole message.
#[tactic(auto, using(crate::proofs::Snapshotting::faults_without_end))]
fn without_end(bytes: &[u8], count: usize, rest: &[u8]) -> SnapshotFault
    requires stated { HasStated count bytes.now rest.now }
    requires cut { IsCut rest.now }
    ensures { HasSnapshotFault bytes.now result }
{
    let byte = bytes.len() - rest.len();
    if rest.is_empty() {
        SnapshotFault::NoEnd { byte }
    } else {
        SnapshotFault::Cut { byte }
    }
}

/// Reads a snapshot of a venue's live orders: messages of ITCH, each after its length in two bytes,
/// high byte first. Each states what stands when the snapshot is made: an order (`A`, `F`), a
/// symbol's round lot (`R`) or its halt (`H`, `h`), or is of one of the forms that say nothing of
/// these. The last one is an End of Snapshot: `G`, and the number of the session's message that
/// follows the snapshot, 1 to 4,294,967,295, in 20 bytes: digits, with spaces before and after
/// them.
///
/// A fault is the first that the bytes have: a message is cut, the end is missing, a message has
/// another form, the end has no such number, or bytes follow the end.
#[tactic(auto, using(crate::proofs::Snapshotting::stated_none))]
pub fn read_snapshot(bytes: &[u8]) -> Result<Snapshot<'_>, SnapshotFault>
    ensures read { IfOk result (λ s. IsSnapshot bytes.now s.messages s.number) }
    ensures fault { IfErr result (HasSnapshotFault bytes.now) }
{
    let mut rest = bytes;
    let mut count: usize = 0;
    while let Some((message, after)) = first_message(rest) {
        if !is_stated(message) {
            return read_end(bytes, count, rest, message, after);
        }
        rest = after;
        count += 1;
    }
    Err(without_end(bytes, count, rest))
}

impl<'a> Snapshot<'a> {
    /// Returns the number of the session's message that follows the snapshot, at least 1.
    pub fn number(&self) -> u64
        ensures { result ≡ self.now.number }
    {
        self.number
    }
}
