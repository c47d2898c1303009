//! The printed lines of `specs/Lines.antt`.
//!
//! There is room for a whole line after the text; its parts are placed there, and then the text
//! ends after them. Where a text grows, room is made first, and where that is refused the text is
//! unchanged.
ghost use Rattle.std.specs.Prelude.{◌≡◌, ◌+◌, ◌<◌, ◌≤◌, ◌++◌, codes, length, IsTrue, Ok, OnOk, OnErr};
ghost use Rattle.text_out.specs.Fields.{field};
ghost use Rattle.event_sinks.specs.Lines.{line_end, packet_head, packet_line, fault_line, refused_tail, outcome_tail, item_word, item_line, side_field, state_tail, best_line, gap_line, renew_line, skip_line, on_word, declare_line, venue_line, wins_by};
ghost use Rattle.feed_types.specs.Text.{best_text};
ghost use Rattle.text_out.specs.Pages.{KeepsRoom, Puts};
ghost use Rattle.text_out.specs.Placing.{Placed};
ghost use Rattle.journal_book.specs.Changes.{notice_of};

use feed_types::{Best, Item, LineId, NationalState, Numbered, VenueId};
use line_arbiter::{LineFault, Outcome, RenewFault, SkipFault};
use mold_packet::Request;
use nbbo_book::Change;
use std::alloc::AllocError;
use text_out::{
    LineBuffer, place, place_field, place_name, place_number, place_price, place_short_field,
    place_venue, place_word,
};

/// Room for a venue's last line.
const VENUE_LINE: usize = 128;

/// Places the head of a datagram's line: its venue and its line.
#[inline(always)]
fn place_packet_head(room: &mut [u8], at: usize, venue: VenueId, line: LineId) -> usize
    requires { at + 17 ≤ length room.old }
    ensures placed { Placed room.old room.new at (packet_head venue line) result }
    ensures short { result ≤ at + 17 }
{
    let at = place_word(room, at, *b"packet  ", 6);
    let at = place_venue(room, at, venue);
    place(room, at, [b' ', line.letter()])
}

/// Places the tail of a line with a refusal's code.
#[inline(always)]
fn place_refused(room: &mut [u8], at: usize, code: u8) -> usize
    requires { at + 18 ≤ length room.old }
    ensures placed { Placed room.old room.new at (refused_tail code) result }
    ensures short { result ≤ at + 18 }
{
    let at = place_word(room, at, *b" refused", 8);
    let at = place_short_field(room, at, u16::from(code));
    place(room, at, *b"\n")
}

/// Whether both counts have one digit.
#[inline(always)]
#[tactic(auto, using(std::proofs::lemmas::Nat::le_or_l, std::proofs::lemmas::Nat::le_or_r))]
fn are_digits(new: u16, repeated: u16) -> bool
    ensures { IsTrue result → (new < 10) × (repeated < 10) }
{
    new | repeated < 10
}

/// Places the tail of a taken packet's line whose counts have one digit, as most have: its parts
/// have fixed places.
#[inline(always)]
fn place_digits(room: &mut [u8], at: usize, new: u16, repeated: u16) -> usize
    requires room { at + 14 ≤ length room.old }
    requires digits { (new < 10) × (repeated < 10) }
    ensures placed { let tail = outcome_tail (Ok (Outcome.Taken new repeated)) in
        Placed room.old room.new at tail result }
    ensures short { result ≤ at + 11 }
{
    let (new, repeated) = (b'0' + new as u8, b'0' + repeated as u8);
    let at = place_word(room, at, *b" taken  ", 6);
    place_word(room, at, [b' ', new, b' ', repeated, b'\n', 0, 0, 0], 5)
}

/// Places the tail of any taken packet's line.
#[inline(never)]
fn place_counts(room: &mut [u8], at: usize, new: u16, repeated: u16) -> usize
    requires { at + 25 ≤ length room.old }
    ensures placed { let tail = outcome_tail (Ok (Outcome.Taken new repeated)) in
        Placed room.old room.new at tail result }
    ensures short { result ≤ at + 25 }
{
    let at = place_word(room, at, *b" taken  ", 6);
    let at = place_short_field(room, at, new);
    let at = place_short_field(room, at, repeated);
    place(room, at, *b"\n")
}

/// Places the tail of a taken packet's line: how many messages are new, and how many came before.
#[inline(always)]
fn place_taken(room: &mut [u8], at: usize, new: u16, repeated: u16) -> usize
    requires { at + 25 ≤ length room.old }
    ensures placed { let tail = outcome_tail (Ok (Outcome.Taken new repeated)) in
        Placed room.old room.new at tail result }
    ensures short { result ≤ at + 25 }
{
    if are_digits(new, repeated) {
        return place_digits(room, at, new, repeated);
    }
    place_counts(room, at, new, repeated)
}

/// Places the tail of any datagram's line: the outcome of its packet.
#[inline(never)]
fn place_any_outcome(room: &mut [u8], at: usize, outcome: Result<Outcome, LineFault>) -> usize
    requires { at + 25 ≤ length room.old }
    ensures placed { Placed room.old room.new at (outcome_tail outcome) result }
    ensures short { result ≤ at + 25 }
{
    match outcome {
        Ok(Outcome::Taken { new, repeated }) => place_counts(room, at, new, repeated),
        Ok(Outcome::Heartbeat) => place(room, at, *b" heartbeat\n"),
        Ok(Outcome::Ended) => place(room, at, *b" ended\n"),
        Ok(Outcome::Ahead) => place(room, at, *b" ahead\n"),
        Err(fault) => place_refused(room, at, fault.code()),
    }
}

/// Places the tail of a datagram's line: the outcome of its packet, most often that it was taken.
#[inline(always)]
fn place_outcome(room: &mut [u8], at: usize, outcome: &Result<Outcome, LineFault>) -> usize
    requires { at + 25 ≤ length room.old }
    ensures placed { Placed room.old room.new at (outcome_tail outcome.now) result }
    ensures short { result ≤ at + 25 }
{
    match *outcome {
        Ok(Outcome::Taken { new, repeated }) => place_taken(room, at, new, repeated),
        _ => place_any_outcome(room, at, *outcome),
    }
}

/// Places the line of any datagram whose packet was answered.
#[inline(always)]
fn place_packet(
    room: &mut [u8],
    at: usize,
    venue: VenueId,
    line: LineId,
    outcome: &Result<Outcome, LineFault>,
) -> usize
    requires { at + 42 ≤ length room.old }
    ensures { Placed room.old room.new at (packet_line venue line outcome.now) result }
{
    let at = place_packet_head(room, at, venue, line);
    place_outcome(room, at, outcome)
}

/// Appends the line of a datagram whose packet was answered.
#[inline(always)]
pub(crate) fn put_packet(
    text: &mut LineBuffer,
    venue: VenueId,
    line: LineId,
    outcome: &Result<Outcome, LineFault>,
)
    requires { 64 ≤ text.old.room }
    ensures { Puts text.old (packet_line venue line outcome.now) text.new }
{
    let at = text.end;
    let room = text.bytes.as_mut_slice();
    text.end = place_packet(room, at, venue, line, outcome);
}

/// Appends the line of a datagram that is no packet. It is rare, and so a call of its own.
#[inline(never)]
pub(crate) fn put_fault(text: &mut LineBuffer, venue: VenueId, line: LineId, code: u8)
    requires { 64 ≤ text.old.room }
    ensures { Puts text.old (fault_line venue line code) text.new }
{
    let at = text.end;
    let room = text.bytes.as_mut_slice();
    let at = place_packet_head(room, at, venue, line);
    let at = place_refused(room, at, code);
    text.end = at;
}

/// Places the tail of an item's line: what the item is.
#[inline(always)]
fn place_item_word(room: &mut [u8], at: usize, item: &Item) -> usize
    requires { at + 9 ≤ length room.old }
    ensures { Placed room.old room.new at (item_word item.now ++ line_end) result }
{
    match item {
        Item::Quote(_) => place_word(room, at, *b" quote\n ", 7),
        Item::Halt { halted: true, .. } => place_word(room, at, *b" halt\n  ", 6),
        Item::Halt { halted: false, .. } => place(room, at, *b" trading\n"),
        Item::Other => place_word(room, at, *b" other\n ", 7),
        Item::Skipped => place(room, at, *b" skipped\n"),
        Item::End => place_word(room, at, *b" end\n   ", 5),
    }
}

/// Places the head of an item's line: its venue.
#[inline(always)]
fn place_item_head(room: &mut [u8], at: usize, venue: VenueId) -> usize
    requires { at + 14 ≤ length room.old }
    ensures placed { Placed room.old room.new at (codes "item" ++ field venue ++ codes " ") result }
    ensures short { result ≤ at + 14 }
{
    let at = place(room, at, *b"item");
    let at = place_venue(room, at, venue);
    place(room, at, [b' '])
}

/// Appends the line of an item that was ready.
#[inline(always)]
pub(crate) fn put_item(text: &mut LineBuffer, venue: VenueId, item: &Numbered)
    requires { 64 ≤ text.old.room }
    ensures { Puts text.old (item_line venue item.now) text.new }
{
    let at = text.end;
    let room = text.bytes.as_mut_slice();
    let at = place_item_head(room, at, venue);
    let at = place_number(room, at, item.number);
    let at = place_item_word(room, at, &item.item);
    text.end = at;
}

/// Places the head of a side of a national best: its venue.
#[inline(always)]
fn place_best_head(room: &mut [u8], at: usize, venue: VenueId) -> usize
    requires { at + 10 ≤ length room.old }
    ensures placed { Placed room.old room.new at (field venue ++ codes ":") result }
    ensures short { result ≤ at + 10 }
{
    let at = place_venue(room, at, venue);
    place(room, at, *b":")
}

/// Places a side of a national best: the venue, the price and the size.
#[inline(always)]
fn place_best(room: &mut [u8], at: usize, best: &Best) -> usize
    requires { at + 44 ≤ length room.old }
    ensures placed { Placed room.old room.new at (codes " " ++ best_text best.now) result }
    ensures short { result ≤ at + 44 }
{
    let at = place_best_head(room, at, best.venue);
    let at = place_price(room, at, best.price);
    let at = place(room, at, *b"x");
    place_number(room, at, best.size)
}

/// Places a side of a national best, if there is one, after a space.
#[inline(always)]
fn place_side(room: &mut [u8], at: usize, side: &Option<Best>) -> usize
    requires { at + 44 ≤ length room.old }
    ensures placed { Placed room.old room.new at (side_field side.now) result }
    ensures short { result ≤ at + 44 }
{
    match side {
        Some(best) => place_best(room, at, best),
        None => place(room, at, *b" none"),
    }
}

/// Places the tail of a best line: the state of the two sides.
#[inline(always)]
fn place_state(room: &mut [u8], at: usize, state: NationalState) -> usize
    requires { at + 11 ≤ length room.old }
    ensures { Placed room.old room.new at (state_tail state) result }
{
    match state {
        NationalState::Empty => place_word(room, at, *b" empty\n ", 7),
        NationalState::OneSided => place(room, at, *b" one-sided\n"),
        NationalState::Normal => place(room, at, *b" normal\n"),
        NationalState::Locked => place(room, at, *b" locked\n"),
        NationalState::Crossed => place(room, at, *b" crossed\n"),
    }
}

/// Appends the line of a change of the national best, under this number.
#[inline(never)]
pub fn put_change(text: &mut LineBuffer, number: u64, change: &Change)
    requires { 192 ≤ text.old.room }
    ensures { Puts text.old (best_line (notice_of number change.now)) text.new }
{
    let at = text.end;
    let room = text.bytes.as_mut_slice();
    let at = place_word(room, at, *b"best    ", 5);
    let at = place_number(room, at, number);
    let at = place_field(room, at, change.position);
    let at = place(room, at, *b" ");
    let at = place_name(room, at, change.symbol);
    let at = place_side(room, at, &change.national.bid);
    let at = place_side(room, at, &change.national.offer);
    let at = place_state(room, at, change.national.state());
    text.end = at;
}

/// Appends the line of the run of messages to ask for.
pub(crate) fn put_gap(text: &mut LineBuffer, venue: VenueId, request: &Request)
    requires { 64 ≤ text.old.room }
    ensures { Puts text.old (gap_line venue request.now) text.new }
{
    let at = text.end;
    let room = text.bytes.as_mut_slice();
    let at = place(room, at, *b"gap");
    let at = place_venue(room, at, venue);
    let at = place_field(room, at, request.number);
    let at = place_short_field(room, at, request.count);
    let at = place(room, at, *b"\n");
    text.end = at;
}

/// Places whether self-help is declared or withdrawn.
#[inline(always)]
fn place_on(room: &mut [u8], at: usize, on: bool) -> usize
    requires { at + 8 ≤ length room.old }
    ensures placed { Placed room.old room.new at (on_word on) result }
    ensures short { result ≤ at + 4 }
{
    if on {
        place(room, at, *b" on")
    } else {
        place(room, at, *b" off")
    }
}

/// Appends the line of a declaration: the position of its entry, or that it is declared already.
pub(crate) fn put_declared(text: &mut LineBuffer, venue: VenueId, on: bool, position: Option<u64>)
    requires { 64 ≤ text.old.room }
    ensures { Puts text.old (declare_line venue on position) text.new }
{
    let at = text.end;
    let room = text.bytes.as_mut_slice();
    let at = place_word(room, at, *b"declare ", 7);
    let at = place_venue(room, at, venue);
    let at = place_on(room, at, on);
    let at = match position {
        Some(position) => {
            let at = place_field(room, at, position);
            place(room, at, *b"\n")
        }
        None => place(room, at, *b" already\n"),
    };
    text.end = at;
}

/// Appends the line of a renewal: the ordinal of the session that begins, or why none does.
pub(crate) fn put_renewal(text: &mut LineBuffer, venue: VenueId, renewal: &Result<u64, RenewFault>)
    requires { 64 ≤ text.old.room }
    ensures { Puts text.old (renew_line venue renewal.now) text.new }
{
    let at = text.end;
    let room = text.bytes.as_mut_slice();
    let at = place(room, at, *b"renew");
    let at = place_venue(room, at, venue);
    let at = match *renewal {
        Ok(ordinal) => {
            let at = place_field(room, at, ordinal);
            place(room, at, *b"\n")
        }
        Err(fault) => place_refused(room, at, fault.code()),
    };
    text.end = at;
}

/// Appends the line of a skip: the number to go on from, or why nothing is given up.
pub(crate) fn put_skip(
    text: &mut LineBuffer,
    venue: VenueId,
    number: u64,
    skip: &Result<(), SkipFault>,
)
    requires { 64 ≤ text.old.room }
    ensures { Puts text.old (skip_line venue number skip.now) text.new }
{
    let at = text.end;
    let room = text.bytes.as_mut_slice();
    let at = place(room, at, *b"skip");
    let at = place_venue(room, at, venue);
    let at = match *skip {
        Ok(()) => {
            let at = place_field(room, at, number);
            place(room, at, *b"\n")
        }
        Err(fault) => place_refused(room, at, fault.code()),
    };
    text.end = at;
}

/// Appends the last line of a venue: how many items were sent, and how many numbers came first on
/// A, on B and by recovery.
pub(crate) fn put_last(
    text: &mut LineBuffer,
    venue: VenueId,
    sent: u64,
    a: u64,
    b: u64,
    recovery: u64,
)
    requires { 128 ≤ text.old.room }
    ensures { Puts text.old (venue_line venue sent (wins_by a b recovery)) text.new }
{
    let at = text.end;
    let room = text.bytes.as_mut_slice();
    let at = place(room, at, *b"venue");
    let at = place_venue(room, at, venue);
    let at = place(room, at, *b" sent");
    let at = place_field(room, at, sent);
    let at = place(room, at, *b" wins");
    let at = place_field(room, at, a);
    let at = place_field(room, at, b);
    let at = place_field(room, at, recovery);
    let at = place(room, at, *b"\n");
    text.end = at;
}

/// Appends the last line of a venue to a text that grows: how many items were sent, and how many
/// numbers came first on A, on B and by recovery.
pub fn put_venue(
    text: &mut LineBuffer,
    venue: VenueId,
    sent: u64,
    a: u64,
    b: u64,
    recovery: u64,
) -> Result<(), AllocError>
    ensures line { OnOk result
        (text.new.items ≡ text.old.items ++ venue_line venue sent (wins_by a b recovery)) }
    ensures part { OnErr result (text.new.items ≡ text.old.items) }
    ensures room { KeepsRoom text.old text.new result }
{
    text.make_room(VENUE_LINE)?;
    put_last(text, venue, sent, a, b, recovery);
    Ok(())
}
