//! Joining a venue's session at the first packet that comes of it.

ghost use Rattle.std.specs.Prelude.{◌≡◌, MatchBool};
ghost use Rattle.line_arbiter.specs.Histories.{History};
ghost use Rattle.venue_lines.specs.Cells.{CellFitsHistory};
ghost use Rattle.venue_lines.specs.Joins.{BeginsPast, JoinsFirst, JoinsIf, StaysWithin};

use crate::cell::VenueCell;
use feed_steps::FeedName;
use feed_types::Genuine;
use mold_packet::{Kind, Packet};

/// Whether a packet of this kind, with these numbers, isn't past an announced end.
fn stays_within(end: Option<u64>, kind: Kind, number: u64, last: u64) -> bool
    ensures { MatchBool result (StaysWithin end kind number last)
        (StaysWithin end kind number last → ⊥) }
{
    let Some(end) = end else {
        return true;
    };
    match kind {
        Kind::Messages => last < end,
        Kind::Heartbeat => number <= end,
        Kind::End => number == end,
    }
}

/// Whether the cell's session begins at the packet, past its first message: no message of it was
/// taken or given up, and the packet is of it, and isn't past an announced end.
fn begins_past<G: Genuine, N: FeedName>(cell: &VenueCell<G, N>, packet: &Packet<'_>) -> bool
    ensures { (h : History) → CellFitsHistory cell.now h
        → MatchBool result (BeginsPast h cell.now.arbiter.sent packet.now)
        (BeginsPast h cell.now.arbiter.sent packet.now → ⊥) }
{
    let arbiter = cell.arbiter();
    let cursors = arbiter.status();
    let number = packet.number();
    if cursors.front > 0 || cursors.held > 0 || number <= 1 {
        return false;
    }
    if packet.session() != arbiter.session() {
        return false;
    }
    stays_within(cursors.end, packet.kind(), number, packet.last_number())
}

/// Gives up what is missing before the packet, where the cell's session begins at it past its first
/// message. Returns whether that was done.
fn join_at<G: Genuine, N: FeedName>(cell: &mut VenueCell<G, N>, packet: &Packet<'_>) -> bool
    ensures { JoinsFirst packet.now result cell.old cell.new }
{
    if !begins_past(cell, packet) {
        return false;
    }
    match cell.skip_to(packet.number()) {
        Ok(()) => true,
        Err(_) => false,
    }
}

/// Joins the cell's session at the packet, as `join_at` does, where that is asked for. Returns
/// whether that was done.
#[inline(always)]
pub(crate) fn join_if_asked<G: Genuine, N: FeedName>(
    join: bool,
    cell: &mut VenueCell<G, N>,
    packet: &Packet<'_>,
) -> bool
    ensures joins { JoinsIf join packet.now result cell.old cell.new }
    ensures venue { cell.new.arbiter.venue ≡ cell.old.arbiter.venue }
{
    cell.show_lock_invariant();
    if !join {
        return false;
    }
    join_at(cell, packet)
}
