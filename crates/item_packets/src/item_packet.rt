//! The packet of the first items of a row.
ghost use Rattle.std.specs.Prelude.{◌≡◌, ℕ, ◌+◌, ◌^◌, ◌≤◌, List, [], ◌++◌, length, take, drop};
ghost use Rattle.std.specs.List.{AllByRecursion};
ghost use Rattle.feed_types.specs.declared.item.Item.{Item};
ghost use Rattle.feed_types.specs.Sessions.{numbered_from};
ghost use Rattle.mold_packet.specs.Content.{Spells};
ghost use Rattle.mold_packet.specs.Writing.{WritesFirst};
ghost use Rattle.item_packets.specs.Carried.{IsMessageItem, items_carried};
ghost use Rattle.item_packets.specs.Filled.{AreItemBlocks, IsMost, blocks_of, packet_of_items};

use feed_types::{Numbered, SessionName};
use mold_packet::{HEADER_LEN, write_block, write_header};
use venue_normaliser::MessageForm;

/// Items at the front of a buffer.
#[derive(Clone, Copy, Debug, PartialEq, Eq)]
pub struct WrittenItems {
    /// How many items they are.
    pub count: usize,
    /// How many bytes they take.
    pub len: usize,
}

/// Writes the blocks of the first items, as many as fit, to the front of `out`.
fn write_blocks(items: &[Numbered], out: &mut [u8]) -> WrittenItems
    ensures blocks { AreItemBlocks items.now result.count result.len }
    ensures most { IsMost (length out.old) items.now result.count }
    ensures some { 36 ≤ length out.old → 1 ≤ length items.now → 1 ≤ result.count }
    ensures written { out.new
        ≡ blocks_of result.count items.now ++ drop result.len out.old }
{
    let mut len = 0;
    let mut count = 0;
    for numbered in items {
        let form = MessageForm::new(&numbered.item);
        let message = form.as_bytes();
        if out.len() - len < 2 + message.len() {
            return WrittenItems { count, len };
        }
        write_block(message, &mut out[len..]);
        len += 2 + message.len();
        count += 1;
    }
    WrittenItems { count, len }
}

/// Writes the packet of the first items, as many as fit, to the front of `out`, and returns how
/// many these are, at least one, and how many bytes the packet has.
///
/// The first item has the number `number`, at least 1; the last one's is at most 2^64 - 1. There is
/// at least one, and `out` has 65,507 bytes.
pub fn write_items(
    session: &SessionName,
    number: u64,
    items: &[Numbered],
    out: &mut [u8],
) -> WrittenItems
    requires from_one { 1 ≤ number }
    requires in_range { number + length items.now ≤ 2 ^ 64 }
    requires there { 1 ≤ length items.now }
    requires room { length out.old ≡ 65507 }
    ensures some { 1 ≤ result.count }
    ensures most { IsMost 65487 items.now result.count }
    ensures spelled { Spells (take result.len out.new)
        (packet_of_items session.now number result.count items.now) [] }
    ensures carried { (its : List Item)
        → items.now ≡ numbered_from number its → AllByRecursion IsMessageItem its
        → items_carried (packet_of_items session.now number result.count items.now)
        ≡ take result.count items.now }
    ensures first { WritesFirst result.len out.old out.new }
    ensures room { length out.new ≡ 65507 }
{
    let blocks = write_blocks(items, &mut out[HEADER_LEN..]);
    write_header(session, number, blocks.count as u16, out);
    WrittenItems {
        count: blocks.count,
        len: HEADER_LEN + blocks.len,
    }
}
