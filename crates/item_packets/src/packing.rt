//! Items in a row as datagrams.
ghost use Rattle.std.specs.Prelude.{◌≡◌, ◌⊎◌, ℕ, ◌+◌, ◌^◌, ◌≤◌, List, [], ◌∷◌, ◌++◌, length, OnOk};
ghost use Rattle.std.specs.List.{AllByRecursion};
ghost use Rattle.feed_types.specs.declared.item.Item.{Item};
ghost use Rattle.feed_types.specs.Sessions.{end_item, numbered_from};
ghost use Rattle.item_packets.specs.Carried.{IsMessageItem, RunsFrom};
ghost use Rattle.item_packets.specs.Packed.{AddsPacked, bytes_of_each};

use crate::item_packet::write_items;
use crate::item_row::{end_number, first_number, messages_before_end};
use feed_types::{Numbered, SessionName};
use mold_packet::{Body, write_packet};
use std::alloc::{AllocError, Global};
use std::collections::VecDeque;

/// The most bytes of a datagram by UDP over IPv4.
const MOST_BYTES: usize = 65_507;

/// The room in which packets are made.
#[derive(Drop)]
pub struct PackingRoom {
    packet: Vec<u8>,
    alloc: Global,
    pub ghost has_room: { length packet.items ≡ 65507 },
}

/// Appends a datagram of these bytes.
fn push_datagram(alloc: Global, bytes: &[u8], out: &mut VecDeque<Vec<u8>>) -> Result<(), AllocError>
    ensures { OnOk result (bytes_of_each out.new.items
        ≡ bytes_of_each out.old.items ++ bytes.now ∷ []) }
{
    let datagram = Vec::from_slice(alloc, bytes)?;
    out.push_back(datagram)?;
    Ok(())
}

/// Appends the packets of messages in a row from a number on, as few as can be.
fn put_messages(
    alloc: Global,
    session: &SessionName,
    number: u64,
    items: &[Numbered],
    packet: &mut [u8],
    out: &mut VecDeque<Vec<u8>>,
) -> Result<(), AllocError>
    requires from_one { 1 ≤ number }
    requires in_range { number + length items.now ≤ 2 ^ 64 }
    requires room { length packet.old ≡ 65507 }
    ensures put { OnOk result ((its : List Item)
        → items.now ≡ numbered_from number its → AllByRecursion IsMessageItem its
        → AddsPacked session.now items.now out.old.items out.new.items) }
    ensures room { length packet.new ≡ 65507 }
{
    let mut from = 0;
    'packets: while from < items.len() {
        let written = write_items(session, number + from as u64, &items[from..], packet);
        push_datagram(alloc, &packet[..written.len], out)?;
        from += written.count;
    }
    Ok(())
}

/// Appends the end of a session, where there is one.
fn put_end(
    alloc: Global,
    session: &SessionName,
    ends: &[Numbered],
    packet: &mut [u8],
    out: &mut VecDeque<Vec<u8>>,
) -> Result<(), AllocError>
    requires room { length packet.old ≡ 65507 }
    ensures put { OnOk result ((number : ℕ) → 1 ≤ number
        → (ends.now ≡ []) ⊎ (ends.now ≡ end_item number ∷ [])
        → AddsPacked session.now ends.now out.old.items out.new.items) }
    ensures room { length packet.new ≡ 65507 }
{
    let Some(number) = end_number(ends) else {
        return Ok(());
    };
    match write_packet(session, number, Body::End, packet) {
        Ok(len) => push_datagram(alloc, &packet[..len], out),
        Err(_) => unreachable!(),
    }
}

impl PackingRoom {
    /// Takes the memory of a longest datagram.
    pub fn new(alloc: Global) -> Result<PackingRoom, AllocError> {
        let packet = vec![in alloc; 0u8; MOST_BYTES]?;
        Ok(PackingRoom { packet, alloc })
    }

    /// Appends the packets of messages in a row.
    fn put_run(
        &mut self,
        session: &SessionName,
        items: &[Numbered],
        out: &mut VecDeque<Vec<u8>>,
    ) -> Result<(), AllocError>
        ensures put { OnOk result ((first : ℕ) (its : List Item)
            → 1 ≤ first → items.now ≡ numbered_from first its
            → AllByRecursion IsMessageItem its
            → AddsPacked session.now items.now out.old.items out.new.items) }
    {
        let Some(number) = first_number(items) else {
            return Ok(());
        };
        let packet = self.packet.as_mut_slice();
        put_messages(self.alloc, session, number, items, packet, out)
    }

    /// Appends to `out` the datagrams of the session of this name, ten bytes, that carry these
    /// items: items in a row, of which the last may be the end.
    ///
    /// AllocError where memory was refused; `out` has some of them then.
    pub fn pack(
        &mut self,
        session: &SessionName,
        items: &[Numbered],
        out: &mut VecDeque<Vec<u8>>,
    ) -> Result<(), AllocError>
        ensures { OnOk result ((first : ℕ) → 1 ≤ first → RunsFrom first items.now
            → AddsPacked session.now items.now out.old.items out.new.items) }
    {
        let count = messages_before_end(items);
        self.put_run(session, &items[..count], out)?;
        let packet = self.packet.as_mut_slice();
        put_end(self.alloc, session, &items[count..], packet, out)
    }
}
