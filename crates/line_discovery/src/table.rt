//! The table of the lines that were seen.
ghost use Rattle.std.specs.Prelude.{◌≡◌, ◌+◌, ◌≤◌, [], ◌∷◌, ◌++◌, Some, true, IfOk, length, slice_get, vec_capacity};
ghost use Rattle.indexmap.specs.IndexSet.{index_set_len, spare};
ghost use Rattle.line_discovery.specs.declared.line_row.LineRow.{LineRow};
ghost use Rattle.line_discovery.specs.KeyedRows.{AreApart, rows_grown};
ghost use Rattle.line_discovery.specs.Keys.{same_key};
ghost use Rattle.line_discovery.specs.Tables.{by_line, keys_of, listed_in, packets_at, row_with, rows_of, unlisted_of, up_to_most};

use crate::endpoint_packet::EndpointPacket;
use crate::line_key::LineKey;
use crate::line_row::LineRow;
use feed_types::Past;
use indexmap::IndexSet;
use std::alloc::{AllocError, Global};
use std::marker::Model;

/// The most rows of a table.
const MOST: usize = 4_096;

/// A row for each line that was seen, in the order in which they first were, at most 4,096.
/// Contracts see the datagrams.
#[derive(Drop)]
pub struct EndpointTable {
    /// The rows' keys, in order: a key has the place of its row.
    keys: IndexSet<LineKey>,
    rows: Vec<LineRow>,
    count: u64,
    past: Past<EndpointPacket>,
}

impl Model for EndpointTable {
    ghost use Rattle.std.specs.Prelude.{◌≡◌, ◌+◌, List, ◌≤◌, vec_capacity};
    ghost use Rattle.indexmap.specs.IndexSet.{index_set_len, spare};
    ghost use Rattle.line_discovery.specs.declared.endpoint_packet.EndpointPacket.{EndpointPacket};
    ghost use Rattle.line_discovery.specs.Tables.{IsLineTable, keys_of};

    ghost Value = { List EndpointPacket };

    ghost view = { λ t. t.past.items };

    ghost invariant = { λ t.
        IsLineTable t.rows.items t.count t.past.items × (t.keys.keys ≡ keys_of t.rows.items)
        × (4096 ≤ vec_capacity t.rows) × (4096 ≤ index_set_len t.keys + spare t.keys) };
}

/// Counts a datagram in the row at this place, which is that of its line.
fn grow_at(rows: &mut [LineRow], place: usize, sighting: &EndpointPacket)
    requires apart { AreApart by_line rows.old }
    requires found { (row : LineRow) × (slice_get rows.old place ≡ Some row)
        × (same_key row.key sighting.now.key ≡ true) }
    ensures { rows.new ≡ rows_grown by_line row_with rows.old sighting.now }
{
    rows[place].grow(sighting);
}

/// Counts a datagram in the row of its line, in a new one where there is none, unless there are
/// 4,096.
fn count_in(keys: &mut IndexSet<LineKey>, rows: &mut Vec<LineRow>, sighting: &EndpointPacket)
    requires apart { AreApart by_line rows.old.items }
    requires keyed { keys.old.keys ≡ keys_of rows.old.items }
    requires room { 4096 ≤ vec_capacity rows.old }
    requires spare { 4096 ≤ index_set_len keys.old + spare keys.old }
    requires few { length rows.old.items ≤ 4096 }
    ensures rows { rows.new.items ≡ rows_grown by_line row_with rows.old.items sighting.now }
    ensures keyed { keys.new.keys ≡ keys_of rows.new.items }
    ensures room { 4096 ≤ vec_capacity rows.new }
    ensures spare { 4096 ≤ index_set_len keys.new + spare keys.new }
{
    match keys.get_index_of(&sighting.key) {
        Some(place) => grow_at(rows.as_mut_slice(), place, sighting),
        None if rows.len() < MOST => {
            let mut row = LineRow::empty(sighting.key);
            row.grow(sighting);
            let _is_new = keys.insert(sighting.key).unwrap();
            rows.push_reserved(row);
        }
        None => {}
    }
}

/// How many datagrams the row of this key has, 0 without one.
fn packets_at(keys: &IndexSet<LineKey>, rows: &[LineRow], key: &LineKey) -> u64
    requires { keys.now.keys ≡ keys_of rows.now }
    ensures { result ≡ packets_at rows.now key.now }
{
    match keys.get_index_of(key) {
        Some(place) => rows[place].packets,
        None => 0,
    }
}

/// How many datagrams the rows have.
fn listed_in(rows: &[LineRow]) -> u64
    ensures { result ≡ listed_in rows.now }
{
    let mut listed: u64 = 0;
    for row in rows {
        listed = listed.saturating_add(row.packets);
    }
    listed
}

impl EndpointTable {
    /// Returns the table of no datagram. It takes all its memory, some 500 kB.
    pub(crate) fn new(alloc: Global) -> Result<EndpointTable, AllocError>
        ensures { IfOk result (λ t. t ≡ []) }
    {
        Ok(EndpointTable {
            keys: IndexSet::with_capacity(alloc, MOST)?,
            rows: Vec::with_capacity(alloc, MOST)?,
            count: 0,
            past: Past::new(),
        })
    }

    /// Counts one more datagram.
    pub(crate) fn count(&mut self, sighting: &EndpointPacket)
        ensures { self.new ≡ self.old ++ sighting.now ∷ [] }
    {
        count_in(&mut self.keys, &mut self.rows, sighting);
        self.count = self.count.saturating_add(1);
        self.past = self.past.with(sighting);
    }

    /// Returns the rows.
    pub fn rows(&self) -> &[LineRow]
        ensures { result.now ≡ rows_of self.now }
    {
        self.rows.as_slice()
    }

    /// Returns how many datagrams the row of this key has, 0 without one.
    pub(crate) fn packets_of(&self, key: &LineKey) -> u64
        ensures { result ≡ packets_at (rows_of self.now) key.now }
    {
        packets_at(&self.keys, self.rows.as_slice(), key)
    }

    /// Returns how many datagrams came.
    pub fn total(&self) -> u64
        ensures { result ≡ up_to_most (length self.now) }
    {
        self.count
    }

    /// Returns how many datagrams are in no row.
    pub fn unlisted(&self) -> u64
        ensures { result ≡ unlisted_of self.now }
    {
        self.count.saturating_sub(listed_in(self.rows.as_slice()))
    }
}
