//! What is kept of the national bests of all symbols.
ghost use Rattle.std.specs.Prelude.{◌≡◌, ◌<◌, ℕ, [], IfOk, length, nat_eq, position, slice_index_or, true};
ghost use Rattle.feed_types.specs.Symbols.{key_of};
ghost use Rattle.event_sinks.specs.SinkEvents.{told_by};
ghost use Rattle.period_rows.specs.BestHolding.{AreBegun, AreBegunIf, AreChanged, AreNewTimes, AreRestarted, AreBestsTaken, IsNewTable, IsTakenAt, is_another};

use crate::symbol_times::SymbolTimes;
use event_sinks::ReplayedEvent;
use feed_types::{National, SymbolName};
use indexmap::IndexSet;
use std::alloc::{AllocError, Global};

/// What is kept of the national bests of symbols, and where each stands.
#[derive(Drop)]
pub struct BestTable {
    /// The symbols' keys, in order.
    pub keys: IndexSet<u64>,
    pub times: Vec<SymbolTimes>,
}

/// Returns whether the key at a place is that of the symbol there.
fn is_key_at(keys: &[u64], symbols: &[SymbolName], place: usize) -> bool
    requires keys { place < length keys.now }
    requires symbols { place < length symbols.now }
    ensures { result ≡ true → slice_index_or keys.now place 0
        ≡ key_of (slice_index_or symbols.now place []) }
{
    keys[place] == symbols[place].key()
}

/// Returns whether these are the symbols' keys, in order.
fn are_keys(keys: &[u64], symbols: &[SymbolName]) -> bool
    ensures count { result ≡ true → length keys.now ≡ length symbols.now }
    ensures each { result ≡ true → (place : ℕ) → place < length symbols.now
        → slice_index_or keys.now place 0 ≡ key_of (slice_index_or symbols.now place []) }
{
    if keys.len() != symbols.len() {
        return false;
    }
    for place in 0..symbols.len() {
        if !is_key_at(keys, symbols, place) {
            return false;
        }
    }
    true
}

/// Returns the keys of symbols. Fails where memory is refused.
fn keys_of(alloc: Global, symbols: &[SymbolName]) -> Result<IndexSet<u64>, AllocError> {
    let mut keys = IndexSet::with_capacity(alloc, symbols.len())?;
    for symbol in symbols {
        match keys.insert(symbol.key()) {
            Ok(_) => {}
            Err(error) => return Err(error.into()),
        }
    }
    Ok(keys)
}

/// Returns what is kept of symbols of which nothing came, from a time on. Fails where memory is
/// refused.
fn new_times(
    alloc: Global,
    symbols: &[SymbolName],
    since: u64,
) -> Result<Vec<SymbolTimes>, AllocError>
    ensures { IfOk result (λ times. AreNewTimes since symbols.now times.items) }
{
    let mut times = Vec::new(alloc);
    for place in 0..symbols.len() {
        let none = National {
            bid: None,
            offer: None,
        };
        let one = SymbolTimes::new(symbols[place], &none, since);
        times.push(one)?;
    }
    Ok(times)
}

/// Begins the next period of each symbol at a time.
fn restart_all(times: &mut Vec<SymbolTimes>, from: u64)
    ensures { AreRestarted from times.old.items times.new.items }
{
    for place in 0..times.len() {
        times[place].restart(from);
    }
}

/// Takes the national best that stands from a time on, of the symbol at a place.
fn change_at(times: &mut Vec<SymbolTimes>, place: usize, at: u64, best: &National)
    requires { place < length times.old.items }
    ensures { IsTakenAt place at best.now times.old.items times.new.items }
{
    times[place].change(at, best);
}

/// Returns where the key stands.
fn place_of_key(keys: &IndexSet<u64>, key: u64) -> Option<usize>
    ensures { result ≡ position (nat_eq key) keys.now.keys }
{
    keys.get_index_of(&key)
}

/// Returns whether another period begins.
fn is_another(old: Option<u64>, new: u64) -> bool
    ensures { result ≡ is_another old new }
{
    match old {
        Some(old) => old != new,
        None => true,
    }
}

impl BestTable {
    /// The table of these symbols, of which nothing came, from a time on. Fails where memory is
    /// refused, or a symbol is there twice.
    pub fn new(alloc: Global, symbols: &[SymbolName], since: u64) -> Result<BestTable, AllocError>
        ensures { IfOk result (IsNewTable since symbols.now) }
    {
        let keys = keys_of(alloc, symbols)?;
        if !are_keys(keys.as_slice(), symbols) {
            return Err(AllocError);
        }
        let times = new_times(alloc, symbols, since)?;
        Ok(BestTable { keys, times })
    }

    /// Begins the next period at a time, if it is another one.
    fn begin_at(&mut self, another: bool, from: u64)
        ensures keys { self.new.keys ≡ self.old.keys }
        ensures begun { AreBegunIf another from self.old.times.items self.new.times.items }
    {
        if another {
            restart_all(&mut self.times, from);
        }
    }

    /// Begins the next period at a time, where one begins.
    pub(crate) fn begin(&mut self, old: Option<u64>, new: Option<u64>)
        ensures keys { self.new.keys ≡ self.old.keys }
        ensures begun { AreBegun old new self.old.times.items self.new.times.items }
    {
        match new {
            Some(new) => self.begin_at(is_another(old, new), new),
            None => {}
        }
    }

    /// Takes a national best of the symbol of this key, which stands from a time on.
    fn change(&mut self, key: u64, at: u64, best: &National)
        ensures keys { self.new.keys ≡ self.old.keys }
        ensures taken { AreChanged self.old.keys.keys key at best.now self.old.times.items
            self.new.times.items }
    {
        let _keys = self.keys.as_slice();
        match place_of_key(&self.keys, key) {
            Some(place) if place < self.times.len() => {
                change_at(&mut self.times, place, at, best);
            }
            Some(_) => {}
            None => {}
        }
    }

    /// Takes an event at a time.
    pub(crate) fn take(&mut self, at: u64, event: &ReplayedEvent<'_>)
        ensures keys { self.new.keys ≡ self.old.keys }
        ensures taken { AreBestsTaken self.old.keys.keys at (told_by event.now) self.old.times.items
            self.new.times.items }
    {
        match event {
            ReplayedEvent::Best { change, .. } => {
                self.change(change.symbol.key(), at, &change.national);
            }
            ReplayedEvent::Packet { .. }
            | ReplayedEvent::Refusal { .. }
            | ReplayedEvent::Item { .. }
            | ReplayedEvent::Gap { .. }
            | ReplayedEvent::Renewal { .. }
            | ReplayedEvent::Skip { .. }
            | ReplayedEvent::Declaration { .. }
            | ReplayedEvent::Last { .. } => {}
        }
    }
}
