//! The end of a recording where what a line's thread handed over comes out.
ghost use Rattle.std.specs.Prelude.{◌≡◌, [], ◌∷◌, ◌++◌, IfOk, MatchOption};
ghost use Rattle.rtrb.specs.Ring.{received};

use crate::placed::Placed;
use crate::record_sender::recorder_pair;
use rtrb::{Consumer, Producer};
use std::alloc::{AllocError, Global};
use std::sync::Arc;
use std::sync::atomic::AtomicU64;

/// Where what a [`crate::RecordSender`] was given comes out, in that order.
#[derive(Drop)]
pub struct RecordSource {
    pub(crate) records: Consumer<Placed>,
    /// Where memory goes back.
    pub(crate) used: Producer<Vec<u8>>,
    /// How many the sender was given.
    pub(crate) given: Arc<AtomicU64, Global>,
}

/// Returns a source that nothing comes out of.
pub(crate) fn silent_source(alloc: Global) -> Result<RecordSource, AllocError>
    ensures { IfOk result (λ source. received source.records ≡ []) }
{
    let (_sender, source) = recorder_pair(alloc, 1)?;
    Ok(source)
}

impl RecordSource {
    /// The place of the next one, if one is there.
    pub(crate) fn next_place(&mut self) -> Option<u64>
        ensures { received self.new.records ≡ received self.old.records }
    {
        if self.records.is_empty() {
            return None;
        }
        Some(self.records.peek_known().place)
    }

    /// Takes the next one, if one is there.
    pub(crate) fn take(&mut self) -> Option<Placed>
        ensures { MatchOption result (received self.new.records ≡ received self.old.records)
            (λ placed. received self.new.records ≡ received self.old.records ++ placed ∷ []) }
    {
        match self.records.pop() {
            Ok(placed) => Some(placed),
            Err(_) => None,
        }
    }

    /// Gives memory back to the sender.
    pub(crate) fn give_back(&mut self, memory: Vec<u8>)
        ensures { self.new ≡ record (self.old) { used = self.new.used } }
    {
        if let Err(full) = self.used.push(memory) {
            drop(full);
        }
    }

    /// Whether half of its room is taken, so that it waits for nothing.
    pub(crate) fn is_crowded(&mut self) -> bool
        ensures { received self.new.records ≡ received self.old.records }
    {
        self.records.slots() >= self.records.capacity() / 2
    }

    /// How many the sender was given, for another thread. AllocError where it can't be shared any
    /// further.
    pub(crate) fn share_given(&self) -> Result<Arc<AtomicU64, Global>, AllocError> {
        Arc::try_clone(&self.given)
    }
}
