//! The place where a symbol most likely is, by one look at a slot of a direct-mapped cache.
//!
//! A slot may name another symbol's place: two symbols with one hash share a slot, and the caller
//! checks whether the symbol is at that place. Nothing here changes an answer, so no contract says
//! anything of it.

use feed_types::SymbolName;
use std::alloc::{AllocError, Global};

/// The symbols' places, by the upper bits of the hash.
#[derive(Drop)]
pub struct SymbolCache {
    slots: Vec<u16>,
    /// How far a hash is shifted to the right to make a slot.
    shift: u32,
}

/// By this odd number few of 4,096 keys share a hash of fifteen bits, of names of seven usual kinds
/// (S17, SYM0017, AAB, X01A, ..): at most 177, of several thousand numbers that were tried.
const MULTIPLIER: u64 = 0x5572_c90a_83e3_0409;

/// Returns the number of slots for this many symbols, and the shift that goes with it. There are at
/// least eight slots a symbol, so that few symbols share one.
fn slots_for(symbol_count: usize) -> (usize, u32) {
    if symbol_count <= 16 {
        (128, 57)
    } else if symbol_count <= 128 {
        (1_024, 54)
    } else if symbol_count <= 1_024 {
        (8_192, 51)
    } else {
        (32_768, 49)
    }
}

impl SymbolCache {
    /// Makes a cache of these symbols, in order.
    pub fn of(alloc: Global, symbols: &[SymbolName]) -> Result<SymbolCache, AllocError> {
        let (slot_count, shift) = slots_for(symbols.len());
        let slots = vec![in alloc; 0; slot_count]?;
        let mut cache = SymbolCache { slots, shift };
        let mut place: u16 = 0;
        for symbol in symbols {
            let slot = cache.slot_of(symbol.key());
            if let Some(noted) = cache.slots.get_mut(slot) {
                *noted = place;
            }
            place = place.wrapping_add(1);
        }
        Ok(cache)
    }

    /// Returns the slot of the key: the upper bits of a product.
    #[inline(always)]
    fn slot_of(&self, key: u64) -> usize {
        key.wrapping_mul(MULTIPLIER).wrapping_shr(self.shift) as usize
    }

    /// Returns the place where the symbol of the key may be.
    #[inline(always)]
    pub fn place_of(&self, key: u64) -> usize {
        match self.slots.get(self.slot_of(key)) {
            Some(&place) => usize::from(place),
            None => 0,
        }
    }
}
