//! The entries and notices of a journal.

use crate::ids::VenueId;
use crate::item::Numbered;
use crate::national::National;
use crate::symbol::SymbolName;

/// An entry of the journal, in the order in which the consolidator took them.
#[derive(Clone, Copy, Debug, PartialEq, Eq, Hash)]
pub enum Entry {
    /// The venue's next item was consumed.
    Consumed { venue: VenueId, numbered: Numbered },
    /// Self-help on the venue was declared, or withdrawn.
    SelfHelp { venue: VenueId, on: bool },
}

/// A change of the national best of one symbol.
#[derive(Clone, Copy, Debug, PartialEq, Eq, Hash)]
pub struct Notice {
    /// The notice's number in the journal, from 1.
    pub number: u64,
    /// The position, from 1, of the entry that made the change.
    pub position: u64,
    pub symbol: SymbolName,
    /// The national best after that entry.
    pub national: National,
}
