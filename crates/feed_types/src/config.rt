//! The configuration of a feed.

use crate::symbol::SymbolName;

/// The configuration of a feed. It is checked where a feed is made of it, not here.
#[derive(Clone, Copy, Debug, PartialEq, Eq)]
pub struct FeedConfig<'a> {
    /// The first session of each venue, ten bytes, filled on the right with spaces. 1 to 16 venues.
    pub sessions: &'a [[u8; 10]],
    /// The symbols whose national best is kept, in the order in which changes are emitted. At most
    /// 4,096, each once.
    pub symbols: &'a [SymbolName],
    /// The number of messages past the last item sent that a venue holds, 1 to 65,535.
    pub window: u32,
    /// The number of items that a lane holds, 1 to 65,536, of venues and subscribers alike.
    pub lane: u32,
    /// The number of entries that the journal holds.
    pub journal: u32,
    /// The number of lines that a subscriber's log holds.
    pub log: u32,
}
