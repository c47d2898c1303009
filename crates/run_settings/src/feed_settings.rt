//! The settings that every run of a feed has.
ghost use Rattle.std.specs.Prelude.{◌≤◌, vec_len};
ghost use Rattle.std.specs.List.{IsDistinct, IsDistinct-prop};
ghost use Rattle.std.specs.Str.{bytes_eq};

use feed_types::{SessionName, SymbolName};

/// The settings that every run of a feed has: replayed, counted or listened to.
#[derive(Debug, Drop)]
pub struct FeedSettings {
    /// The first session of each venue, ten bytes, filled on the right with spaces.
    pub sessions: Vec<SessionName>,
    /// The symbols whose national best is printed, each once, in the order of the command line.
    pub symbols: Vec<SymbolName>,
    /// The number of messages past the last item sent that a venue holds.
    pub window: u32,
    /// The number of entries for which the journal has room.
    pub journal: u32,
    ghost some_venues: { 1 ≤ vec_len sessions },
    ghost few_venues: { vec_len sessions ≤ 16 },
    ghost few_symbols: { vec_len symbols ≤ 4096 },
    ghost each_once: { IsDistinct bytes_eq symbols.items } by { IsDistinct-prop _ _ },
    ghost some_window: { 1 ≤ window },
    ghost window_in_range: { window ≤ 65535 },
}
