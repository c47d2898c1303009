//! The limits of a feed. Contracts name the numbers themselves.

/// The most venues. What is kept of a venue's side or halt stands in an array of this length, so
/// that no quotation asks for memory.
pub const MAX_VENUES: usize = 16;

/// The most subscribers. Each change is offered to all of them under one lock.
pub const MAX_SUBSCRIBERS: usize = 32;

/// The most symbols. One entry, as a venue's end, may change the national best of each, and has
/// room for as many changes before it is journaled.
pub const MAX_SYMBOLS: usize = 4_096;

/// The largest window, in messages past the last one sent: what one request can ask for.
pub const MAX_WINDOW: u32 = 65_535;

/// The largest lane, in items. Its places are all made when the lane is.
pub const MAX_LANE: u32 = 65_536;

/// The most sessions of a venue. Their names stay with the arbiter, which refuses one that was
/// there before.
pub const MAX_SESSIONS: usize = 64;
