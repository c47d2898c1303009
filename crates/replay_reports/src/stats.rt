//! The statistics of a replay.

pub(crate) mod replay_stats;
pub(crate) mod venue_stats;
