//! Counts of a replay's events.

pub(crate) mod best_counts;
pub(crate) mod item_counts;
pub(crate) mod line_counts;
pub(crate) mod venue_counts;
