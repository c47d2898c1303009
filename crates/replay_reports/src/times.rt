//! How a replay's packets run in time.

pub(crate) mod busiest_period;
pub(crate) mod duration_stats;
pub(crate) mod durations;
pub(crate) mod line_leads;
pub(crate) mod venue_times;
