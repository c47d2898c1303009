//! The gaps in the numbers of each line's packets: one definition for rows and for statistics.
//!
//! A gap of a line is a run of numbers that its packets pass over. It ends once each of these
//! numbers has come on any line or was given up, wherever the venue's sequence stands
//! (`specs/Gaps.antt`, `specs/OpenGaps.antt`). A [`VenueGaps`] takes the events of a venue and
//! returns just the gaps that each one ends (`TakesTimed`, `specs/VenueFits.antt`); its sums
//! ([`GapSums`]) are those of the same gaps (`specs/Sums.antt`). Which numbers are missing it keeps
//! as runs ([`NumberRuns`], `specs/Runs.antt`).
//!
//! Begin with `venue_gaps.rt`, then `line_gaps.rt` and `number_runs.rt`.
#![tactic(auto)]

mod ended_gaps;
mod gap_line;
mod gap_sums;
mod heard_packet;
mod line_gaps;
mod lost_numbers;
mod number_run;
mod number_runs;
mod open_gap;
mod venue_gaps;

pub use ended_gaps::EndedGaps;
pub use gap_line::GapLine;
pub use gap_sums::{GapEnds, GapSums};
pub use heard_packet::TimedPacket;
pub use line_gaps::{GapPass, LineGaps};
pub use lost_numbers::LostNumbers;
pub use number_run::NumberRun;
pub use number_runs::NumberRuns;
pub use open_gap::{EndedGap, GapEnd, OpenGap};
pub use venue_gaps::{VenueGaps, VenueSums, new_gaps};
