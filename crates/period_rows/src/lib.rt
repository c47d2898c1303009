//! Rows of periods of the clock: what each line brought in each, and how long national bests stood.
//!
//! Contract: a sink of [`new_count_rows`] writes, for each period in which a datagram came, a row
//! of each line (`specs/CountRows.antt`); a frame that comes late counts in its own period while
//! that is one of the 16 latest. A sink of [`new_best_rows`] writes how long the national bests of
//! symbols stood in each period, on a clock that never goes back (`specs/BestRows.antt`).
//!
//! Begin with `count_maker.rt` and `best_maker.rt`.
#![tactic(auto)]

mod best_clock;
mod best_figures;
mod best_maker;
mod best_shares;
mod best_table;
mod best_times;
mod count_figures;
mod count_maker;
mod count_rows;
mod laws;
mod line_figures;
mod line_sequence;
mod symbol_times;
mod times;

pub use best_figures::BestFigures;
pub use best_maker::{BestMaker, new_best_rows};
pub use best_shares::BestShares;
pub use best_table::BestTable;
pub use best_times::PeriodOver;
pub use count_figures::CountFigures;
pub use count_maker::{PeriodCounter, new_count_rows};
pub use laws::{figures_are_sums, missing_is_of_gaps};
pub use line_figures::LineFigures;
pub use line_sequence::LineSequence;
pub use symbol_times::SymbolTimes;
