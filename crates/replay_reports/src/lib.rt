//! Reports of a replay: sinks of its events that print rows of the national bests, or keep its
//! statistics.
//!
//! Contract: a [`BestRowMaker`] makes the row of each national best that changed, in its
//! `RowStyle`, after the format's header (`specs/BestRowMakers.antt`). A [`ReplayStats`] writes
//! nothing: it counts the events of each venue, of its lines, and of the national bests, and how
//! the lines run in time (`specs/stats/Statistics.antt`). Its [`Report`] has the figures of these
//! events (`specs/report/Reports.antt`), and its text is a table, rows of values or a JSON object,
//! which loop over lists of [`Figure`]s. Rows of gaps and of periods are crates of their own.
//!
//! Begin at `best_row_maker.rt`, or at `stats/replay_stats.rt`, then `report/figures.rt`.
#![tactic(auto)]

mod best_row_maker;
mod counts;
mod report;
mod stats;
mod times;

pub use best_row_maker::{BestRowMaker, new_best_row_sink};
pub use counts::best_counts::{BestCounts, StateCounts};
pub use counts::item_counts::ItemCounts;
pub use counts::line_counts::LineCounts;
pub use counts::venue_counts::VenueCounts;
pub use report::figure::{Figure, FigureValue};
pub use report::figures::{
    busiest_figures, duration_figures, gap_figures, item_figures, leading_figures, line_figures,
    line_loss_figures, loss_figures, packet_figures, refusal_figures, state_figures, venue_figures,
};
pub use report::statistics_report::Report;
pub use report::summary::summary_figures;
pub use report::venue_report::{GapReport, VenueReport};
pub use stats::replay_stats::ReplayStats;
pub use stats::venue_stats::VenueStats;
pub use times::busiest_period::{BusiestPeriod, Peak};
pub use times::duration_stats::DurationStats;
pub use times::durations::Durations;
pub use times::line_leads::LineLeads;
pub use times::venue_times::VenueTimes;
