//! What is watched of a live run, what standard error has of it, and who is served its counts.
//!
//! The lines of a run, each with its progress ([`LineWatches`]), the gaps of its venues, which are
//! told and given up ([`GapWatches`]), what is printed ([`OutputWatch`]), counts ([`ListenCounts`])
//! and a server of them ([`MetricsServer`]) are together the [`RunWatches`], which a thread beside
//! the run looks at. Standard error that nobody reads holds it up nowhere ([`UnheldErrors`]).
//!
//! Contract: standard error has news of the run's lines, gaps and output, texts of counts where the
//! settings ask for them, and nothing else (`specs/RunNews.antt`). What of a venue's gap is told,
//! and what is given up, at a look is a function of its status, of the time and of the looks before
//! (`specs/Gaps.antt`). How much is counted, when something is news and whom the server answers,
//! tests show; what it answers `run_metrics` proves.
//!
//! Begin with `run_watches.rt`, then `line_watch.rt`, and `gap_watch.rt` for when a gap is told and
//! given up.
#![tactic(auto)]

mod counts_json;
mod counts_text;
mod errors_progress;
mod figures_since;
mod gap_news;
mod gap_rule;
mod gap_watch;
mod gap_watches;
mod line_news;
mod line_silence;
mod line_watch;
mod listen_counts;
mod metrics_server;
mod moment;
mod output_news;
mod output_watch;
mod row_progress;
mod run_watches;
mod session_news;
mod unheld_errors;
mod venue_column;
mod venue_statuses;

pub use errors_progress::{ErrorsProgress, UntakenTexts};
pub use gap_watches::GapWatches;
pub use line_news::{LineChange, write_line_end};
pub use line_watch::{LineWatch, LineWatches};
pub use listen_counts::ListenCounts;
pub use metrics_server::MetricsServer;
pub use moment::Moment;
pub use output_watch::OutputWatch;
pub use row_progress::RowProgress;
pub use run_watches::RunWatches;
pub use unheld_errors::UnheldErrors;
pub use venue_statuses::VenueStatuses;
