//! The counts of a run that listens, as Prometheus reads them, and the answers to who asks for
//! them.
//!
//! [`put_page`] writes a run's counts in Prometheus' text format: of each metric its help, its type
//! and a row for each value (`specs/Metrics.antt`). [`reply_to`] says what is replied to the bytes
//! that a client has sent, by the grammar of HTTP requests that the crate httparse has, and
//! [`answer`] writes the whole answer (`specs/Replies.antt`). [`MetricsClients`] reads what clients
//! ask and gives them their answers, and waits for nobody: whom it serves, and when, tests show.
//!
//! Begin with `page.rt`, then `reply.rt`. `line_figures.rt` has the figures, which are printed
//! elsewhere, too.
#![tactic(auto)]

mod figures;
mod line_figures;
mod line_metric;
mod line_states;
mod metrics_client;
mod metrics_clients;
mod page;
mod parts;
mod reply;
mod response;
mod run_metric;
mod state_metric;
mod venue_metric;

pub use figures::{LineEndReason, LineState, RunFigures, UNKNOWN_STATE, VenueFigures};
pub use line_figures::{datagram_count, lacking, lag, message_count, refused_count};
pub use metrics_clients::MetricsClients;
pub use page::put_page;
pub use reply::{Reply, reply_to};
pub use response::answer;
