//! Listening on live lines by UDP.
//!
//! Lines that are received by UDP (`udp_lines`) are run as a live feed.
//! Beside the run stand who prints best lines as they come, and a monitor, which ends the run where
//! it is to end from outside, and does what is due of what it watches (`run_watches`). Once all has
//! ended the best lines, and a line for each venue, are printed.
//!
//! Contract: [`listen_with`] prints, in all, the text of the report of a feed that was run over the
//! settings' lines and settled, or says why it doesn't (`specs/Listening.antt`,
//! `specs/Reports.antt`). Standard error has before that what the watches say of the run, and
//! nothing else. What the sockets bring, and when the run is ended from outside, tests show.
//!
//! Begin with `listen.rt`, then `listening.rt`, and `row_follower.rt` and `run_monitor.rt` for what
//! is beside a run.
#![tactic(auto)]

mod console;
mod group_socket;
mod input_end;
mod itch_ends;
mod itch_statuses;
mod listen;
mod listen_lines;
mod listen_report;
mod listen_sockets;
mod listen_streams;
mod listening;
mod metrics_socket;
mod next_sessions;
mod output_state;
mod patient_output;
mod recorders;
mod row_follower;
mod row_marks;
mod run_monitor;
mod run_time;
mod settled_lacks;
mod socket_buffers;
mod sockets;
mod sources;
mod summary;
mod timed_rows;
mod unchanged;

pub use listen::{NO_MEMORY, listen_with};
pub use listen_sockets::{BoundLine, ListenSockets};
pub use listen_streams::ListenStreams;
pub use metrics_socket::{bind_metrics, metrics_line};
pub use output_state::OutputState;
pub use patient_output::PatientOutput;
pub use recorders::record_lines;
pub use run_watches::{ErrorsProgress, UnheldErrors};
pub use socket_buffers::enlarge;
pub use socket_tables::SocketTables;
pub use sockets::{BindFault, BindRefusal, bind_sockets, listening_line, write_bind_fault};
