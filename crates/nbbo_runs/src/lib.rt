//! The runs of the program `nbbo` over any input, output and standard error, but for listening.
//!
//! Contract: of any words, [`run`] states what is read, what is written where, and the status, or
//! that the words ask to listen (`specs/Runs.antt`). A run is one over any format of captures. It
//! prints a row for each event, rows of bests, statistics, or rows of gaps or periods
//! (`specs/Printing.antt`), lists the lines of a packet capture (`specs/Discovery.antt`), counts
//! messages by type (`specs/TypeRuns.antt`), or normalises a capture of ITCH lines
//! (`specs/NormaliseRuns.antt`, `specs/NormaliseReports.antt`). At its end standard error reports
//! what is missing (`specs/ReportedGaps.antt`), which symbols never came
//! (`specs/AbsentSymbols.antt`), which lines had no datagram, which venues' messages look like
//! ITCH, which sessions nothing names and which named ones never began (`specs/Watches.antt`,
//! `specs/VenueLooks.antt`, `specs/Sessions.antt`), and what there is to report of the capture and
//! of the outcome (`specs/CaptureTexts.antt`, `specs/Ending.antt`).
//!
//! Outside of it stand hints (`hints.rt`), which are made of the values that a run returns, and the
//! program, which opens the streams and listens (`nbbo_main`).
//!
//! Begin with `program_run.rt`, then `runs.rt` and `printing.rt`; `ending.rt` has the texts of
//! faults.
#![tactic(auto)]

mod absent_report;
mod capture_report;
mod config;
mod discovery;
mod end_report;
mod ending;
mod fed_sink;
mod given_lines;
mod hints;
mod laws;
mod named_sessions;
mod normalisation;
mod normalise_report;
mod own_capture;
mod printing;
mod program_run;
mod reported_gaps;
mod runs;
mod session_report;
mod session_row;
mod session_table;
mod snapshots;
mod span_replay;
mod survey_form;
mod symbol_hint;
mod terminals;
mod timeless;
mod type_counts;
mod venue_watch;
mod watched_format;
mod watched_sink;

pub use hints::{hint_at_file, journal_hint};
pub use laws::what_is_normalised_can_be_replayed;
pub use program_run::{Next, ProgramRun, RunFacts, refuse, run};
pub use terminals::Terminals;
