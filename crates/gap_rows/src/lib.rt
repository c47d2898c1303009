//! Rows of gaps, as they end.
//!
//! A [`GapMaker`] takes the events of a replay, and makes a row of each gap that one ends; a
//! `RowSink` of report_rows writes them. Contract: the text of each event is the rows of just
//! the gaps that its venue ends with it (`specs/GapMakers.antt`, `specs/GapCells.antt`).
//!
//! Begin with `gap_maker.rt`.
#![tactic(auto)]

mod gap_maker;
mod gap_row;

pub use gap_maker::{GapMaker, new_gap_rows};
