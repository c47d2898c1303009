//! Rows of reports, and the sinks that write them.
//!
//! Contract: [`put_row`] appends exactly the row of some cells under the names of their columns, as
//! comma-separated values or as a JSON object (`specs/RowTexts.antt`). A [`RowSink`] writes what
//! its [`RowMaker`] makes of each event (`specs/RowSinks.antt`). A [`SpanFilter`] gives another
//! sink the events of a span of time, and those before it as such (`specs/SpanEvents.antt`). A
//! [`KeptPeriods`] keeps the figures of the 16 latest periods (`specs/PeriodLists.antt`), so a late
//! frame is counted in its own.
//!
//! Begin with `row.rt` and `row_sink.rt`.
#![tactic(auto)]

mod cell;
mod cell_texts;
mod kept_periods;
mod row;
mod row_maker;
mod row_sink;
mod span_sink;
mod spanned_sink;

pub use cell::Cell;
pub use kept_periods::{Entered, KeptPeriod, KeptPeriods};
pub use row::{put_header, put_row};
pub use row_maker::RowMaker;
pub use row_sink::RowSink;
pub use span_sink::{SpanFilter, ends_all};
pub use spanned_sink::SpanAware;
