//! Rows of national bests that changed: text, comma-separated values or JSON lines.
//!
//! Contract: [`put_row`] appends exactly the row of a change in a style, with the time at which it
//! was told (`specs/RowTexts.antt`, `specs/Times.antt`), and [`put_notice`] that of a notice
//! (`specs/NoticeRows.antt`). What stands before the first row is [`put_header`]'s, and
//! [`header_line`]'s alike. Comma-separated values read back by the kit's reader
//! ([`csv_reads_back`], `specs/CsvFields.antt`). Times are seconds, or a date and a time of day in
//! UTC (`specs/UtcTexts.antt`), which the kit's reader of such texts reads back.
//!
//! Begin with `rows.rt` and `style.rt`.
#![tactic(auto)]

mod csv_rows;
mod header;
mod json_rows;
mod notice_rows;
mod quoting;
mod read_back;
mod row_time;
mod rows;
mod seconds;
mod style;
mod time_styles;
mod utc;
mod venue_texts;

pub use header::header_line;
pub use json_rows::put_known_time;
pub use notice_rows::put_notice;
pub use quoting::{put_csv_name, put_quoted};
pub use read_back::csv_reads_back;
pub use rows::put_row;
pub use seconds::put_seconds;
pub use style::{RowStyle, has_times, put_header};
pub use time_styles::{put_time, put_time_value};
pub use venue_texts::{put_venue, put_venue_value};
