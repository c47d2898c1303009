//! The report of statistics: its figures, and its text.

pub(crate) mod csv;
pub(crate) mod figure;
pub(crate) mod figures;
pub(crate) mod json;
pub(crate) mod statistics_report;
pub(crate) mod summary;
pub(crate) mod table;
pub(crate) mod values;
pub(crate) mod venue_report;
