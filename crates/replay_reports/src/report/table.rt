//! The report as tables: of each venue a row a line, and then what there is of its other figures.

use crate::report::figure::{Figure, FigureValue};
use crate::report::figures::{
    busiest_figures, duration_figures, gap_figures, item_figures, leading_figures, line_figures,
    loss_figures, packet_figures, refusal_figures, state_figures, venue_figures,
};
use crate::report::statistics_report::Report;
use crate::report::summary::summary_figures;
use crate::report::values::{put_value, put_venue};
use crate::report::venue_report::VenueReport;
use feed_types::LineId;
use run_settings::ValueStyle;
use std::alloc::{AllocError, Global};
use text_out::TextPart::{Spaces, Text};
use text_out::{put_filled, put_parts, spaces};

/// How many columns a label has.
const LABEL: usize = 30;

/// How many columns a value has.
const VALUE: usize = 14;

/// The tables that are written, and how.
#[derive(Drop)]
struct Tables<'a> {
    alloc: Global,
    text: &'a mut Vec<u8>,
    style: &'a ValueStyle,
}

/// Returns whether a value is more than nothing or 0.
fn is_some(value: FigureValue) -> bool {
    match value {
        FigureValue::Nothing | FigureValue::Count(0) => false,
        FigureValue::Count(_) | FigureValue::Time(_) => true,
    }
}

/// Returns whether one of the columns has more than nothing or 0 in a row.
fn has_any(a: &[Figure], b: &[Figure], c: &[Figure], row: usize) -> bool {
    has_some(a, row) || has_some(b, row) || has_some(c, row)
}

/// Returns whether a column has more than nothing or 0 in a row.
fn has_some(column: &[Figure], row: usize) -> bool {
    row < column.len() && is_some(column[row].value)
}

impl Tables<'_> {
    fn put(&mut self, text: &str) -> Result<(), AllocError> {
        self.text.extend_from_slice(text.as_bytes())
    }

    /// Appends a label on a new line.
    fn put_label(&mut self, label: &str) -> Result<(), AllocError> {
        let filling = Spaces(LABEL.saturating_sub(label.len().saturating_add(4)));
        put_parts(self.text, &[Text("\n    "), Text(label), filling])
    }

    /// Appends the head of a column at its end.
    fn put_head(&mut self, head: &str) -> Result<(), AllocError> {
        put_filled(self.text, VALUE, "", head.as_bytes())
    }

    /// Appends a value at the end of its column.
    fn put_cell(&mut self, value: FigureValue) -> Result<(), AllocError> {
        let mut cell = Vec::new(self.alloc);
        cell.extend_from_slice(b" ")?;
        put_value(self.alloc, &mut cell, self.style.times, b"-", value)?;
        put_filled(self.text, VALUE, "", cell.as_slice())
    }

    /// Appends the value of a row in a column, where it has one.
    fn put_in(&mut self, column: &[Figure], row: usize) -> Result<(), AllocError> {
        if row < column.len() {
            self.put_cell(column[row].value)?;
        }
        Ok(())
    }

    /// Appends those rows of three columns that have more than nothing or 0.
    fn put_rows(&mut self, a: &[Figure], b: &[Figure], c: &[Figure]) -> Result<(), AllocError> {
        for row in 0..a.len() {
            if has_any(a, b, c, row) {
                self.put_label(a[row].label)?;
                self.put_in(a, row)?;
                self.put_in(b, row)?;
                self.put_in(c, row)?;
            }
        }
        Ok(())
    }

    /// Appends a title on a new line, and the heads of columns, if there are any.
    fn put_title(&mut self, title: &str, heads: &[&str]) -> Result<(), AllocError> {
        put_parts(self.text, &[Text("\n  "), Text(title)])?;
        if heads.is_empty() {
            return Ok(());
        }
        let filling = LABEL.saturating_sub(title.len().saturating_add(2));
        self.text.extend_from_slice(spaces(filling))?;
        for head in heads {
            self.put_head(head)?;
        }
        Ok(())
    }

    /// Appends a line of a venue in a row, with its figures that tell most.
    fn put_summary(
        &mut self,
        r: &VenueReport,
        line: LineId,
        label: &str,
    ) -> Result<(), AllocError> {
        self.put_label(label)?;
        for figure in &summary_figures(r, line) {
            self.put_cell(figure.value)?;
        }
        Ok(())
    }

    /// Appends the rows of a venue's lines.
    fn put_summaries(&mut self, r: &VenueReport) -> Result<(), AllocError> {
        let heads = ["packets", "lost", "late", "first", "lead, ns", "gap, ns"];
        self.put_title("", &heads)?;
        self.put_summary(r, LineId::A, "line A")?;
        self.put_summary(r, LineId::B, "line B")?;
        self.put_summary(r, LineId::Recovery, "recovery")
    }

    /// Appends the packets of a venue's lines, and what they lack.
    fn put_lines(&mut self, r: &VenueReport) -> Result<(), AllocError> {
        let (a, b, c) = (
            &r.counts.lines.a,
            &r.counts.lines.b,
            &r.counts.lines.recovery,
        );
        self.put_title("by line", &["line A", "line B", "recovery"])?;
        self.put_rows(&line_figures(a), &line_figures(b), &line_figures(c))?;
        self.put_rows(
            &refusal_figures(a),
            &refusal_figures(b),
            &refusal_figures(c),
        )?;
        self.put_title("gaps", &["line A", "line B", "all lines"])?;
        let all = gap_figures(&r.gaps.all);
        self.put_rows(&gap_figures(&r.gaps.a), &gap_figures(&r.gaps.b), &all)
    }

    /// Appends a venue's messages and sessions.
    fn put_messages(&mut self, r: &VenueReport) -> Result<(), AllocError> {
        self.put_title("messages of all lines", &[])?;
        self.put_rows(&loss_figures(&r.gaps), &[], &[])?;
        self.put_rows(&item_figures(&r.counts.items), &[], &[])?;
        self.put_rows(&venue_figures(&r.counts), &[], &[])?;
        self.put_rows(&leading_figures(r.bids, r.offers), &[], &[])
    }

    /// Appends how a venue's lines run in time.
    fn put_times(&mut self, r: &VenueReport) -> Result<(), AllocError> {
        self.put_title("how far a line is first", &["line A", "line B"])?;
        let b_first = duration_figures(&r.b_first);
        self.put_rows(&duration_figures(&r.a_first), &b_first, &[])?;
        self.put_title("last packets", &[])?;
        self.put_rows(&packet_figures(&r.last_packets), &[], &[])
    }

    /// Appends a venue.
    fn put_venue(
        &mut self,
        place: usize,
        r: &VenueReport,
        has_times: bool,
    ) -> Result<(), AllocError> {
        self.put("venue ")?;
        put_venue(self.text, &self.style.venues, place)?;
        self.put_summaries(r)?;
        self.put_lines(r)?;
        self.put_messages(r)?;
        if has_times {
            self.put_times(r)?;
        }
        self.put("\n\n")
    }
}

/// Appends the report as tables.
pub(crate) fn put_table(
    alloc: Global,
    text: &mut Vec<u8>,
    style: &ValueStyle,
    report: &Report,
) -> Result<(), AllocError> {
    let mut tables = Tables { alloc, text, style };
    for place in 0..report.venues.len() {
        tables.put_venue(place, &report.venues[place], report.has_times)?;
    }
    tables.put("changes of national bests, by the state after")?;
    tables.put_rows(&state_figures(&report.states), &[], &[])?;
    if report.has_times {
        tables.put("\n\nbusiest periods of all lines")?;
        let busiest = busiest_figures(&report.second, &report.millisecond);
        tables.put_rows(&busiest, &[], &[])?;
    }
    tables.put("\n")
}
