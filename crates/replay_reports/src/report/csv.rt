//! The report as rows of comma-separated values, one for each figure.

use crate::counts::line_counts::LineCounts;
use crate::report::figure::Figure;
use crate::report::figures::{
    busiest_figures, duration_figures, gap_figures, item_figures, leading_figures, line_figures,
    line_loss_figures, loss_figures, packet_figures, refusal_figures, state_figures, venue_figures,
};
use crate::report::statistics_report::Report;
use crate::report::values::{put_value, put_venue};
use crate::report::venue_report::VenueReport;
use run_settings::ValueStyle;
use std::alloc::{AllocError, Global};
use text_out::TextPart::Text;
use text_out::put_parts;

/// The rows that are written, and how.
#[derive(Drop)]
struct CsvRows<'a> {
    alloc: Global,
    text: &'a mut Vec<u8>,
    style: &'a ValueStyle,
    /// The venue of the rows that come, if they are of one.
    venue: Option<usize>,
}

impl CsvRows<'_> {
    fn put(&mut self, text: &str) -> Result<(), AllocError> {
        self.text.extend_from_slice(text.as_bytes())
    }

    /// Appends the name or the number of the venue, if there is one.
    fn put_venue_cell(&mut self) -> Result<(), AllocError> {
        match self.venue {
            Some(venue) => put_venue(self.text, &self.style.venues, venue),
            None => Ok(()),
        }
    }

    /// Appends the row of a figure of the line, whose name stands after that of its group.
    fn put_row<'a>(
        &mut self,
        line: &'a str,
        group: &'a str,
        figure: &Figure,
    ) -> Result<(), AllocError> {
        self.put_venue_cell()?;
        put_parts(self.text, &[Text(","), Text(line), Text(",")])?;
        put_parts(self.text, &[Text(group), Text(figure.name), Text(",")])?;
        put_value(self.alloc, self.text, self.style.times, b"", figure.value)?;
        self.put("\n")
    }

    /// Appends the rows of figures of the line.
    fn put_rows(&mut self, line: &str, group: &str, figures: &[Figure]) -> Result<(), AllocError> {
        for figure in figures {
            self.put_row(line, group, figure)?;
        }
        Ok(())
    }

    /// Appends the rows of a line's counts.
    fn put_line(&mut self, line: &str, counts: &LineCounts) -> Result<(), AllocError> {
        self.put_rows(line, "", &line_figures(counts))?;
        self.put_rows(line, "refused_", &refusal_figures(counts))
    }

    /// Appends the rows of the gaps of a venue's lines, and of what these lost.
    fn put_gaps(&mut self, r: &VenueReport) -> Result<(), AllocError> {
        self.put_rows("A", "gaps_", &gap_figures(&r.gaps.a))?;
        self.put_rows("B", "gaps_", &gap_figures(&r.gaps.b))?;
        self.put_rows("all", "gaps_", &gap_figures(&r.gaps.all))?;
        self.put_rows("A", "", &line_loss_figures(&r.gaps.a))?;
        self.put_rows("B", "", &line_loss_figures(&r.gaps.b))?;
        self.put_rows("", "", &loss_figures(&r.gaps))
    }

    /// Appends the rows of how a venue's lines run in time.
    fn put_times(&mut self, r: &VenueReport) -> Result<(), AllocError> {
        self.put_rows("A", "lead_", &duration_figures(&r.a_first))?;
        self.put_rows("B", "lead_", &duration_figures(&r.b_first))?;
        self.put_rows("", "last_packet_", &packet_figures(&r.last_packets))
    }

    /// Appends the rows of a venue, those of time where the records have times.
    fn put_venue(&mut self, r: &VenueReport, has_times: bool) -> Result<(), AllocError> {
        self.put_line("A", &r.counts.lines.a)?;
        self.put_line("B", &r.counts.lines.b)?;
        self.put_line("recovery", &r.counts.lines.recovery)?;
        self.put_gaps(r)?;
        self.put_rows("", "items_", &item_figures(&r.counts.items))?;
        self.put_rows("", "", &venue_figures(&r.counts))?;
        self.put_rows("", "", &leading_figures(r.bids, r.offers))?;
        if has_times {
            self.put_times(r)?;
        }
        Ok(())
    }
}

/// Appends the report as rows, after the names of the columns.
pub(crate) fn put_csv(
    alloc: Global,
    text: &mut Vec<u8>,
    style: &ValueStyle,
    report: &Report,
) -> Result<(), AllocError> {
    let mut rows = CsvRows {
        alloc,
        text,
        style,
        venue: None,
    };
    rows.put("venue,line,figure,value\n")?;
    for place in 0..report.venues.len() {
        rows.venue = Some(place);
        rows.put_venue(&report.venues[place], report.has_times)?;
    }
    rows.venue = None;
    rows.put_rows("", "changes_", &state_figures(&report.states))?;
    if report.has_times {
        let busiest = busiest_figures(&report.second, &report.millisecond);
        rows.put_rows("", "", &busiest)?;
    }
    Ok(())
}
