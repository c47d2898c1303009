//! The report as a JSON object.

use crate::counts::line_counts::LineCounts;
use crate::report::figure::Figure;
use crate::report::figures::{
    busiest_figures, duration_figures, gap_figures, item_figures, leading_figures, line_figures,
    line_loss_figures, loss_figures, packet_figures, refusal_figures, state_figures, venue_figures,
};
use crate::report::statistics_report::Report;
use crate::report::values::{put_json_value, put_json_venue};
use crate::report::venue_report::{GapReport, VenueReport};
use run_settings::ValueStyle;
use std::alloc::{AllocError, Global};
use text_out::TextPart::Text;
use text_out::put_parts;

/// Which objects of venues are in a list.
#[derive(Clone, Copy)]
enum VenuePart {
    Counts,
    Losses,
    Times,
}

/// The object that is written, and how.
#[derive(Drop)]
struct JsonObject<'a> {
    alloc: Global,
    text: &'a mut Vec<u8>,
    style: &'a ValueStyle,
}

impl JsonObject<'_> {
    fn put(&mut self, text: &str) -> Result<(), AllocError> {
        self.text.extend_from_slice(text.as_bytes())
    }

    /// Appends a comma, unless the place is the first one.
    fn put_comma(&mut self, place: usize) -> Result<(), AllocError> {
        if place == 0 {
            return Ok(());
        }
        self.put(",")
    }

    /// Appends a name, after what stands before, and what stands after.
    fn put_name<'a>(
        &mut self,
        before: &'a str,
        name: &'a str,
        after: &'a str,
    ) -> Result<(), AllocError> {
        put_parts(
            self.text,
            &[Text(before), Text("\""), Text(name), Text(after)],
        )
    }

    /// Appends figures as members.
    fn put_figures(&mut self, figures: &[Figure]) -> Result<(), AllocError> {
        for place in 0..figures.len() {
            let figure = &figures[place];
            self.put_comma(place)?;
            self.put_name("", figure.name, "\":")?;
            put_json_value(self.alloc, self.text, self.style.times, figure.value)?;
        }
        Ok(())
    }

    /// Appends figures as an object that is a member, after what stands before.
    fn put_object(
        &mut self,
        before: &str,
        name: &str,
        figures: &[Figure],
    ) -> Result<(), AllocError> {
        self.put_name(before, name, "\":{")?;
        self.put_figures(figures)?;
        self.put("}")
    }

    /// Appends a line as an object, after what stands before.
    fn put_line(
        &mut self,
        before: &str,
        name: &str,
        counts: &LineCounts,
    ) -> Result<(), AllocError> {
        self.put_name(before, name, "\":{")?;
        self.put_figures(&line_figures(counts))?;
        self.put_object(",", "refused", &refusal_figures(counts))?;
        self.put("}")
    }

    /// Appends the gaps of a venue's lines.
    fn put_gaps(&mut self, gaps: &GapReport) -> Result<(), AllocError> {
        self.put_name(",", "gaps", "\":{")?;
        self.put_figures(&gap_figures(&gaps.all))?;
        self.put_object(",", "A", &gap_figures(&gaps.a))?;
        self.put_object(",", "B", &gap_figures(&gaps.b))?;
        self.put("},")
    }

    /// Appends a venue's counts.
    fn put_venue(&mut self, r: &VenueReport) -> Result<(), AllocError> {
        self.put_line(",\"lines\":{", "A", &r.counts.lines.a)?;
        self.put_line(",", "B", &r.counts.lines.b)?;
        self.put_line(",", "recovery", &r.counts.lines.recovery)?;
        self.put_object("},", "items", &item_figures(&r.counts.items))?;
        self.put_gaps(&r.gaps)?;
        self.put_figures(&venue_figures(&r.counts))?;
        self.put(",")?;
        self.put_figures(&leading_figures(r.bids, r.offers))
    }

    /// Appends what a venue's lines lost.
    fn put_losses(&mut self, r: &VenueReport) -> Result<(), AllocError> {
        self.put(",")?;
        self.put_figures(&loss_figures(&r.gaps))?;
        self.put_object(",", "A", &line_loss_figures(&r.gaps.a))?;
        self.put_object(",", "B", &line_loss_figures(&r.gaps.b))
    }

    /// Appends how a venue's lines run in time.
    fn put_times(&mut self, r: &VenueReport) -> Result<(), AllocError> {
        self.put_object(",", "a_first", &duration_figures(&r.a_first))?;
        self.put_object(",", "b_first", &duration_figures(&r.b_first))?;
        self.put_object(",", "last_packets", &packet_figures(&r.last_packets))
    }

    /// Appends a part of a venue's figures.
    fn put_part(&mut self, part: VenuePart, r: &VenueReport) -> Result<(), AllocError> {
        match part {
            VenuePart::Counts => self.put_venue(r),
            VenuePart::Losses => self.put_losses(r),
            VenuePart::Times => self.put_times(r),
        }
    }

    /// Appends the objects of all venues, each after its name or number.
    fn put_venues(&mut self, part: VenuePart, venues: &[VenueReport]) -> Result<(), AllocError> {
        for place in 0..venues.len() {
            self.put_comma(place)?;
            self.put("{\"venue\":")?;
            put_json_venue(self.text, &self.style.venues, place)?;
            self.put_part(part, &venues[place])?;
            self.put("}")?;
        }
        Ok(())
    }

    /// Appends how all venues' lines run in time.
    fn put_all_times(&mut self, report: &Report) -> Result<(), AllocError> {
        let busiest = busiest_figures(&report.second, &report.millisecond);
        self.put(",\"in_time\":{")?;
        self.put_figures(&busiest)?;
        self.put(",\"venues\":[")?;
        self.put_venues(VenuePart::Times, report.venues.as_slice())?;
        self.put("]}")
    }
}

/// Appends the report as an object on a line of its own: what happens in time, where the records
/// have times.
pub(crate) fn put_json(
    alloc: Global,
    text: &mut Vec<u8>,
    style: &ValueStyle,
    report: &Report,
) -> Result<(), AllocError> {
    let mut object = JsonObject { alloc, text, style };
    object.put("{\"venues\":[")?;
    object.put_venues(VenuePart::Counts, report.venues.as_slice())?;
    object.put_object("],", "states", &state_figures(&report.states))?;
    object.put(",\"losses\":[")?;
    object.put_venues(VenuePart::Losses, report.venues.as_slice())?;
    object.put("]")?;
    if report.has_times {
        object.put_all_times(report)?;
    }
    object.put("}\n")
}
