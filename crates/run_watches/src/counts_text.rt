//! The counts of venues and lines as text: a line for each venue and period, and a table at the
//! end.

use crate::figures_since::{REFUSALS, state_counts};
use crate::venue_column::{head_cell, name_cell, name_of, width_of};
use crate::venue_statuses::AllFigures;
use run_metrics::{
    LineState, VenueFigures, datagram_count, lacking, lag, message_count, refused_count,
};
use run_settings::VenueNames;
use std::alloc::{AllocError, Global};
use venue_lines::LineCounts;

/// The heads of the table's columns after the first one, of lines and of venues.
const LINE_HEADS: &str =
    " line    packets   messages        new   repeated heartbeats      ahead    refused\n";

const VENUE_HEADS: &str = "         sent      known        lag      lacks   requests\n";

/// The numbers of the refusals that there were, each with how many: ` 7:2 10:1`.
fn refusals_text(alloc: Global, refused: &[u64; REFUSALS]) -> Result<String, AllocError> {
    let mut text = String::new(alloc);
    for (number, count) in refused.iter().enumerate() {
        if *count > 0 {
            text.push_str(format!(in alloc; " {number}:{count}")?.as_str())?;
        }
    }
    Ok(text)
}

/// What else was counted of a line, where there was any: ` dropped 17 withheld 1`.
fn state_text(alloc: Global, state: &LineState) -> Result<String, AllocError> {
    let mut text = String::new(alloc);
    for (name, count) in state_counts(state) {
        if count > 0 {
            text.push_str(format!(in alloc; " {name} {count}")?.as_str())?;
        }
    }
    Ok(text)
}

/// How many messages of a venue were given up, where there were any: ` gave up 16`.
fn given_up_text(alloc: Global, count: u64) -> Result<String, AllocError> {
    if count > 0 {
        format!(in alloc; " gave up {count}")
    } else {
        Ok(String::new(alloc))
    }
}

/// What a line has brought in a period.
fn line_text(alloc: Global, counts: &LineCounts, state: &LineState) -> Result<String, AllocError> {
    let numbers = refusals_text(alloc, &counts.refused)?;
    let states = state_text(alloc, state)?;
    format!(in alloc;
        "packets {} messages {} new {} repeated {} ahead {} refused {}{}{}",
        datagram_count(counts),
        message_count(counts),
        counts.wins,
        counts.repeated,
        counts.ahead,
        refused_count(counts),
        numbers.as_str(),
        states.as_str()
    )
}

/// What line R has brought in a period, where the venue has that line.
fn recovery_text(alloc: Global, figures: &VenueFigures) -> Result<String, AllocError> {
    let Some(state) = &figures.recovery else {
        return Ok(String::new(alloc));
    };
    let counts = line_text(alloc, &figures.status.recovery, state)?;
    format!(in alloc; " R {}", counts.as_str())
}

/// Returns the line of a venue after `seconds` seconds, of what was counted in a period.
pub fn period_text(
    alloc: Global,
    names: &VenueNames,
    seconds: u64,
    figures: &VenueFigures,
) -> Result<String, AllocError> {
    let venue = &figures.status;
    let a = line_text(alloc, &venue.a, &figures.a)?;
    let b = line_text(alloc, &venue.b, &figures.b)?;
    let recovery = recovery_text(alloc, figures)?;
    let given_up = given_up_text(alloc, figures.given_up)?;
    let name = name_of(alloc, names, figures.venue)?;
    format!(in alloc;
        "nbbo: second {seconds} venue {} \
         sent {} known {} lag {} lacks {} requests {}{} A {} B {}{}\n",
        name.as_str(),
        venue.cursors.sent,
        venue.cursors.known,
        lag(venue),
        lacking(venue),
        venue.requests,
        given_up.as_str(),
        a.as_str(),
        b.as_str(),
        recovery.as_str()
    )
}

/// The table's row of a line, after the cell of its venue.
fn line_row(
    alloc: Global,
    venue: &str,
    line: &str,
    counts: &LineCounts,
    state: &LineState,
) -> Result<String, AllocError> {
    let numbers = refusals_text(alloc, &counts.refused)?;
    let states = state_text(alloc, state)?;
    format!(in alloc;
        "nbbo: {venue} {line:>4} {:>10} {:>10} {:>10} {:>10} {:>10} {:>10} {:>10}{}{}\n",
        datagram_count(counts),
        message_count(counts),
        counts.wins,
        counts.repeated,
        counts.heartbeats,
        counts.ahead,
        refused_count(counts),
        numbers.as_str(),
        states.as_str()
    )
}

/// The table's rows of a venue's lines.
fn line_rows(alloc: Global, cell: &str, venue: &VenueFigures) -> Result<String, AllocError> {
    let status = &venue.status;
    let mut text = line_row(alloc, cell, "A", &status.a, &venue.a)?;
    text.push_str(line_row(alloc, cell, "B", &status.b, &venue.b)?.as_str())?;
    if let Some(state) = &venue.recovery {
        text.push_str(line_row(alloc, cell, "R", &status.recovery, state)?.as_str())?;
    }
    Ok(text)
}

/// The table's row of a venue.
fn venue_row(alloc: Global, cell: &str, figures: &VenueFigures) -> Result<String, AllocError> {
    let venue = &figures.status;
    let given_up = given_up_text(alloc, figures.given_up)?;
    format!(in alloc;
        "nbbo: {cell}   {:>10} {:>10} {:>10} {:>10} {:>10}{}\n",
        venue.cursors.sent,
        venue.cursors.known,
        lag(venue),
        lacking(venue),
        venue.requests,
        given_up.as_str()
    )
}

/// Returns the table of all venues' counts: a row for each line, and then one for each venue.
pub fn table_text(
    alloc: Global,
    names: &VenueNames,
    venues: &AllFigures,
) -> Result<String, AllocError> {
    let width = width_of(names, venues);
    let head = head_cell(alloc, width)?;
    let mut text = format!(in alloc; "nbbo: {}{LINE_HEADS}", head.as_str())?;
    for venue in venues {
        if let Some(venue) = venue {
            let cell = name_cell(alloc, names, venue.venue, width)?;
            text.push_str(line_rows(alloc, cell.as_str(), venue)?.as_str())?;
        }
    }
    text.push_str(format!(in alloc; "nbbo: {}{VENUE_HEADS}", head.as_str())?.as_str())?;
    for venue in venues {
        if let Some(venue) = venue {
            let cell = name_cell(alloc, names, venue.venue, width)?;
            text.push_str(venue_row(alloc, cell.as_str(), venue)?.as_str())?;
        }
    }
    Ok(text)
}
