//! The counts of venues and lines as JSON: an object for each venue, on a line of its own.

use crate::figures_since::{REFUSALS, state_counts};
use crate::moment::Moment;
use crate::venue_column::name_of;
use crate::venue_statuses::AllFigures;
use feed_types::VenueId;
use run_metrics::{LineState, VenueFigures, datagram_count, lacking, lag, message_count};
use run_settings::VenueNames;
use std::alloc::{AllocError, Global};
use venue_lines::LineCounts;

/// The members of a time: in seconds and in nanoseconds, null where it isn't known.
fn time_json(alloc: Global, moment: Moment) -> Result<String, AllocError> {
    let Some(time) = moment.since_1970 else {
        return String::from_str(alloc, "\"time\":null,\"time_ns\":null");
    };
    format!(in alloc;
        "\"time\":{}.{:09},\"time_ns\":{}",
        time.as_secs(),
        time.subsec_nanos(),
        time.as_nanos()
    )
}

/// The refusals that there were, each by its number, with how many.
fn refusals_json(alloc: Global, refused: &[u64; REFUSALS]) -> Result<String, AllocError> {
    let mut text = String::new(alloc);
    for (number, count) in refused.iter().enumerate() {
        if *count > 0 {
            let comma = if text.is_empty() { "" } else { "," };
            text.push_str(format!(in alloc; "{comma}\"{number}\":{count}")?.as_str())?;
        }
    }
    Ok(text)
}

/// The members of what else was counted of a line, where there was any.
fn state_json(alloc: Global, state: &LineState) -> Result<String, AllocError> {
    let mut text = String::new(alloc);
    for (name, count) in state_counts(state) {
        if count > 0 {
            text.push_str(format!(in alloc; ",\"{name}\":{count}")?.as_str())?;
        }
    }
    Ok(text)
}

/// The member of how many messages of a venue were given up, where there were any.
fn given_up_json(alloc: Global, count: u64) -> Result<String, AllocError> {
    if count > 0 {
        format!(in alloc; "\"given_up\":{count},")
    } else {
        Ok(String::new(alloc))
    }
}

/// The object of what a line has brought.
fn line_json(alloc: Global, counts: &LineCounts, state: &LineState) -> Result<String, AllocError> {
    let refusals = refusals_json(alloc, &counts.refused)?;
    let states = state_json(alloc, state)?;
    format!(in alloc;
        "{{\"packets\":{},\"messages\":{},\"new\":{},\"repeated\":{},\
         \"heartbeats\":{},\"ends\":{},\"ahead\":{},\"refused\":{{{}}}{}}}",
        datagram_count(counts),
        message_count(counts),
        counts.wins,
        counts.repeated,
        counts.heartbeats,
        counts.ends,
        counts.ahead,
        refusals.as_str(),
        states.as_str()
    )
}

/// The member of what line R has brought, where the venue has that line.
fn recovery_json(alloc: Global, figures: &VenueFigures) -> Result<String, AllocError> {
    let Some(state) = &figures.recovery else {
        return Ok(String::new(alloc));
    };
    let counts = line_json(alloc, &figures.status.recovery, state)?;
    format!(in alloc; ",\"R\":{}", counts.as_str())
}

/// What stands for a venue: its name in quotation marks, or its number.
fn name_json(alloc: Global, names: &VenueNames, venue: VenueId) -> Result<String, AllocError> {
    let name = name_of(alloc, names, venue)?;
    match names {
        VenueNames::Numbers => Ok(name),
        VenueNames::Named(_) => format!(in alloc; "\"{}\"", name.as_str()),
    }
}

/// The members of a venue and its lines.
fn venue_json(
    alloc: Global,
    names: &VenueNames,
    figures: &VenueFigures,
) -> Result<String, AllocError> {
    let name = name_json(alloc, names, figures.venue)?;
    let venue = &figures.status;
    let a = line_json(alloc, &venue.a, &figures.a)?;
    let b = line_json(alloc, &venue.b, &figures.b)?;
    let recovery = recovery_json(alloc, figures)?;
    let given_up = given_up_json(alloc, figures.given_up)?;
    format!(in alloc;
        "\"venue\":{},\"sent\":{},\"known\":{},\"lag\":{},\"lacks\":{},\
         \"requests\":{},{}\"lines\":{{\"A\":{},\"B\":{}{}}}",
        name.as_str(),
        venue.cursors.sent,
        venue.cursors.known,
        lag(venue),
        lacking(venue),
        venue.requests,
        given_up.as_str(),
        a.as_str(),
        b.as_str(),
        recovery.as_str()
    )
}

/// Returns the object of a venue at this moment, of what was counted in a period.
pub fn period_json(
    alloc: Global,
    names: &VenueNames,
    moment: Moment,
    venue: &VenueFigures,
) -> Result<String, AllocError> {
    let time = time_json(alloc, moment)?;
    let members = venue_json(alloc, names, venue)?;
    format!(in alloc;
        "{{{},\"second\":{},{}}}\n",
        time.as_str(),
        moment.second(),
        members.as_str()
    )
}

/// Returns the object of each venue, of what was counted in the whole run.
pub fn totals_json(
    alloc: Global,
    names: &VenueNames,
    moment: Moment,
    venues: &AllFigures,
) -> Result<String, AllocError> {
    let time = time_json(alloc, moment)?;
    let mut text = String::new(alloc);
    for venue in venues {
        if let Some(venue) = venue {
            let members = venue_json(alloc, names, venue)?;
            let row = format!(in alloc;
                "{{{},\"total\":true,{}}}\n",
                time.as_str(),
                members.as_str()
            )?;
            text.push_str(row.as_str())?;
        }
    }
    Ok(text)
}
