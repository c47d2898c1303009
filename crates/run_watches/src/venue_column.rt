//! What stands for venues in a column of a table.

use crate::venue_statuses::AllFigures;
use feed_types::VenueId;
use run_settings::VenueNames;
use std::alloc::{AllocError, Global};

/// The head of the column.
const HEAD: &str = "venue";

/// Returns what stands for a venue: its name, or its number.
pub(crate) fn name_of(
    alloc: Global,
    names: &VenueNames,
    venue: VenueId,
) -> Result<String, AllocError> {
    String::from_utf8_lossy(alloc, names.label(venue).text())
}

/// How many bytes the column has: those of the head, or of the longest name.
pub(crate) fn width_of(names: &VenueNames, venues: &AllFigures) -> usize {
    let mut width = HEAD.len();
    for venue in venues {
        if let Some(venue) = venue {
            width = width.max(names.label(venue.venue).text().len());
        }
    }
    width
}

/// Appends a text, after spaces that fill the column.
fn put_filled(column: &mut String, text: &str, width: usize) -> Result<(), AllocError> {
    for _ in text.len()..width {
        column.push_str(" ")?;
    }
    column.push_str(text)
}

/// Returns the head, filled up to a width.
pub(crate) fn head_cell(alloc: Global, width: usize) -> Result<String, AllocError> {
    let mut cell = String::new(alloc);
    put_filled(&mut cell, HEAD, width)?;
    Ok(cell)
}

/// Returns what stands for a venue, filled up to a width.
pub(crate) fn name_cell(
    alloc: Global,
    names: &VenueNames,
    venue: VenueId,
    width: usize,
) -> Result<String, AllocError> {
    let name = name_of(alloc, names, venue)?;
    let mut cell = String::new(alloc);
    put_filled(&mut cell, name.as_str(), width)?;
    Ok(cell)
}
