//! The words by which `nbbo` reads the lines of a capture.
ghost use Rattle.std.specs.Prelude.{◌≡◌, ◌++◌, IfOk, OnOk, flat_map};
ghost use Rattle.line_discovery.specs.LineWords.{lines_of, more_lines, more_sessions, named_words, pair_of, past_row, session_of, venue_by, venues_of, words_by, words_of, words_with};

use crate::address_text::{is_lower_place, place_text};
use crate::line_key::LineKey;
use crate::line_row::LineRow;
use crate::session_word::put_session_word;
use crate::standing::{Standing, put_left_out, put_left_row, standing_of};
use crate::text::session_name;
use feed_types::MAX_VENUES;
use std::alloc::{AllocError, Global};

/// The lines of a venue, by address and port.
#[derive(Clone, Copy, Debug, PartialEq, Eq)]
pub(crate) struct VenueLines {
    pub(crate) a: LineKey,
    pub(crate) b: LineKey,
}

/// Returns two lines by address and port.
fn pair_of(one: &LineKey, other: &LineKey) -> VenueLines
    ensures { result ≡ pair_of one.now other.now }
{
    if is_lower_place(one, other) {
        return VenueLines { a: *one, b: *other };
    }
    VenueLines { a: *other, b: *one }
}

/// Appends the venue of which this row is the first, if it is that of one.
fn push_venue(
    venues: &mut Vec<VenueLines>,
    row: &LineRow,
    standing: &Standing,
) -> Result<(), AllocError>
    ensures { OnOk result (venues.new.items
        ≡ venues.old.items ++ venue_by row.now standing.now) }
{
    match standing {
        Standing::Venue(other) => Ok(venues.push(pair_of(&row.key, &other.key))?),
        _ => Ok(()),
    }
}

/// Returns the venues, by when their sessions first came. Fails where memory is refused.
fn venues_of(alloc: Global, rows: &[LineRow]) -> Result<Vec<VenueLines>, AllocError>
    ensures { IfOk result (λ venues. venues.items ≡ venues_of rows.now) }
{
    let mut venues = Vec::new(alloc);
    for row in rows {
        push_venue(&mut venues, row, &standing_of(alloc, rows, row)?)?;
    }
    Ok(venues)
}

/// Appends the session of a venue.
fn put_session(text: &mut Vec<u8>, venue: &VenueLines) -> Result<(), AllocError>
    ensures { OnOk result (text.new.items ≡ text.old.items ++ session_of venue.now) }
{
    put_session_word(text, session_name(&venue.a.session))
}

/// Appends the lines of a venue.
fn put_lines(alloc: Global, text: &mut Vec<u8>, venue: &VenueLines) -> Result<(), AllocError>
    ensures { OnOk result (text.new.items ≡ text.old.items ++ lines_of venue.now) }
{
    let first = place_text(alloc, venue.a.address, venue.a.port)?;
    let second = place_text(alloc, venue.b.address, venue.b.port)?;
    text.extend_from_slice(first.as_bytes())?;
    text.extend_from_slice(b",")?;
    text.extend_from_slice(second.as_bytes())
}

/// Appends the sessions of venues, each after a comma.
fn put_more_sessions(text: &mut Vec<u8>, venues: &[VenueLines]) -> Result<(), AllocError>
    ensures { OnOk result (text.new.items ≡ text.old.items ++ more_sessions venues.now) }
{
    for venue in venues {
        text.extend_from_slice(b",")?;
        put_session(text, venue)?;
    }
    Ok(())
}

/// Appends the lines of venues, each two after a comma.
fn put_more_lines(
    alloc: Global,
    text: &mut Vec<u8>,
    venues: &[VenueLines],
) -> Result<(), AllocError>
    ensures { OnOk result (text.new.items ≡ text.old.items ++ more_lines venues.now) }
{
    for venue in venues {
        text.extend_from_slice(b",")?;
        put_lines(alloc, text, venue)?;
    }
    Ok(())
}

/// Appends the words for a venue and more of them.
fn put_named(
    alloc: Global,
    text: &mut Vec<u8>,
    first: &VenueLines,
    more: &[VenueLines],
) -> Result<(), AllocError>
    ensures { OnOk result (text.new.items
        ≡ text.old.items ++ named_words first.now more.now) }
{
    text.extend_from_slice(b"\nsessions at two addresses and ports:\n--sessions=")?;
    put_session(text, first)?;
    put_more_sessions(text, more)?;
    text.extend_from_slice(b" --lines=")?;
    put_lines(alloc, text, first)?;
    put_more_lines(alloc, text, more)?;
    text.extend_from_slice(b"\n")
}

/// Appends the words for some venues, or an empty line.
fn put_words_with(
    alloc: Global,
    text: &mut Vec<u8>,
    venues: &[VenueLines],
) -> Result<(), AllocError>
    ensures { OnOk result (text.new.items ≡ text.old.items ++ words_with venues.now) }
{
    match venues {
        [first, more @ ..] => put_named(alloc, text, first, more),
        _ => text.extend_from_slice(b"\n"),
    }
}

/// Appends the session of a venue that is one too many.
fn put_past_row(text: &mut Vec<u8>, venue: &VenueLines) -> Result<(), AllocError>
    ensures { OnOk result (text.new.items ≡ text.old.items ++ past_row venue.now) }
{
    put_left_row(text, &venue.a.session, "is past the first 16 venues")
}

/// Appends the sessions of the venues that are too many.
fn put_past(text: &mut Vec<u8>, venues: &[VenueLines]) -> Result<(), AllocError>
    ensures { OnOk result (text.new.items ≡ text.old.items ++ flat_map past_row venues.now) }
{
    for venue in venues {
        put_past_row(text, venue)?;
    }
    Ok(())
}

/// Appends the words for the first 16 venues, and before them the sessions of the others.
fn put_words_by(alloc: Global, text: &mut Vec<u8>, venues: &[VenueLines]) -> Result<(), AllocError>
    ensures { OnOk result (text.new.items ≡ text.old.items ++ words_by venues.now) }
{
    let (named, past) = venues.split_at(MAX_VENUES.min(venues.len()));
    put_past(text, past)?;
    put_words_with(alloc, text, named)
}

/// Appends the sessions that are left out, and the words for the venues.
pub(crate) fn put_words(
    alloc: Global,
    text: &mut Vec<u8>,
    rows: &[LineRow],
) -> Result<(), AllocError>
    ensures { OnOk result (text.new.items ≡ text.old.items ++ words_of rows.now) }
{
    let venues = venues_of(alloc, rows)?;
    put_left_out(alloc, text, rows)?;
    put_words_by(alloc, text, venues.as_slice())
}
