//! What is said on standard error of messages that are missing of venues.
ghost use Rattle.text_out.specs.Members.{writing_of};
ghost use Rattle.std.specs.Prelude.{◌≡◌, flat_map};
ghost use Rattle.event_sinks.specs.VenueGapTexts.{gap_venue_texts, messages_text, missing_texts, venue_gap_texts};
ghost use Rattle.text_out.specs.StandardError.{SaysEach};

use crate::venue_gap::VenueGap;
use feed_types::{MissingRange, VenueId};
use text_out::{TextOut, write_number, write_stderr};

/// What stands between a count of messages and the first of them.
fn messages(count: u64) -> &'static str
    ensures { result.now ≡ messages_text count }
{
    if count == 1 {
        " message from "
    } else {
        " messages from "
    }
}

/// Writes which venue has a gap.
fn write_gap_venue<E: TextOut>(venue: VenueId, errors: &mut E)
    ensures { SaysEach (writing_of E.TextOut) (gap_venue_texts venue) errors.old errors.new }
{
    write_stderr("nbbo: venue ", errors);
    write_number(venue.index() as u64, errors);
    write_stderr(" lacks ", errors);
}

/// Writes how many messages are missing, and the first of them.
pub fn write_missing<E: TextOut>(missing: MissingRange, errors: &mut E)
    ensures { SaysEach (writing_of E.TextOut) (missing_texts missing) errors.old errors.new }
{
    write_number(missing.count, errors);
    write_stderr(messages(missing.count), errors);
    write_number(missing.first, errors);
}

/// Writes the gap of a venue.
fn write_venue_gap<E: TextOut>(gap: &VenueGap, errors: &mut E)
    ensures { SaysEach (writing_of E.TextOut) (venue_gap_texts gap.now) errors.old errors.new }
{
    write_gap_venue(gap.venue, errors);
    write_missing(gap.messages, errors);
    write_stderr("\n", errors);
}

/// Writes the gaps of venues.
pub fn write_venue_gaps<E: TextOut>(gaps: &[VenueGap], errors: &mut E)
    ensures { SaysEach (writing_of E.TextOut)
        (flat_map venue_gap_texts gaps.now) errors.old errors.new }
{
    for gap in gaps {
        write_venue_gap(gap, errors);
    }
}
