//! What is said on standard error of messages that are missing, where venues may have names.
ghost use Rattle.text_out.specs.Members.{writing_of};
ghost use Rattle.std.specs.Prelude.{◌≡◌, flat_map};
ghost use Rattle.run_notes.specs.NamedGaps.{named_gap_texts, named_venue_texts};
ghost use Rattle.text_out.specs.StandardError.{SaysEach};

use crate::venue_name::write_venue_name;
use event_sinks::{VenueGap, write_missing};
use feed_types::VenueId;
use run_settings::VenueNames;
use text_out::{TextOut, write_stderr};

/// Writes which venue has a gap.
pub fn write_named_venue<E: TextOut>(names: &VenueNames, venue: VenueId, errors: &mut E)
    ensures { SaysEach (writing_of E.TextOut)
        (named_venue_texts names.now venue) errors.old errors.new }
{
    write_stderr("nbbo: venue ", errors);
    write_venue_name(names, venue, errors);
    write_stderr(" lacks ", errors);
}

/// Writes the gap of a venue.
fn write_named_gap<E: TextOut>(names: &VenueNames, gap: &VenueGap, errors: &mut E)
    ensures { SaysEach (writing_of E.TextOut)
        (named_gap_texts names.now gap.now) errors.old errors.new }
{
    write_named_venue(names, gap.venue, errors);
    write_missing(gap.messages, errors);
    write_stderr("\n", errors);
}

/// Writes the gaps of venues.
pub fn write_named_gaps<E: TextOut>(names: &VenueNames, gaps: &[VenueGap], errors: &mut E)
    ensures { SaysEach (writing_of E.TextOut)
        (flat_map (named_gap_texts names.now) gaps.now) errors.old errors.new }
{
    for gap in gaps {
        write_named_gap(names, gap, errors);
    }
}
