//! A venue on standard error.
ghost use Rattle.text_out.specs.Members.{writing_of};
ghost use Rattle.text_out.specs.StandardError.{Says};
ghost use Rattle.run_settings.specs.VenueNames.{venue_text};

use feed_types::VenueId;
use run_settings::VenueNames;
use text_out::{TextOut, write_all};

/// Writes what stands for a venue: its name where venues have names, else its number.
pub fn write_venue_name<E: TextOut>(names: &VenueNames, venue: VenueId, errors: &mut E)
    ensures { Says (writing_of E.TextOut) (venue_text names.now venue) errors.old errors.new }
{
    let label = names.label(venue);
    let text = label.text();
    if !text.is_empty() {
        let _ = write_all(text, errors);
    }
}
