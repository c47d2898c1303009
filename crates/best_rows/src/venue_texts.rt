//! Venues in rows.
ghost use Rattle.std.specs.Prelude.{◌≤◌};
ghost use Rattle.text_out.specs.Pages.{Appends};
ghost use Rattle.run_settings.specs.VenueNames.{text_of_name, venue_text};
ghost use Rattle.best_rows.specs.VenueValues.{json_venue};

use run_settings::{VenueName, VenueNames};
use text_out::{LineBuffer, place_word, put_bytes, put_number};

/// Appends a name. All of its bytes are stored.
fn put_venue_name(text: &mut LineBuffer, name: VenueName)
    requires { 16 ≤ text.old.room }
    ensures { Appends text.old (text_of_name name) 16 text.new }
{
    let len = usize::from(name.len).min(16);
    let at = text.end;
    text.end = place_word(text.bytes.as_mut_slice(), at, name.bytes, len);
}

/// Appends a venue: its name where venues have names, else its number.
pub fn put_venue(text: &mut LineBuffer, names: &VenueNames, venue: usize)
    requires { 20 ≤ text.old.room }
    ensures { Appends text.old (venue_text names.now venue) 20 text.new }
{
    match names {
        VenueNames::Numbers => put_number(text, venue as u64),
        VenueNames::Named(names) => put_venue_name(text, VenueName::at(names, venue)),
    }
}

/// Appends a venue as a value of JSON: its name in quotation marks, or its number.
pub fn put_venue_value(text: &mut LineBuffer, names: &VenueNames, venue: usize)
    requires { 20 ≤ text.old.room }
    ensures { Appends text.old (json_venue names.now venue) 20 text.new }
{
    match names {
        VenueNames::Numbers => put_venue(text, names, venue),
        VenueNames::Named(names) => {
            put_bytes(text, *b"\"");
            put_venue_name(text, VenueName::at(names, venue));
            put_bytes(text, *b"\"");
        }
    }
}
