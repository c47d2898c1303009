//! The names of venues in what is printed.
ghost use Rattle.std.specs.Prelude.{◌≡◌, decimal, slice_index_or};
ghost use Rattle.run_settings.specs.VenueNames.{no_venue_name, text_of_name, venue_text};

use feed_types::VenueId;

/// The name of a venue: the first `len` of these bytes, all of them where there are no more.
#[derive(Clone, Copy, Debug, PartialEq, Eq)]
pub struct VenueName {
    pub bytes: [u8; 16],
    pub len: u8,
}

/// What stands for a venue in what is printed.
#[derive(Clone, Copy, Debug, PartialEq, Eq)]
pub enum VenueNames {
    /// Its number.
    Numbers,
    /// Its name, venue 0's first.
    Named([VenueName; 16]),
}

impl VenueName {
    /// A name without bytes.
    pub fn empty() -> VenueName
        ensures { result ≡ no_venue_name }
    {
        VenueName {
            bytes: [b' '; 16],
            len: 0,
        }
    }

    /// Returns the name at a place, an empty one where there is none.
    pub fn at(names: &[VenueName], venue: usize) -> VenueName
        ensures { result ≡ slice_index_or names.now venue no_venue_name }
    {
        if venue < names.len() {
            return names[venue];
        }
        VenueName::empty()
    }

    /// Returns the bytes of the name.
    pub fn text(&self) -> &[u8]
        ensures { result.now ≡ text_of_name self.now }
    {
        &self.bytes[..usize::from(self.len).min(16)]
    }
}

/// Returns a venue's number as a name.
fn number_name(venue: VenueId) -> VenueName
    ensures { text_of_name result ≡ decimal venue }
{
    let mut name = VenueName::empty();
    let number = venue.index() as u8;
    if number < 10 {
        name.bytes[0] = b'0' + number;
        name.len = 1;
    } else {
        name.bytes[0] = b'1';
        name.bytes[1] = b'0' + (number - 10);
        name.len = 2;
    }
    name
}

impl VenueNames {
    /// Returns what stands for a venue, as a name: its name, or its number.
    pub fn label(&self, venue: VenueId) -> VenueName
        ensures { text_of_name result ≡ venue_text self.now venue }
    {
        match self {
            VenueNames::Numbers => number_name(venue),
            VenueNames::Named(names) => VenueName::at(names, venue.index()),
        }
    }
}
