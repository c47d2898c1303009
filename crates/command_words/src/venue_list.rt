//! The list of venues' names on the command line.
ghost use Rattle.std.specs.Prelude.{◌≡◌, ◌==◌, ◌≤◌, All, IfOk, count_by, length, map};
ghost use Rattle.std.specs.List.{list_all};
ghost use Rattle.std.specs.Str.{bytes_eq};
ghost use Rattle.run_settings.specs.VenueNames.{is_venue_byte};
ghost use Rattle.command_words.specs.Readings.{Gives, OrNoMemory};
ghost use Rattle.command_words.specs.Sessions.{names_in};
ghost use Rattle.command_words.specs.VenueLists.{is_venue_name, kept_name, sixteen_names, venue_names_by};

use crate::refusal::Refusal;
use run_settings::{VenueName, VenueNames};
use std::alloc::{AllocError, Global};

/// The most bytes of a venue's name.
const NAME_LEN: usize = 16;

/// Returns whether a venue's name may have this byte.
fn is_venue_byte(byte: u8) -> bool
    ensures { result ≡ is_venue_byte byte }
{
    let is_digit = b'0' <= byte && byte <= b'9';
    let is_capital = b'A' <= byte && byte <= b'Z';
    let is_small = b'a' <= byte && byte <= b'z';
    is_digit || (is_capital || (is_small || (byte == b'-' || (byte == b'.' || byte == b'_'))))
}

fn are_venue_bytes(bytes: &[u8]) -> bool
    ensures { result ≡ list_all is_venue_byte bytes.now }
{
    bytes.iter().all(|&byte| is_venue_byte(byte))
}

/// Returns whether `name` is 1 to 16 digits, letters, `-`, `.` and `_`.
pub fn is_venue_name(name: &[u8]) -> bool
    ensures { result ≡ is_venue_name name.now }
{
    !name.is_empty() && name.len() <= NAME_LEN && are_venue_bytes(name)
}

/// Returns whether each of these is a venue's name.
fn are_venue_names(names: &[&str]) -> bool
    ensures { result ≡ list_all (λ name. is_venue_name name.now) names.now }
{
    names.iter().all(|name| is_venue_name(name.as_bytes()))
}

/// Returns how many of the names are this one.
fn times_named(names: &[&str], name: &str) -> usize
    ensures { result ≡ count_by (λ other. bytes_eq name.now other.now) names.now }
{
    let mut times = 0;
    for other in names {
        if name == *other {
            times += 1;
        }
    }
    times
}

/// Returns whether each name stands there once.
fn are_named_once(names: &[&str]) -> bool
    ensures { result ≡ list_all
        (λ name. count_by (λ other. bytes_eq name.now other.now) names.now == 1) names.now }
{
    names.iter().all(|name| times_named(names, *name) == 1)
}

/// Returns a name as it is kept.
fn kept_name(name: &[u8]) -> VenueName
    requires { length name.now ≤ 16 }
    ensures { result ≡ kept_name name.now }
{
    let mut bytes = [b' '; NAME_LEN];
    bytes[..name.len()].copy_from_slice(name);
    VenueName {
        bytes,
        len: name.len() as u8,
    }
}

/// Returns names as they are kept.
fn kept_names(alloc: Global, names: &[&str]) -> Result<Vec<VenueName>, AllocError>
    requires { All (λ name. length name.now ≤ 16) names.now }
    ensures { IfOk result (λ kept. kept.items ≡ map (λ name. kept_name name.now) names.now) }
{
    let mut kept = Vec::with_capacity(alloc, names.len())?;
    for name in names {
        kept.push(kept_name(name.as_bytes()))?;
    }
    Ok(kept)
}

/// Returns 16 names, these first.
fn sixteen_names(names: &[VenueName]) -> [VenueName; 16]
    requires { length names.now ≤ 16 }
    ensures { result ≡ sixteen_names names.now }
{
    let empty = VenueName {
        bytes: [b' '; NAME_LEN],
        len: 0,
    };
    let mut sixteen = [empty; 16];
    sixteen[..names.len()].copy_from_slice(names);
    sixteen
}

/// Returns the names of this many venues, 16 at most.
fn venue_names_of(alloc: Global, names: &[&str], venues: usize) -> Result<VenueNames, Refusal>
    requires { venues ≤ 16 }
    ensures { OrNoMemory (Gives (venue_names_by venues (map (λ name. name.now) names.now))) result }
{
    if names.len() != venues {
        return Err(Refusal::BadVenues);
    }
    if !are_venue_names(names) {
        return Err(Refusal::BadVenues);
    }
    if !are_named_once(names) {
        return Err(Refusal::BadVenues);
    }
    let kept = kept_names(alloc, names)?;
    Ok(VenueNames::Named(sixteen_names(kept.as_slice())))
}

/// Returns the names of this many venues, 16 at most, by their list.
pub fn read_venue_names(alloc: Global, list: &str, venues: usize) -> Result<VenueNames, Refusal>
    requires { venues ≤ 16 }
    ensures { OrNoMemory (Gives (venue_names_by venues (names_in list.now))) result }
{
    let names: Vec<&str> = list.split(',').collect(alloc)?;
    venue_names_of(alloc, names.as_slice(), venues)
}
