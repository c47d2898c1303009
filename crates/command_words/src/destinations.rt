//! Where the frames of a packet capture that is written go.
ghost use Rattle.std.specs.Prelude.{◌≡◌, ◌↔◌, IsTrue};
ghost use Rattle.std.specs.List.{list_any};
ghost use Rattle.command_words.specs.Destinations.{HaveDestinations, IsAddressed, is_destination, is_line_a, is_of_ipv4};

use feed_types::LineId;
use packet_capture::Address;
use run_settings::{CapturedLine, RunInput};

fn is_line_a(line: LineId) -> bool
    ensures { result ≡ is_line_a line }
{
    match line {
        LineId::A => true,
        LineId::B | LineId::Recovery => false,
    }
}

fn is_of_ipv4(address: &Address) -> bool
    ensures { result ≡ is_of_ipv4 address.now }
{
    match address {
        Address::V4(_) => true,
        Address::V6(_) => false,
    }
}

/// Returns whether the line is line A of the venue, and its address one of IPv4.
fn is_destination(venue: usize, line: &CapturedLine) -> bool
    ensures { result ≡ is_destination venue line.now }
{
    line.venue.index() == venue && is_line_a(line.line) && is_of_ipv4(&line.address)
}

/// Returns whether one of the lines is that to which the venue's frames go.
fn has_destination(lines: &[CapturedLine], venue: usize) -> bool
    ensures { result ≡ list_any (is_destination venue) lines.now }
{
    lines.iter().any(|line| is_destination(venue, line))
}

/// Returns whether each of `venues` venues has such a line.
fn have_destinations(lines: &[CapturedLine], venues: usize) -> bool
    ensures { IsTrue result ↔ HaveDestinations venues lines.now }
{
    for venue in 0..venues {
        if !has_destination(lines, venue) {
            return false;
        }
    }
    true
}

/// Returns whether the frames of what is made of this input of `venues` venues have somewhere to
/// go: with records of the project's own format always.
pub fn is_addressed(input: &RunInput, venues: usize) -> bool
    ensures { IsTrue result ↔ IsAddressed venues input.now }
{
    match input {
        RunInput::Own => true,
        RunInput::Packets(lines) => have_destinations(lines.as_slice(), venues),
    }
}
