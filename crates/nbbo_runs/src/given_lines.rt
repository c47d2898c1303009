//! The lines that an input is to have.
ghost use Rattle.std.specs.Prelude.{◌≡◌};
ghost use Rattle.std.specs.List.{list_any};
ghost use Rattle.nbbo_runs.specs.Watches.{is_given, is_line};

use feed_types::LineId;
use run_settings::{CapturedLine, RunInput};

/// Returns whether it is this line of the venue.
fn is_line(one: &CapturedLine, venue: usize, line: LineId) -> bool
    ensures { result ≡ is_line venue line one.now }
{
    one.venue.index() == venue && one.line.letter() == line.letter()
}

/// Returns whether this line of the venue is among the lines.
fn has_line(lines: &[CapturedLine], venue: usize, line: LineId) -> bool
    ensures { result ≡ list_any (is_line venue line) lines.now }
{
    lines.iter().any(|one| is_line(one, venue, line))
}

/// Returns whether the input is to have this line of the venue: a packet capture where it was
/// given an address, a capture of the project's own format always.
pub(crate) fn is_given(input: &RunInput, venue: usize, line: LineId) -> bool
    ensures { result ≡ is_given input.now venue line }
{
    match input {
        RunInput::Own => true,
        RunInput::Packets(lines) => has_line(lines.as_slice(), venue, line),
    }
}
