//! The counts of which line was first.

ghost use Rattle.std.specs.Prelude.{◌≡◌};
ghost use Rattle.line_arbiter.specs.Steps.{counted};

use feed_types::{LineId, PerLine};

/// Adds `more` numbers that the line brought first. A count stays at 2^64 - 1 once it is there.
pub(crate) fn add_wins(wins: &mut PerLine<u64>, line: LineId, more: u16)
    ensures { wins.new ≡ counted line more wins.old }
{
    wins.set(line, wins.on(line).saturating_add(u64::from(more)));
}
