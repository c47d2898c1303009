//! Laws of the definitions.
ghost use Rattle.feed_types.specs.declared.line.LineId.TheVariants as on;
ghost use Rattle.line_gaps.specs.declared.gap_line.GapLine.TheVariants as lines;
ghost use Rattle.period_rows.specs.PeriodSums.{FiguresAreSums};
ghost use Rattle.period_rows.specs.SequenceGaps.{MissesItsGaps};

/// The messages that a period's row counts as missing are those of the gaps that begin in it, by
/// the definition of `line_gaps`: what an event of a line adds are those of the gap that begins
/// with it. The function does nothing: its contract is a law.
pub fn missing_is_of_gaps()
    ensures a { MissesItsGaps on.A lines.A }
    ensures b { MissesItsGaps on.B lines.B }
{}

/// The packets, bytes and messages that a period's row has of a line, and those that it brought
/// first, are the sums over the line's datagrams whose time lies in the period, as long as no
/// datagram is late. The function does nothing: its contract is a law.
pub fn figures_are_sums()
    ensures { FiguresAreSums }
{}
