//! What is told of the messages that are missing of venues at the end of a replay.
ghost use Rattle.text_out.specs.Members.{writing_of};
ghost use Rattle.std.specs.Prelude.{◌≡◌};
ghost use Rattle.text_out.specs.StandardError.{SaysEach};
ghost use Rattle.nbbo_runs.specs.ReportedGaps.{has_rule, is_packet_input, is_part, reports_gaps, reported_gaps};

use crate::terminals::Terminals;
use event_sinks::{VenueGap, write_venue_gaps};
use run_settings::{RunInput, RunOutput, RunSettings, SkipRule};
use text_out::TextOut;

/// Whether any gaps are given up.
fn has_rule(skips: SkipRule) -> bool
    ensures { result ≡ has_rule skips }
{
    match skips {
        SkipRule::Never => false,
        SkipRule::Join | SkipRule::Gaps | SkipRule::After(_) => true,
    }
}

/// Whether the input is a packet capture.
pub fn is_packet_input(input: &RunInput) -> bool
    ensures { result ≡ is_packet_input input.now }
{
    match input {
        RunInput::Own => false,
        RunInput::Packets(_) => true,
    }
}

/// Whether not all lines are printed.
fn is_part(output: RunOutput) -> bool
    ensures { result ≡ is_part output }
{
    match output {
        RunOutput::Lines => false,
        RunOutput::Bests(_)
        | RunOutput::Stats(_)
        | RunOutput::Gaps(_)
        | RunOutput::Periods(_)
        | RunOutput::BestTimes(_) => true,
    }
}

/// Whether a run reports the gaps of venues: of a packet capture always, of a capture of the
/// project's own format at a terminal, and where an option is given that asks for more or less than
/// its lines.
pub fn reports_gaps(settings: &RunSettings, terminals: Terminals) -> bool
    ensures { result ≡ reports_gaps settings.now terminals }
{
    is_packet_input(&settings.input)
        || is_part(settings.output)
        || has_rule(settings.skips)
        || terminals.errors
}

/// Writes the gaps of venues after a run with this outcome, if that is told.
pub fn report_gaps<F, E: TextOut>(
    outcome: &Result<(), F>,
    is_told: bool,
    gaps: &[VenueGap],
    errors: &mut E,
)
    ensures { SaysEach (writing_of E.TextOut)
        (reported_gaps outcome.now is_told gaps.now) errors.old errors.new }
{
    match outcome {
        Ok(()) if is_told => write_venue_gaps(gaps, errors),
        _ => {}
    }
}
