//! What has no effect, since nothing that was read had a time.
ghost use Rattle.text_out.specs.Members.{writing_of};
ghost use Rattle.text_out.specs.StandardError.{SaysEach};
ghost use Rattle.std.specs.Prelude.{◌≡◌};
ghost use Rattle.nbbo_runs.specs.Timeless.{output_hint, skips_hint, span_hint, timeless_texts, untimed_texts};

use run_settings::{RunOutput, RunSettings, SkipRule, TimeSpan};
use text_out::{TextOut, write_stderr};

/// The lines for what goes by time, where nothing has one.
const NO_PERIODS: &str = "nbbo: no frame has a time, so that --every has no rows\n";

const NO_SPAN: &str = "nbbo: no frame has a time, so that none lies in --from and --to\n";

const NO_SKIP: &str = "nbbo: no frame has a time, so that --skip-after gives up no gap by time\n";

/// Returns the line for an output, where nothing had a time; empty where none is due.
fn output_hint(output: RunOutput) -> &'static str
    ensures { result.now ≡ output_hint output }
{
    match output {
        RunOutput::Periods(_) | RunOutput::BestTimes(_) => NO_PERIODS,
        _ => "",
    }
}

/// Returns the line for a span of time, where nothing had a time; empty where none is due.
fn span_hint(span: TimeSpan) -> &'static str
    ensures { result.now ≡ span_hint span }
{
    if span.is_bounded() { NO_SPAN } else { "" }
}

/// Returns the line for a rule for gaps, where nothing had a time; empty where none is due.
fn skips_hint(skips: SkipRule) -> &'static str
    ensures { result.now ≡ skips_hint skips }
{
    match skips {
        SkipRule::After(_) => NO_SKIP,
        _ => "",
    }
}

/// Writes which of the settings have no effect, where nothing had a time.
fn tell_untimed<E: TextOut>(settings: &RunSettings, errors: &mut E)
    ensures { SaysEach (writing_of E.TextOut) (untimed_texts settings.now) errors.old errors.new }
{
    write_stderr(output_hint(settings.output), errors);
    write_stderr(span_hint(settings.span), errors);
    write_stderr(skips_hint(settings.skips), errors);
}

/// Writes after a run with this outcome which of the settings have no effect, since nothing that
/// was read had a time, if nothing had one.
pub(crate) fn tell_timeless<F, E: TextOut>(
    settings: &RunSettings,
    is_timed: bool,
    outcome: &Result<(), F>,
    errors: &mut E,
)
    ensures { SaysEach (writing_of E.TextOut)
        (timeless_texts settings.now is_timed outcome.now) errors.old errors.new }
{
    match outcome {
        Ok(()) if !is_timed => tell_untimed(settings, errors),
        _ => {}
    }
}
