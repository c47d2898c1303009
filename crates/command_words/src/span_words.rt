//! The span of time by the options `--from` and `--to`.
ghost use Rattle.std.specs.Prelude.{◌≡◌, option_map};
ghost use Rattle.command_words.specs.SpanWords.{ReadsSpan, ReadsTime, is_in_order, is_reported, span_in};

use crate::refusal::Refusal;
use crate::time_words::read_time;
use run_settings::{RunOutput, TimeSpan};

/// Returns the time that the text of an option spells, if it is given.
fn read_optional(text: Option<&str>) -> Result<Option<u64>, Refusal>
    ensures { ReadsTime (option_map (λ text. text.now) text.entry) result }
{
    match text {
        None => Ok(None),
        Some(text) => match read_time(text) {
            Some(time) => Ok(Some(time)),
            None => Err(Refusal::BadTime),
        },
    }
}

/// Returns whether an end isn't before a beginning.
fn is_in_order(from: Option<u64>, to: Option<u64>) -> bool
    ensures { result ≡ is_in_order from to }
{
    match (from, to) {
        (Some(from), Some(to)) => !(to < from),
        _ => true,
    }
}

/// Returns whether rows or statistics are printed, and not all lines.
fn is_reported(output: &RunOutput) -> bool
    ensures { result ≡ is_reported output.now }
{
    match output {
        RunOutput::Lines => false,
        RunOutput::Bests(_) | RunOutput::Stats(_) | RunOutput::Gaps(_) => true,
        RunOutput::Periods(_) | RunOutput::BestTimes(_) => true,
    }
}

/// Returns the span of these times that this output is of, by the text of `--lines`.
fn span_by(output: &RunOutput, lines: Option<&str>, span: TimeSpan) -> Result<TimeSpan, Refusal>
    ensures { result ≡ span_in output.now (option_map (λ list. list.now) lines.entry) span }
{
    if !is_in_order(span.from, span.to) {
        Err(Refusal::ToBeforeFrom)
    } else if span.is_bounded() && !is_reported(output) {
        Err(Refusal::SpanOfLines)
    } else if span.is_bounded() && lines.is_none() {
        Err(Refusal::SpanWithoutLines)
    } else {
        Ok(span)
    }
}

/// Returns the span in which events lie that this output is of, by the texts of `--from`, `--to`
/// and `--lines`.
pub fn read_span(
    output: &RunOutput,
    from: Option<&str>,
    to: Option<&str>,
    lines: Option<&str>,
) -> Result<TimeSpan, Refusal>
    ensures { ReadsSpan output.now (option_map (λ text. text.now) from.entry)
        (option_map (λ text. text.now) to.entry) (option_map (λ list. list.now) lines.entry)
        result }
{
    let from = read_optional(from)?;
    let to = read_optional(to)?;
    span_by(output, lines, TimeSpan { from, to })
}
