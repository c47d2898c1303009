//! The lines that a replay prints: all, or the best ones alone in a format.
ghost use Rattle.std.specs.Prelude.{◌≡◌, option_map};
ghost use Rattle.command_words.specs.BestFormats.{format_named, replay_output_in};

use crate::refusal::Refusal;
use run_settings::{BestFormat, RunOutput, ValueStyle};

/// Returns the format of this name.
pub fn format_named(name: &str) -> Option<BestFormat>
    ensures { result ≡ format_named name.now }
{
    if name == "text" {
        Some(BestFormat::Text)
    } else if name == "csv" {
        Some(BestFormat::Csv(ValueStyle::numbers()))
    } else if name == "json" {
        Some(BestFormat::Json(ValueStyle::numbers()))
    } else {
        None
    }
}

/// Returns the lines that are printed: all, or the best ones alone in the format that is named,
/// `Text` where none is. Where all lines are printed no format may be named.
pub fn read_replay_output(best_only: bool, name: Option<&str>) -> Result<RunOutput, Refusal>
    ensures { result ≡ replay_output_in best_only (option_map (λ name. name.now) name.entry) }
{
    match name {
        None if best_only => Ok(RunOutput::Bests(BestFormat::Text)),
        None => Ok(RunOutput::Lines),
        Some(_) if !best_only => Err(Refusal::BadFormat),
        Some(name) => match format_named(name) {
            Some(format) => Ok(RunOutput::Bests(format)),
            None => Err(Refusal::BadFormat),
        },
    }
}
