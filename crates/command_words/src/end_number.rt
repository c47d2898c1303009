//! The rules for the number of an end of session by their names.
ghost use Rattle.std.specs.Prelude.{◌≡◌, option_map};
ghost use Rattle.command_words.specs.EndNumbers.{end_number_in, end_number_named};

use crate::refusal::Refusal;
use run_settings::EndNumberRule;

/// Returns the rule of this name.
fn end_number_named(name: &str) -> Option<EndNumberRule>
    ensures { result ≡ end_number_named name.now }
{
    if name == "next" {
        Some(EndNumberRule::Next)
    } else if name == "last" {
        Some(EndNumberRule::Last)
    } else {
        None
    }
}

/// Returns the rule by its name, `Next` where none is named.
pub fn read_end_number(name: Option<&str>) -> Result<EndNumberRule, Refusal>
    ensures { result ≡ end_number_in (option_map (λ name. name.now) name.entry) }
{
    match name {
        None => Ok(EndNumberRule::Next),
        Some(name) => end_number_named(name).ok_or(Refusal::BadEndNumber),
    }
}
