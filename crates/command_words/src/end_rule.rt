//! The rules for ends of session by their names.
ghost use Rattle.std.specs.Prelude.{◌≡◌, option_map};
ghost use Rattle.command_words.specs.EndRules.{end_rule_in, end_rule_named};

use crate::refusal::Refusal;
use run_settings::EndRule;

/// Returns the rule of this name.
fn end_rule_named(name: &str) -> Option<EndRule>
    ensures { result ≡ end_rule_named name.now }
{
    if name == "any" {
        Some(EndRule::AnySession)
    } else if name == "own" {
        Some(EndRule::OwnSession)
    } else if name == "none" {
        Some(EndRule::NoSession)
    } else {
        None
    }
}

/// Returns the rule by its name, `AnySession` where none is named.
pub fn read_end_rule(name: Option<&str>) -> Result<EndRule, Refusal>
    ensures { result ≡ end_rule_in (option_map (λ name. name.now) name.entry) }
{
    match name {
        None => Ok(EndRule::AnySession),
        Some(name) => end_rule_named(name).ok_or(Refusal::BadEnd),
    }
}
