//! The lengths of periods by their words.
ghost use Rattle.std.specs.Prelude.{◌≡◌, ◌≢◌, ◌++◌, ℕ, List, MatchOption, codes};
ghost use Rattle.command_words.specs.PeriodWords.{IsInUnit, IsLengthOf, SpellsPeriod, milliseconds_in};

use run_settings::PeriodLength;

/// A unit of the lengths of periods.
#[derive(Clone, Copy)]
pub enum PeriodUnit {
    Milliseconds,
    Seconds,
}

/// The text before an `m` at the end of a text, if it ends in one.
fn before_m(front: &str) -> Option<&str>
    ensures { MatchOption result ((number : List ℕ) → front.now ≢ number ++ codes "m")
        (λ number. front.now ≡ number.now ++ codes "m") }
{
    front.strip_suffix('m')
}

/// The unit whose letters stand before an `s` at the end of a text, and the text before them.
fn unit_before(front: &str) -> (PeriodUnit, &str)
    ensures { IsInUnit result.0 result.1.now (front.now ++ codes "s") }
{
    match before_m(front) {
        Some(number) => (PeriodUnit::Milliseconds, number),
        None => (PeriodUnit::Seconds, front),
    }
}

/// The unit at the end of a text, and the text before it, if it ends in one.
fn unit_of(text: &str) -> Option<(PeriodUnit, &str)>
    ensures { MatchOption result
        ((unit : PeriodUnit) (number : List ℕ) → IsInUnit unit number text.now → ⊥)
        (λ parts. IsInUnit parts.0 parts.1.now text.now) }
{
    match text.strip_suffix('s') {
        Some(front) => Some(unit_before(front)),
        None => None,
    }
}

/// How many milliseconds a count of a unit is.
fn milliseconds_in(unit: PeriodUnit, count: u32) -> u64
    ensures { result ≡ milliseconds_in unit count }
{
    match unit {
        PeriodUnit::Milliseconds => u64::from(count),
        PeriodUnit::Seconds => u64::from(count) * 1_000,
    }
}

/// The length of the period that is a number of units, if it is one.
fn length_of(unit: PeriodUnit, number: &str) -> Option<PeriodLength>
    ensures { MatchOption result ((length : ℕ) → IsLengthOf unit number.now length → ⊥)
        (IsLengthOf unit number.now) }
{
    match number.parse::<u32>() {
        Ok(count) => PeriodLength::of_milliseconds(milliseconds_in(unit, count)),
        Err(_) => None,
    }
}

/// The length of the period that a text spells: a number and `ms` or `s`, from `1ms` to `3600s`.
pub fn read_period(text: &str) -> Option<PeriodLength>
    ensures { MatchOption result ((length : ℕ) → SpellsPeriod text.now length → ⊥)
        (SpellsPeriod text.now) }
{
    match unit_of(text) {
        Some((unit, number)) => length_of(unit, number),
        None => None,
    }
}
