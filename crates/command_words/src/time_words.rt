//! Times by their words.
ghost use Rattle.std.specs.Prelude.{◌≡◌, ◌+◌, ◌*◌, ◌<◌, ◌^◌, ℕ, pos, MatchOption, SomeIff};
ghost use Rattle.command_words.specs.TimeWords.{SpellsInstant, SpellsNumber, SpellsSeconds, SpellsTime};

use jiff::Timestamp;

/// The nanoseconds of a second.
const SECOND: u64 = 1_000_000_000;

/// The number of decimals of a second that rows have.
const DECIMALS: usize = 9;

/// Returns the time that a text spells, in nanoseconds from 1970 on: a date and a time of day, or
/// seconds with a point and nine decimals.
pub fn read_time(text: &str) -> Option<u64>
    ensures { MatchOption result ((time : ℕ) → SpellsTime text.now time → ⊥)
        (SpellsTime text.now) }
{
    match read_instant(text) {
        Some(time) => Some(time),
        None => read_seconds(text),
    }
}

/// Returns the instant that a text spells as a date and a time of day.
fn read_instant(text: &str) -> Option<u64>
    ensures { MatchOption result ((time : ℕ) → SpellsInstant text.now time → ⊥)
        (SpellsInstant text.now) }
{
    match text.parse::<Timestamp>() {
        Ok(time) => nanoseconds_of(time),
        Err(_) => None,
    }
}

/// Returns the nanoseconds as 64 bits, if they fit.
fn nanoseconds_of(time: Timestamp) -> Option<u64>
    ensures { MatchOption result ((word : ℕ) → word < 2 ^ 64 → time.nanosecond ≡ pos word → ⊥)
        (λ word. (time.nanosecond ≡ pos word) × (word < 2 ^ 64)) }
{
    let time = time.as_nanosecond();
    if 0 <= time && time <= i128::from(u64::MAX) {
        return Some(time as u64);
    }
    None
}

/// Returns the number of 64 bits that digits spell.
fn number_in(digits: &str) -> Option<u64>
    ensures { MatchOption result ((number : ℕ) → SpellsNumber digits.now number → ⊥)
        (SpellsNumber digits.now) }
{
    if digits.starts_with('+') {
        return None;
    }
    match digits.parse::<u64>() {
        Ok(number) => Some(number),
        Err(_) => None,
    }
}

/// Returns the nanoseconds of `seconds` seconds and `rest` nanoseconds, if they have 64 bits.
fn nanoseconds_in(seconds: u64, rest: u64) -> Option<u64>
    ensures { SomeIff result (seconds * 1000000000 + rest < 2 ^ 64)
        (seconds * 1000000000 + rest) }
{
    seconds.checked_mul(SECOND)?.checked_add(rest)
}

/// Returns the time that a text spells in seconds with a point and nine decimals.
fn read_seconds(text: &str) -> Option<u64>
    ensures { MatchOption result ((time : ℕ) → SpellsSeconds text.now time → ⊥)
        (SpellsSeconds text.now) }
{
    let Some((whole, decimals)) = text.split_once('.') else {
        return None;
    };
    if decimals.len() != DECIMALS {
        return None;
    }
    let Some(seconds) = number_in(whole) else {
        return None;
    };
    let Some(rest) = number_in(decimals) else {
        return None;
    };
    nanoseconds_in(seconds, rest)
}
