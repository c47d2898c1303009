//! The form in which counts are printed.
ghost use Rattle.std.specs.Prelude.{◌≡◌, option_map};
ghost use Rattle.command_words.specs.StatsFormats.{listen_stats_in, stats_format_in, stats_format_named};

use crate::refusal::Refusal;
use run_settings::{ListenStats, StatsFormat};

/// Returns the form of this name.
fn stats_format_named(name: &str) -> Option<StatsFormat>
    ensures { result ≡ stats_format_named name.now }
{
    if name == "table" {
        Some(StatsFormat::Table)
    } else if name == "json" {
        Some(StatsFormat::Json)
    } else {
        None
    }
}

/// Returns the form of the counts by its name, a table where none is named.
pub fn read_stats_format(name: Option<&str>) -> Result<StatsFormat, Refusal>
    ensures { result ≡ stats_format_in (option_map (λ name. name.now) name.entry) }
{
    match name {
        None => Ok(StatsFormat::Table),
        Some(name) => stats_format_named(name).ok_or(Refusal::BadFormat),
    }
}

/// Returns the counts that a run that listens prints every `seconds` seconds, if that is said, in
/// the form of this name.
pub fn read_listen_stats(
    seconds: Option<u32>,
    name: Option<&str>,
) -> Result<Option<ListenStats>, Refusal>
    ensures { result ≡ listen_stats_in seconds (option_map (λ name. name.now) name.entry) }
{
    match seconds {
        Some(seconds) => Ok(Some(ListenStats {
            seconds,
            format: read_stats_format(name)?,
        })),
        None if name.is_some() => Err(Refusal::BadFormat),
        None => Ok(None),
    }
}
