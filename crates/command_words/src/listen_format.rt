//! The form of the best lines of a run that listens.
ghost use Rattle.std.specs.Prelude.{◌≡◌, option_map};
ghost use Rattle.command_words.specs.ListenFormats.{listen_format_in, listen_name_in, listen_style_in};

use crate::best_format::format_named;
use crate::refusal::Refusal;
use crate::time_style::{best_format_in, time_style_named};
use run_settings::BestFormat;

/// Returns the format that is named, `Text` where none is, with times in seconds. One may be named
/// only where best lines are printed as they come.
fn read_listen_name(follow: bool, name: Option<&str>) -> Result<BestFormat, Refusal>
    ensures { result ≡ listen_name_in follow (option_map (λ name. name.now) name.entry) }
{
    match name {
        None => Ok(BestFormat::Text),
        Some(_) if !follow => Err(Refusal::FormatUnfollowed),
        Some(name) => format_named(name).ok_or(Refusal::BadFormat),
    }
}

/// Returns the format with its times in the style that is named, if one is.
fn read_listen_style(plain: BestFormat, times: Option<&str>) -> Result<BestFormat, Refusal>
    ensures { result ≡ listen_style_in (option_map (λ name. name.now) times.entry) plain }
{
    let Some(times) = times else {
        return Ok(plain);
    };
    match time_style_named(times) {
        Some(style) => best_format_in(style, plain).ok_or(Refusal::TimesOfText),
        None => Err(Refusal::BadTimeStyle),
    }
}

/// Returns the format that is named, with times in the style that is named, if one is.
pub fn read_listen_format(
    follow: bool,
    name: Option<&str>,
    times: Option<&str>,
) -> Result<BestFormat, Refusal>
    ensures { result ≡ listen_format_in follow (option_map (λ name. name.now) name.entry)
        (option_map (λ name. name.now) times.entry) }
{
    match read_listen_name(follow, name) {
        Ok(plain) => read_listen_style(plain, times),
        Err(refusal) => Err(refusal),
    }
}
