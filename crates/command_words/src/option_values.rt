//! The values of options, as `clap` found them: texts, numbers and flags.
ghost use Rattle.std.specs.Prelude.{◌≡◌, [], option_map, unwrap_or};
ghost use Rattle.clap.specs.Matches.{found_of};
ghost use Rattle.clap.specs.Walk.{first_of, one_of, rows_of};
ghost use Rattle.command_words.specs.OptionValues.{is_flag_set, number_given};

use clap::ArgMatches;

/// Returns the text of the option of this name, if it is given.
pub fn given_text<'a>(options: &ArgMatches<'a>, name: &str) -> Option<&'a str>
    ensures { option_map (λ text. text.now) result
        ≡ first_of name.now (rows_of (found_of options.now)) }
{
    options.get_str(name)
}

/// Returns the text of the option of this name, empty where it isn't given.
pub fn text_of<'a>(options: &ArgMatches<'a>, name: &str) -> &'a str
    ensures { result.now ≡ unwrap_or (first_of name.now (rows_of (found_of options.now))) [] }
{
    match given_text(options, name) {
        Some(text) => text,
        None => "",
    }
}

/// Returns the number that the option of this name gives, if it is given.
pub fn number_of(options: &ArgMatches<'_>, name: &str) -> Option<u32>
    ensures { result ≡ number_given (one_of name.now (rows_of (found_of options.now))) }
{
    match options.get_one::<u32>(name) {
        Some(number) => Some(number),
        None => None,
    }
}

/// Returns the number that the option of this name gives, `usual` where it isn't given.
pub fn number_or(options: &ArgMatches<'_>, name: &str, usual: u32) -> u32
    ensures { result
        ≡ unwrap_or (number_given (one_of name.now (rows_of (found_of options.now)))) usual }
{
    match number_of(options, name) {
        Some(number) => number,
        None => usual,
    }
}

/// Returns whether the flag of this name is given.
pub fn flag_of(options: &ArgMatches<'_>, name: &str) -> bool
    ensures { result ≡ is_flag_set (one_of name.now (rows_of (found_of options.now))) }
{
    match options.get_one::<bool>(name) {
        Some(flag) => flag,
        None => false,
    }
}
