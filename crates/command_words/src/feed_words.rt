//! The settings of a feed that options give.
ghost use Rattle.std.specs.Prelude.{◌≡◌, ◌≤◌, IfOk, codes, is_some, vec_len};
ghost use Rattle.clap.specs.Matches.{found_of};
ghost use Rattle.clap.specs.Walk.{first_of, one_of, rows_of};
ghost use Rattle.command_words.specs.FeedRequests.{ReadsFeed};
ghost use Rattle.command_words.specs.OptionValues.{list_in, symbol_words_in, window_in};
ghost use Rattle.command_words.specs.Readings.{mapped};
ghost use Rattle.command_words.specs.Sessions.{ReadsSessions};
ghost use Rattle.command_words.specs.Symbols.{ReadsSymbols};
ghost use Rattle.std.specs.List.{IsDistinct};

use crate::limits::DEFAULT_WINDOW;
use crate::option_values::{given_text, number_of, text_of};
use crate::refusal::Refusal;
use crate::sessions::read_sessions;
use crate::symbols::read_symbols;
use clap::ArgMatches;
use feed_types::{MAX_WINDOW, SessionName, SymbolName};
use run_settings::FeedSettings;
use std::alloc::Global;

/// Returns the window that the option gives. The parser has refused a number that is out of range.
pub fn window_of(options: &ArgMatches<'_>) -> u32
    ensures value { result ≡ window_in (one_of (codes "window") (rows_of (found_of options.now))) }
    ensures some { 1 ≤ result }
    ensures in_range { result ≤ 65535 }
{
    match number_of(options, "window") {
        Some(window) if 1 <= window && window <= MAX_WINDOW => window,
        _ => DEFAULT_WINDOW,
    }
}

/// Returns the first session of each venue that the options name. With `--lines` others may follow.
fn sessions_of(alloc: Global, options: &ArgMatches<'_>) -> Result<Vec<SessionName>, Refusal>
    ensures reads { ReadsSessions
        (is_some (first_of (codes "lines") (rows_of (found_of options.now))))
        (list_in (rows_of (found_of options.now)))
        (mapped (λ sessions. sessions.items) result) }
    ensures count { IfOk result (λ sessions. (1 ≤ vec_len sessions) × (vec_len sessions ≤ 16)) }
{
    let chained = given_text(options, "lines").is_some();
    read_sessions(alloc, text_of(options, "sessions"), chained)
}

/// Returns the symbols that the words name.
pub fn symbols_of(alloc: Global, options: &ArgMatches<'_>) -> Result<Vec<SymbolName>, Refusal>
    ensures { ReadsSymbols (symbol_words_in (rows_of (found_of options.now)))
        (mapped (λ symbols. symbols.items) result) }
{
    match options.get_strs("symbols") {
        Some(words) => read_symbols(alloc, words),
        None => read_symbols(alloc, &[]),
    }
}

/// Returns the settings of a feed that the options give, with room for `journal` entries.
pub fn feed_of(
    alloc: Global,
    options: &ArgMatches<'_>,
    journal: u32,
) -> Result<FeedSettings, Refusal>
    ensures { ReadsFeed (rows_of (found_of options.now)) journal result }
{
    Ok(FeedSettings {
        sessions: sessions_of(alloc, options)?,
        symbols: symbols_of(alloc, options)?,
        window: window_of(options),
        journal,
    })
}
