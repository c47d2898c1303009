//! The journal of a configuration, whose sizes are checked.

ghost use Rattle.std.specs.Prelude.{◌≡◌, length, IfOk, IfErr, MatchOption, OnOk, Some};
ghost use Rattle.nbbo_book.specs.Refusals.{HasBookFault};
ghost use Rattle.journal_book.specs.Configs.{IsSized, IsGood, IsBadConfig, Explains, journal_of_config};

use crate::config_fault::{ConfigFault, CoreFault};
use crate::journal::Journal;
use feed_types::{FeedConfig, MAX_LANE, MAX_SYMBOLS, MAX_VENUES, MAX_WINDOW};
use nbbo_book::BookFault;
use std::alloc::Global;

/// The first fault of the configuration's sizes.
fn fault_of(config: &FeedConfig<'_>) -> Option<ConfigFault>
    ensures { MatchOption result (IsSized config.now) (IsBadConfig config.now) }
{
    if config.sessions.is_empty() || config.sessions.len() > MAX_VENUES {
        return Some(ConfigFault::BadVenueCount);
    }
    if config.window < 1 || config.window > MAX_WINDOW {
        return Some(ConfigFault::BadWindow);
    }
    if config.lane < 1 || config.lane > MAX_LANE {
        return Some(ConfigFault::BadCapacity);
    }
    if config.symbols.len() > MAX_SYMBOLS {
        return Some(ConfigFault::TooManySymbols);
    }
    None
}

/// Returns why a configuration of good sizes is refused, whose book has this fault.
fn refusal_of(config: &FeedConfig<'_>, fault: BookFault) -> CoreFault
    requires sized { IsSized config.now }
    requires fault { HasBookFault config.now.symbols.now (length config.now.sessions.now) fault }
    ensures { Explains config.now result }
{
    match fault {
        BookFault::DuplicateSymbol => CoreFault::BadConfig(ConfigFault::DuplicateSymbol),
        _ => CoreFault::NoMemory,
    }
}

/// Makes the journal of the configuration, without an entry. It keeps all.
///
/// BadConfig carries the configuration's first fault, in the order of [`ConfigFault`]; NoMemory
/// comes where memory was refused.
pub fn new_journal(alloc: Global, config: &FeedConfig<'_>) -> Result<Journal, CoreFault>
    ensures empty { IfOk result (λ journal. journal ≡ journal_of_config config.now) }
    ensures good { OnOk result (IsGood config.now) }
    ensures fault { IfErr result (Explains config.now) }
{
    if let Some(fault) = fault_of(config) {
        return Err(CoreFault::BadConfig(fault));
    }
    match Journal::new(alloc, config.symbols, config.sessions.len(), config.journal) {
        Ok(journal) => Ok(journal),
        Err(fault) => Err(refusal_of(config, fault)),
    }
}

/// Makes the same with a journal that keeps only what is still wanted, in which a subscriber may be
/// behind by `kept` changes.
pub fn new_keeping_journal(
    alloc: Global,
    config: &FeedConfig<'_>,
    kept: u32,
) -> Result<Journal, CoreFault>
    ensures empty { IfOk result (λ journal. journal ≡ record (journal_of_config config.now) {
      kept = Some kept;
      ready = journal.ready;
    }) }
    ensures good { OnOk result (IsGood config.now) }
    ensures fault { IfErr result (Explains config.now) }
{
    if let Some(fault) = fault_of(config) {
        return Err(CoreFault::BadConfig(fault));
    }
    let venues = config.sessions.len();
    match Journal::keeping(alloc, config.symbols, venues, config.journal, kept) {
        Ok(journal) => Ok(journal),
        Err(fault) => Err(refusal_of(config, fault)),
    }
}
