//! The run over a list of events.

ghost use Rattle.std.specs.Prelude.{◌≡◌, ◌≤◌, length, IfOk, IfErr, OnOk};
ghost use Rattle.feed_core.specs.Worlds.{all_terms, setting_of};
ghost use Rattle.feed_core.specs.Headline.{IsRunOf, ShowsHeadline};
ghost use Rattle.journal_book.specs.Configs.{IsGood, Explains, journal_of_config};

use crate::machine::Machine;
use crate::world::World;
use feed_steps::Event;
use feed_types::FeedConfig;
use filter_terms::Filter;
use journal_book::{CoreFault, Journal, new_journal};
use std::alloc::{AllocError, Global};

fn run_over(
    alloc: Global,
    config: &FeedConfig<'_>,
    journal: Journal,
    events: &[Event<'_>],
    filters: &[Filter],
) -> Result<World, AllocError>
    requires few { length config.now.sessions.now ≤ 16 }
    requires empty { journal ≡ journal_of_config config.now }
    ensures { IfOk result
        (IsRunOf (setting_of config.now (all_terms filters.now)) events.now) }
{
    let mut machine = Machine::new(alloc, config, journal)?;
    let outcomes = machine.take_all(alloc, events, filters)?;
    machine.into_world(outcomes)
}

/// Takes `events` one after another, and returns their outcomes and what the feed then holds.
/// `filters` are handed in for Subscribe, in this order.
///
/// The events may be any, in any order: an impossible one is refused by its code, and changes
/// nothing. A packet that the lines refuse is listed among the packets that came, and a Subscribe
/// that is refused for want of a place uses its filter. The configuration's `log` isn't used.
/// BadConfig carries the first fault that fits, in the order of [`ConfigFault`]; NoMemory comes
/// where memory was refused, and then nothing is shown. The filters are dropped in each case.
pub fn run(
    alloc: Global,
    config: &FeedConfig<'_>,
    events: &[Event<'_>],
    filters: Vec<Filter>,
) -> Result<World, CoreFault>
    ensures headline { IfOk result
        (ShowsHeadline (setting_of config.now (all_terms filters.items)) events.now) }
    ensures good { OnOk result (IsGood config.now) }
    ensures fault { IfErr result (Explains config.now) }
{
    let journal = new_journal(alloc, config)?;
    match run_over(alloc, config, journal, events, filters.as_slice()) {
        Ok(world) => Ok(world),
        Err(_) => Err(CoreFault::NoMemory),
    }
}
