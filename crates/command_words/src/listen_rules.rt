//! The rules of a run of `listen`: which ends end a line, how many changes are kept, and whose
//! datagrams are taken.
ghost use Rattle.std.specs.Prelude.{◌≡◌, codes};
ghost use Rattle.clap.specs.Matches.{found_of};
ghost use Rattle.clap.specs.Walk.{first_of, one_of, rows_of};
ghost use Rattle.command_words.specs.ListenRequests.{ReadsListenRules, is_followed, kept_by};
ghost use Rattle.command_words.specs.OptionValues.{number_given};
ghost use Rattle.command_words.specs.SenderLists.{ReadsNamedSenders};

use crate::end_rule::read_end_rule;
use crate::limits::DEFAULT_KEPT;
use crate::listen_parts::ListenRules;
use crate::option_values::{given_text, number_or};
use crate::reception::is_followed;
use crate::refusal::Refusal;
use crate::sender_list::read_named_senders;
use clap::ArgMatches;
use run_settings::Senders;
use std::alloc::Global;

/// Returns how many changes the subscriber may be behind, where best lines are printed as they
/// come; else all are kept, and the option may not be given.
fn kept_of(listen: &ArgMatches<'_>) -> Result<Option<u32>, Refusal>
    ensures { result ≡ kept_by (is_followed (rows_of (found_of listen.now)))
        (number_given (one_of (codes "kept") (rows_of (found_of listen.now))))
        (first_of (codes "kept") (rows_of (found_of listen.now))) }
{
    if is_followed(listen) {
        return Ok(Some(number_or(listen, "kept", DEFAULT_KEPT)));
    }
    match given_text(listen, "kept") {
        Some(_) => Err(Refusal::KeptUnfollowed),
        None => Ok(None),
    }
}

/// Returns the senders that the option gives, by either of its names.
fn senders_of(alloc: Global, listen: &ArgMatches<'_>) -> Result<Senders, Refusal>
    ensures { ReadsNamedSenders (first_of (codes "senders") (rows_of (found_of listen.now)))
        (first_of (codes "from") (rows_of (found_of listen.now))) result }
{
    let from = given_text(listen, "from");
    read_named_senders(alloc, given_text(listen, "senders"), from)
}

/// Returns the rules that the options of `listen` give.
pub fn listen_rules_of(alloc: Global, listen: &ArgMatches<'_>) -> Result<ListenRules, Refusal>
    ensures { ReadsListenRules (rows_of (found_of listen.now)) result }
{
    let end = read_end_rule(given_text(listen, "end"))?;
    let kept = kept_of(listen)?;
    let senders = senders_of(alloc, listen)?;
    Ok(ListenRules { end, kept, senders })
}
