//! The symbols that never had a best, of a run that forgets the changes that it has printed.
ghost use Rattle.std.specs.Prelude.{◌≡◌, ◌<◌, ℕ, IfOk, IfSome, List, flat_map, length, slice_get, take};
ghost use Rattle.run_notes.specs.AbsentSymbols.{unchanged_among};
ghost use Rattle.udp_listening.specs.Reports.{noted_symbols};
ghost use Rattle.udp_listening.specs.SettledNotices.{HasNoted, notices_of, rest_notices, settled_forgotten, settled_log, settled_notices};

use feed_types::SubscriberId;
use live_feed::{Logged, Settlement};
use run_notes::AbsentList;
use run_settings::ListenSettings;
use std::alloc::{AllocError, Global};

/// The symbols of which it is told at the end whether they had a best, of which none has changed
/// yet: those of settings with further options, where not all entries are kept; else none.
pub fn noted_symbols(alloc: Global, settings: &ListenSettings) -> Result<AbsentList, AllocError>
    ensures { IfOk result (λ unchanged. unchanged ≡ noted_symbols settings.now) }
{
    if settings.has_further_options() && settings.kept.is_some() {
        AbsentList::of(alloc, settings.feed.symbols.as_slice())
    } else {
        Ok(AbsentList::none(alloc))
    }
}

/// Takes out the symbols of the notices of a log.
pub fn note_log(unchanged: &mut AbsentList, log: &[Logged])
    ensures { unchanged.new ≡ unchanged_among (notices_of log.now) unchanged.old }
{
    for logged in log {
        unchanged.note_change(&logged.notice);
    }
}

/// Takes out the symbols of the subscriber's notices, but for those that its log has forgotten. The
/// id is below the number of subscribers.
fn note_rest(unchanged: &mut AbsentList, settlement: &Settlement, id: SubscriberId)
    requires { id < length settlement.now.subscribers }
    ensures { IfSome (slice_get settlement.now.subscribers id)
        (λ x. unchanged.new ≡ unchanged_among (rest_notices x) unchanged.old) }
{
    note_log(unchanged, settlement.log(id));
    unchanged.note_changes(settlement.queued(id));
    unchanged.note_changes(settlement.unoffered(id));
}

/// Takes out the symbols of such notices of the first subscriber, if there is one.
#[tactic(auto, using(crate::proofs::Noting::first_noted, crate::proofs::Noting::none_noted))]
fn note_first_rest(unchanged: &mut AbsentList, settlement: &Settlement)
    ensures { unchanged.new
        ≡ unchanged_among (flat_map rest_notices (take 1 settlement.now.subscribers))
        unchanged.old }
{
    if settlement.subscriber_count() == 0 {
        return;
    }
    note_rest(unchanged, settlement, SubscriberId::at(0));
}

/// Returns the symbols of which no notice of the settled feed's first subscriber is, where those
/// are left of which its log has forgotten none.
pub fn settled_unchanged(unchanged: AbsentList, settlement: &Settlement) -> AbsentList
    ensures { (symbols : List (List ℕ))
        → HasNoted symbols (settled_log settlement.now) (settled_forgotten settlement.now) unchanged
        → result ≡ unchanged_among (settled_notices settlement.now) symbols }
{
    let mut unchanged = unchanged;
    note_first_rest(&mut unchanged, settlement);
    unchanged
}
