//! A law of what the consolidator's lock keeps.

ghost use Rattle.std.specs.Prelude.{◌<◌, ℕ, List, length};
ghost use Rattle.feed_types.specs.Prefix.{IsPrefix};
ghost use Rattle.feed_types.specs.Sequence.{SkipsNothing};
ghost use Rattle.feed_types.specs.Sessions.{Session, whole_sessions};
ghost use Rattle.feed_steps.specs.Premises.{BringExactly};
ghost use Rattle.journal_book.specs.ItemsIn.{items_in};
ghost use Rattle.hub_lanes.specs.Hubs.{HubState, HubLockInvariant};

use feed_steps::FeedName;
use feed_types::{Genuine, sequence_is_of_the_sessions};

/// Where the lines carry exactly these sessions, a venue's items in the journal's entries are,
/// whenever the consolidator's lock is free, the first of the sessions' items, session by session,
/// each session's End after its last item, where none of the items says that messages were given
/// up.
pub fn journaled_items_are_the_sessions<G: Genuine, N: FeedName>()
    ensures { (s : HubState) (venue : ℕ) (all : List Session)
        → HubLockInvariant G.Genuine N.lanes s → venue < length N.lanes.venues
        → BringExactly G.Genuine venue all → SkipsNothing (items_in s.journal.entries venue)
        → IsPrefix (items_in s.journal.entries venue) (whole_sessions all) }
{
    sequence_is_of_the_sessions::<G>();
}
