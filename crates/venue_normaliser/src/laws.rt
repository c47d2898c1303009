//! Laws of the definitions.

ghost use Rattle.std.specs.Prelude.{◌≡◌, ℕ, ◌*◌, ◌≤◌, List, []};
ghost use Rattle.std.specs.List.{AllByRecursion};
ghost use Rattle.feed_types.specs.declared.item.Numbered.{Numbered};
ghost use Rattle.line_arbiter.specs.Packets.{Input};
ghost use Rattle.line_arbiter.specs.Answered.{AreAnswered};
ghost use Rattle.line_arbiter.specs.OfSession.{IsInputOfMessages};
ghost use Rattle.venue_normaliser.specs.Outputs.{GivesItemsFrom, IsPutOut, IsPutOutFrom, Opening, opened_at, put_first};
ghost use Rattle.venue_normaliser.specs.Snapshots.{HasSnapshotFault, IsSnapshot};
ghost use Rattle.venue_normaliser.specs.declared.snapshot_fault.SnapshotFault.{SnapshotFault};

/// Nothing is put out of a session of which nothing came.
pub fn nothing_is_put_out_of_nothing()
    ensures { (keys : List ℕ) → IsPutOut keys [] [] }
{}

/// What a snapshot shows, at the numbers just before its own, is what is put out of the session
/// that it begins, of which nothing came.
pub fn what_a_snapshot_shows_is_put_out()
    ensures { (keys : List ℕ) (opening : Opening) → 1 ≤ opening.number
        → IsPutOutFrom keys opening (opened_at opening.number) (put_first opening) }
{}

/// Where a venue's packets are of a session of messages, what is put out is the session whose item
/// n is the one that message n makes, up to the first gap.
pub fn what_is_put_out_is_the_session()
    ensures { (keys : List ℕ) (opening : Opening) (name : List ℕ)
        (messages : List (List ℕ)) (window : ℕ)
        (packets : List Input) (output : List Numbered)
        → AreAnswered name window packets
        → AllByRecursion (IsInputOfMessages name messages) packets
        → IsPutOutFrom keys opening packets output
        → GivesItemsFrom keys opening messages packets output }
{}

/// Bytes are one snapshot, and then have no fault; or they have one fault.
///
/// So [`read_snapshot`](crate::read_snapshot) has one right answer.
pub fn bytes_are_one_snapshot()
    ensures snapshot { (bytes : List ℕ) (messages others : List (List ℕ)) (number other : ℕ)
        → IsSnapshot bytes messages number → IsSnapshot bytes others other
        → (messages ≡ others) × (number ≡ other) }
    ensures no_fault { (bytes : List ℕ) (messages : List (List ℕ)) (number : ℕ)
        (fault : SnapshotFault)
        → IsSnapshot bytes messages number → HasSnapshotFault bytes fault → ⊥ }
    ensures fault { (bytes : List ℕ) (fault other : SnapshotFault)
        → HasSnapshotFault bytes fault → HasSnapshotFault bytes other → fault ≡ other }
{}
