//! Laws of what a venue's lock keeps.

ghost use Rattle.std.specs.Prelude.{◌≡◌, ◌≢◌, ◌⊎◌, ◌≤◌, ◌+◌, ℕ, List, length, Result, Err, IsOk};
ghost use Rattle.std.specs.List.{AllByRecursion};
ghost use Rattle.feed_types.specs.Prefix.{IsPrefix};
ghost use Rattle.feed_types.specs.Sequence.{SkipsNothing};
ghost use Rattle.feed_types.specs.Sessions.{Session, IsSessionAt, whole_sessions};
ghost use Rattle.mold_packet.specs.Content.{Content, Spells};
ghost use Rattle.line_arbiter.specs.declared.outcome.Outcome.{Outcome};
ghost use Rattle.line_arbiter.specs.Packets.{first_of};
ghost use Rattle.line_arbiter.specs.OfSession.{IsOfSession};
ghost use Rattle.line_arbiter.specs.Skips.{IsArrival};
ghost use Rattle.line_arbiter.specs.Histories.{History, all_begun};
ghost use Rattle.feed_steps.specs.SessionParts.{parts_of_sessions};
ghost use Rattle.feed_steps.specs.Premises.{BringExactly, SkipWithinSessions};
ghost use Rattle.venue_lines.specs.Cells.{CellFitsHistory, CellState, VenueLockInvariant};
ghost use Rattle.venue_lines.specs.Sections.{AcceptsTheirPacket, HasSkippedPast};
ghost use Rattle.venue_lines.specs.Datagrams.{AcceptsTheirs};

use crate::faults::TakeFault;
use feed_steps::FeedName;
use feed_types::{Genuine, sequence_is_of_the_sessions};
use line_arbiter::LineFault;
use mold_packet::Kind;

/// Where the lines carry exactly these sessions, what was sent through a venue's lane is, whenever
/// the venue's lock is free, the first of the sessions' items, session by session, each session's
/// End after its last item, where none of the items says that messages were given up.
pub fn sent_items_are_the_sessions<G: Genuine, N: FeedName>()
    ensures { (c : CellState) (all : List Session)
        → VenueLockInvariant G.Genuine N.lanes c
        → BringExactly G.Genuine c.arbiter.venue all → SkipsNothing c.lane.items
        → IsPrefix c.lane.items (whole_sessions all) }
{
    sequence_is_of_the_sessions::<G>();
}

/// Where nothing was given up in a history that a cell represents, no item says that anything was:
/// so what was sent is the first of the sessions' items.
pub fn sent_items_skip_nothing()
    ensures { (c : CellState) (h : History) → CellFitsHistory c h
        → AllByRecursion (λ b. AllByRecursion IsArrival b.packets) (all_begun h)
        → SkipsNothing c.lane.items }
{}

/// A packet of messages or a heartbeat of the sessions that the lines carry exactly is accepted, or
/// is of another session than the present one. So is an end that a cell was given, where the
/// present part of a history that the cell represents goes on from within the session.
pub fn packets_of_the_sessions_are_accepted<G: Genuine>()
    ensures locked { (venue : ℕ) (bytes : List ℕ) (answer : Result Outcome TakeFault)
        → AcceptsTheirs G.Genuine venue bytes answer
        → (all : List Session) (ordinal : ℕ) (session : Session) (p : Content) (rest : List ℕ)
        → BringExactly G.Genuine venue all → IsSessionAt all ordinal session
        → Spells bytes p rest → IsOfSession session p → p.kind ≢ Kind.End
        → IsOk answer ⊎ (answer ≡ Err (TakeFault.Line LineFault.OtherSession)) }
    ensures cell { (c : CellState) (p : Content) (answer : Result Outcome LineFault) (h : History)
        → AcceptsTheirPacket G.Genuine c.arbiter.venue p answer
        → HasSkippedPast G.Genuine c p answer → CellFitsHistory c h
        → (all : List Session) (ordinal : ℕ) (session : Session)
        → BringExactly G.Genuine c.arbiter.venue all → IsSessionAt all ordinal session
        → IsOfSession session p → first_of h.present.packets ≤ length session.items + 1
        → IsOk answer ⊎ (answer ≡ Err LineFault.OtherSession) }
{}

/// Where messages were given up, but none past the end of a session, what was sent is the first of
/// the sessions' parts, session by session: a part goes from its first number up to the first gap,
/// after Skipped in the place of the messages that were given up.
pub fn sent_items_are_the_sessions_parts<G: Genuine, N: FeedName>()
    ensures { (c : CellState) (all : List Session)
        (kept : VenueLockInvariant G.Genuine N.lanes c)
        → BringExactly G.Genuine c.arbiter.venue all
        → SkipWithinSessions all (all_begun kept.history)
        → IsPrefix c.lane.items (parts_of_sessions all (all_begun kept.history)) }
{}
