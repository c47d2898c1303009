//! Laws of the definitions.

ghost use Rattle.std.specs.Prelude.{ℕ, List, [], ◌++◌};
ghost use Rattle.feed_types.specs.declared.item.Numbered.{Numbered};
ghost use Rattle.mold_packet.specs.Content.{Content};
ghost use Rattle.item_packets.specs.Carried.{Carry};

/// What is written by a call after another carries what both put out, one after the other. The
/// function does nothing: its contract is a law.
pub fn packets_carry_on()
    ensures more { (name : List ℕ) (before more : List Numbered) (packets written : List Content)
        → Carry name before packets → Carry name more written
        → Carry name (before ++ more) (packets ++ written) }
    ensures none { (name : List ℕ) → Carry name [] [] }
{}
