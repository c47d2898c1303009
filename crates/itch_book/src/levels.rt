//! The levels of one side of a symbol.

ghost use Rattle.std.specs.Prelude.{◌≡◌, ℕ, ◌+◌, ◌<◌, ◌≤◌, [], MatchBool, MatchOption, OnOk, OnErr, length, slice_index_or, nat_le, if◌then◌else◌};
ghost use Rattle.itch_book.specs.Levels.{AreRising, HasShares, IsLevelAt, level_depth, LiesBetween};
ghost use Rattle.itch_book.specs.Bests.{IsBestLevel, whole_lots};

use crate::level::Level;
use std::alloc::Global;
use std::marker::Model;

/// The most shares of a level.
const MOST_SHARES: u64 = 9_223_372_036_854_775_808;

/// Why shares can't be added to a level.
#[derive(Clone, Copy, Debug, PartialEq, Eq)]
pub(crate) enum LevelFault {
    NoMemory,
    TooManyShares,
}

/// The shares that are shown at each price of one side of a symbol, the best last.
#[derive(Drop)]
pub(crate) struct Levels {
    worst_first: Vec<Level>,
}

impl Model for Levels {
    ghost use Rattle.std.specs.Prelude.{List};
    ghost use Rattle.itch_book.specs.declared.level.Level.{Level};

    ghost Value = { List Level };

    ghost use Rattle.itch_book.specs.Levels.{AreRising};

    ghost view = { λ l. l.worst_first.items };

    ghost invariant = { λ l. AreRising l.worst_first.items };
}

/// Returns how many levels have a lower rank. It looks from the best one on, as most orders are
/// near it.
#[inline(always)]
fn place_of(levels: &[Level], rank: u32) -> usize
    requires { AreRising levels.now }
    ensures { LiesBetween levels.now rank result }
{
    let mut at = levels.len();
    while at > 0 && levels[at - 1].rank >= rank {
        at -= 1;
    }
    at
}

/// Returns whether the level at a place has the rank.
#[inline(always)]
fn is_at(levels: &[Level], at: usize, rank: u32) -> bool
    ensures { MatchBool result (IsLevelAt levels.now at rank) (IsLevelAt levels.now at rank → ⊥) }
{
    at < levels.len() && levels[at].rank == rank
}

/// Returns the place of the level of the rank, of which shares can be taken away.
#[inline(always)]
fn place_with(levels: &[Level], rank: u32, shares: u32) -> usize
    requires rising { AreRising levels.now }
    requires some { 0 < shares }
    requires enough { level_depth levels.now (rank + 1) + shares ≤ level_depth levels.now rank }
    ensures { HasShares levels.now result rank shares }
{
    // The shares are for the prover alone.
    let _ = shares;
    place_of(levels, rank)
}

/// Returns the shares in whole round lots.
#[inline(always)]
fn in_whole_lots(shares: u64, lot: u32) -> u64
    requires { 1 ≤ lot }
    ensures { result ≡ whole_lots lot shares }
{
    shares - shares % u64::from(lot)
}

impl Levels {
    /// Makes no levels.
    pub(crate) fn new(alloc: Global) -> Levels
        ensures { result ≡ [] }
    {
        Levels {
            worst_first: Vec::new(alloc),
        }
    }

    /// Adds shares at a rank. Where that is refused nothing changes.
    pub(crate) fn add(&mut self, rank: u32, shares: u32) -> Result<(), LevelFault>
        ensures depth { OnOk result ((r : ℕ) → level_depth self.new r
            ≡ level_depth self.old r + (if nat_le r rank then shares else 0)) }
        ensures refused { OnErr result (self.new ≡ self.old) }
    {
        let at = place_of(self.worst_first.as_slice(), rank);
        if is_at(self.worst_first.as_slice(), at, rank) {
            let there = self.worst_first[at].shares;
            if there > MOST_SHARES - u64::from(shares) {
                return Err(LevelFault::TooManyShares);
            }
            self.worst_first[at] = Level {
                rank,
                shares: there + u64::from(shares),
            };
            return Ok(());
        }
        let level = Level {
            rank,
            shares: shares.into(),
        };
        match self.worst_first.insert(at, level) {
            Ok(()) => Ok(()),
            Err(_) => Err(LevelFault::NoMemory),
        }
    }

    /// Takes shares away at a rank, of at least as many.
    pub(crate) fn take(&mut self, rank: u32, shares: u32)
        requires { level_depth self.old (rank + 1) + shares ≤ level_depth self.old rank }
        ensures { (r : ℕ) → level_depth self.new r + (if nat_le r rank then shares else 0)
            ≡ level_depth self.old r }
    {
        if shares == 0 {
            return;
        }
        let at = place_with(self.worst_first.as_slice(), rank, shares);
        let there = self.worst_first[at].shares;
        if there > u64::from(shares) {
            self.worst_first[at] = Level {
                rank,
                shares: there - u64::from(shares),
            };
        } else {
            self.worst_first.remove(at);
        }
    }

    /// Returns the best rank down to which there are at least `lot` shares, and those in whole
    /// lots, if there is one.
    pub(crate) fn best(&self, lot: u32) -> Option<Level>
        requires { 1 ≤ lot }
        ensures { MatchOption result ((r : ℕ) → level_depth self.now r < lot)
            (IsBestLevel lot (level_depth self.now)) }
    {
        let mut at = self.worst_first.len();
        let mut shares: u64 = 0;
        while at > 0 {
            at -= 1;
            shares += self.worst_first[at].shares;
            if shares >= u64::from(lot) {
                return Some(Level {
                    rank: self.worst_first[at].rank,
                    shares: in_whole_lots(shares, lot),
                });
            }
        }
        None
    }
}
