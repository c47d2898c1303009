//! What a rule gives up of a venue before a packet.
ghost use Rattle.std.specs.Prelude.{◌≡◌, ◌≤◌, ◌+◌, ◌⊎◌, ⊤, ℕ, MatchBool, MatchOption};
ghost use Rattle.mold_packet.specs.Content.{Content};
ghost use Rattle.line_arbiter.specs.Fits.{cursors_of};
ghost use Rattle.line_arbiter.specs.Histories.{History};
ghost use Rattle.line_arbiter.specs.LastSent.{last_sent};
ghost use Rattle.feed_text.specs.Following.{Follows};
ghost use Rattle.feed_text.specs.Rules.{HasSentAll, IsAhead, IsJoinedAt, IsPastGap, SkipsBefore, first_come};
ghost use Rattle.feed_text.specs.Skipping.{SkipsBytes, SkipsNever};

use crate::joining::{is_fresh, join_at};
use crate::venue::VenueReplay;
use feed_types::Anything;
use line_arbiter::{Arbiter, ArbiterStatus};
use mold_packet::{Kind, Packet, read_packet};
use run_settings::SkipRule;

/// Returns whether the packet would be answered Ahead. `window` is the arbiter's.
fn is_ahead(
    arbiter: &Arbiter<Anything>,
    cursors: &ArbiterStatus,
    window: u32,
    packet: &Packet<'_>,
) -> bool
    ensures { (h : History) → HasSentAll window arbiter.now h
        → cursors.now ≡ cursors_of (last_sent h) h.present.packets
        → MatchBool result (IsAhead window h packet.now) (IsAhead window h packet.now → ⊥) }
{
    if packet.session() != arbiter.session() || packet.kind() != Kind::Messages {
        return false;
    }
    let last = packet.last_number();
    if let Some(end) = cursors.end {
        if last >= end {
            return false;
        }
    }
    last > cursors.sent && last - cursors.sent > u64::from(window)
}

/// Returns how far past the front the first number is that has come, of a held message or the
/// packet's own, which is `own` past the front.
fn first_past(arbiter: &Arbiter<Anything>, cursors: &ArbiterStatus, own: u64) -> u64
    ensures most { result ≤ own }
    ensures first { (window : ℕ) (h : History) (p : Content) → HasSentAll window arbiter.now h
        → cursors.now ≡ cursors_of (last_sent h) h.present.packets
        → p.number ≡ cursors.now.front + own
        → cursors.now.front + result ≡ first_come window h p }
{
    if cursors.held == 0 {
        return own;
    }
    let missing = match arbiter.gap() {
        Some(gap) => u64::from(gap.count),
        None => 0,
    };
    if own <= missing { own } else { missing + 1 }
}

/// Returns the number below which what is missing is given up before the packet, where it would be
/// answered Ahead, of an arbiter that has sent all that is ready. `window` is the arbiter's.
fn gap_before(window: u32, arbiter: &Arbiter<Anything>, packet: &Packet<'_>) -> Option<u64>
    ensures { (h : History) → HasSentAll window arbiter.now h
        → MatchOption result
        ((number : ℕ) → IsPastGap window h packet.now number → ⊥)
        (λ number. IsPastGap window h packet.now number) }
{
    let cursors = arbiter.status();
    if !is_ahead(arbiter, &cursors, window, packet) {
        return None;
    }
    let number = packet.number();
    if number <= cursors.front {
        return None;
    }
    let past = first_past(arbiter, &cursors, number - cursors.front);
    if past > 1 {
        Some(cursors.front + past)
    } else {
        None
    }
}

/// Returns the number at which the session is joined, or below which what is missing is given up
/// before the packet, of an arbiter that has sent all that is ready. `window` is the arbiter's.
fn join_or_gap(window: u32, arbiter: &Arbiter<Anything>, packet: &Packet<'_>) -> Option<u64>
    ensures { (h : History) → HasSentAll window arbiter.now h
        → MatchOption result
        ((number : ℕ) → IsJoinedAt h packet.now number ⊎ IsPastGap window h packet.now number → ⊥)
        (λ number. IsJoinedAt h packet.now number ⊎ IsPastGap window h packet.now number) }
{
    match join_at(arbiter, packet) {
        Some(number) => Some(number),
        None => gap_before(window, arbiter, packet),
    }
}

/// Returns the number below which the rule gives up what is missing before the packet, if it gives
/// anything up, of an arbiter that has sent all that is ready. `window` is the arbiter's.
fn skip_before(
    rule: SkipRule,
    window: u32,
    arbiter: &Arbiter<Anything>,
    packet: &Packet<'_>,
) -> Option<u64>
    ensures { (h : History) → HasSentAll window arbiter.now h
        → MatchOption result
        ((number : ℕ) → SkipsBefore rule window h packet.now number → ⊥)
        (λ number. SkipsBefore rule window h packet.now number) }
{
    match rule {
        SkipRule::Never => None,
        SkipRule::Join => join_at(arbiter, packet),
        SkipRule::After(_) => join_at(arbiter, packet),
        SkipRule::Gaps => join_or_gap(window, arbiter, packet),
    }
}

/// Returns whether the rule may give anything up of the arbiter before a packet. Most often it
/// gives nothing up, and no packet is read.
fn may_skip(rule: SkipRule, arbiter: &Arbiter<Anything>) -> bool
    ensures { (window : ℕ) (h : History) → HasSentAll window arbiter.now h
        → MatchBool result ⊤ (SkipsNever rule window h) }
{
    match rule {
        SkipRule::Never => false,
        SkipRule::Join | SkipRule::After(_) => is_fresh(&arbiter.status()),
        SkipRule::Gaps => true,
    }
}

impl VenueReplay {
    /// Returns the number below which the rule gives up what is missing before a datagram of these
    /// bytes, if it gives anything up. `window` is that of the venue.
    pub fn skip_before_datagram(&self, rule: SkipRule, window: u32, bytes: &[u8]) -> Option<u64>
        ensures { (place : ℕ) (h : History) → Follows window place self.now h
            → MatchOption result
            ((number : ℕ) → SkipsBytes rule window h bytes.now number → ⊥)
            (λ number. SkipsBytes rule window h bytes.now number) }
    {
        mold_packet::one_reading();
        if !may_skip(rule, &self.arbiter) {
            return None;
        }
        match read_packet(bytes) {
            Ok(packet) => skip_before(rule, window, &self.arbiter, &packet),
            Err(_) => None,
        }
    }
}
