//! The parts of a row of items: its first number, its messages, and its end.
ghost use Rattle.std.specs.Prelude.{◌≡◌, ◌⊎◌, ℕ, ◌+◌, ◌^◌, ◌≤◌, List, [], ◌∷◌, length, IfNone, IfSome, MatchBool};
ghost use Rattle.feed_types.specs.declared.item.Item.{Item};
ghost use Rattle.feed_types.specs.Sessions.{end_item, numbered_from};
ghost use Rattle.item_packets.specs.Carried.{RunsFrom};

use feed_types::{Item, Numbered};

/// Returns whether the item is the end of a session.
fn is_end(item: &Item) -> bool
    ensures { MatchBool result (item.now ≡ Item.End) (item.now ≡ Item.End → ⊥) }
{
    matches!(item, Item::End)
}

/// Returns how many messages stand before an end of session, or before the end of the slice.
pub fn messages_before_end(items: &[Numbered]) -> usize
    ensures count { (first : ℕ) (run : RunsFrom first items.now) → result ≡ length run.items }
    ensures within { result ≤ length items.now }
{
    let len = items.len();
    if len > 0 && is_end(&items[len - 1].item) {
        return len - 1;
    }
    len
}

/// Returns the number of the first item, where there is one and the numbers go on from it.
pub fn first_number(items: &[Numbered]) -> Option<u64>
    ensures in_range { IfSome result (λ n. (1 ≤ n) × (n + length items.now ≤ 2 ^ 64)) }
    ensures first { IfSome result (λ n. (first : ℕ) (its : List Item)
        → items.now ≡ numbered_from first its → n ≡ first) }
    ensures none { IfNone result ((first : ℕ) (its : List Item) → 1 ≤ first
        → items.now ≡ numbered_from first its → items.now ≡ []) }
{
    let len = items.len();
    if len == 0 {
        return None;
    }
    let first = items[0].number;
    let last = items[len - 1].number;
    if first == 0 || last < first || last - first != (len - 1) as u64 {
        return None;
    }
    Some(first)
}

/// Returns the number of the first item, where there is one and it is at least 1.
pub fn end_number(ends: &[Numbered]) -> Option<u64>
    ensures from_one { IfSome result (λ n. 1 ≤ n) }
    ensures number { IfSome result (λ n. (number : ℕ) → 1 ≤ number
        → (ends.now ≡ []) ⊎ (ends.now ≡ end_item number ∷ []) → ends.now ≡ end_item n ∷ []) }
    ensures none { IfNone result ((number : ℕ) → 1 ≤ number
        → (ends.now ≡ []) ⊎ (ends.now ≡ end_item number ∷ []) → ends.now ≡ []) }
{
    if ends.len() == 0 {
        return None;
    }
    let number = ends[0].number;
    if number == 0 {
        return None;
    }
    Some(number)
}
