//! A gap that stands.
ghost use Rattle.std.specs.Prelude.{◌≡◌};
ghost use Rattle.feed_text.specs.Rules.{stands_then};

use mold_packet::Request;

/// A gap of a venue that stands.
#[derive(Clone, Copy, Debug, PartialEq, Eq)]
pub struct StandingGap {
    /// The first message that is missing.
    pub number: u64,
    /// The time since which it stands, in nanoseconds from 1970 on.
    pub since: u64,
}

/// Returns the gap that stands at a time, where `before` stood: since that time, or since before
/// where the gap begins with the same number.
pub fn stands_then(
    before: Option<StandingGap>,
    time: u64,
    gap: Option<Request>,
) -> Option<StandingGap>
    ensures { result ≡ stands_then before time gap }
{
    let Some(gap) = gap else {
        return None;
    };
    match before {
        Some(old) if old.number == gap.number => before,
        _ => Some(StandingGap {
            number: gap.number,
            since: time,
        }),
    }
}
