//! What is counted of a venue and its lines, from one moment to another.

use run_metrics::{LineState, VenueFigures};
use venue_lines::{LineCounts, VenueStatus};

/// The refusals of a datagram have numbers below this.
pub const REFUSALS: usize = 12;

/// What was counted of a line since it was counted earlier.
fn line_since(now: &LineCounts, earlier: &LineCounts) -> LineCounts {
    let mut since = *now;
    since.wins = now.wins.saturating_sub(earlier.wins);
    since.repeated = now.repeated.saturating_sub(earlier.repeated);
    since.taken = now.taken.saturating_sub(earlier.taken);
    since.heartbeats = now.heartbeats.saturating_sub(earlier.heartbeats);
    since.ends = now.ends.saturating_sub(earlier.ends);
    since.ahead = now.ahead.saturating_sub(earlier.ahead);
    for number in 0..REFUSALS {
        since.refused[number] = now.refused[number].saturating_sub(earlier.refused[number]);
    }
    since
}

/// What the system dropped since an earlier count, where both are known.
fn dropped_since(now: Option<u64>, earlier: Option<u64>) -> Option<u64> {
    match earlier {
        Some(earlier) => Some(now?.saturating_sub(earlier)),
        None => now,
    }
}

/// What is known of a line, with what was counted since the earlier state.
fn state_since(now: &LineState, earlier: &LineState) -> LineState {
    let mut since = *now;
    since.dropped = dropped_since(now.dropped, earlier.dropped);
    since.foreign = now.foreign.saturating_sub(earlier.foreign);
    since.withheld = now.withheld.saturating_sub(earlier.withheld);
    since.unsent = now.unsent.saturating_sub(earlier.unsent);
    since.held_back = now.held_back.saturating_sub(earlier.held_back);
    since
}

/// What is counted of a line beside what it has brought, each with its name.
pub fn state_counts(state: &LineState) -> [(&'static str, u64); 5] {
    [
        ("dropped", state.dropped.unwrap_or(0)),
        ("withheld", state.withheld),
        ("other_senders", state.foreign),
        ("unsent", state.unsent),
        ("held_back", state.held_back),
    ]
}

/// The status of a venue, with what was counted since the earlier one.
fn status_since(now: &VenueStatus, earlier: &VenueStatus) -> VenueStatus {
    let mut since = *now;
    since.requests = now.requests.saturating_sub(earlier.requests);
    since.a = line_since(&now.a, &earlier.a);
    since.b = line_since(&now.b, &earlier.b);
    since.recovery = line_since(&now.recovery, &earlier.recovery);
    since
}

/// What a venue has come to, with what was counted since the earlier one, if there was one.
pub fn figures_since(now: &VenueFigures, earlier: Option<&VenueFigures>) -> VenueFigures {
    let mut since = *now;
    if let Some(earlier) = earlier {
        since.status = status_since(&now.status, &earlier.status);
        since.given_up = now.given_up.saturating_sub(earlier.given_up);
        since.a = state_since(&now.a, &earlier.a);
        since.b = state_since(&now.b, &earlier.b);
        since.recovery = match (&now.recovery, &earlier.recovery) {
            (Some(now), Some(earlier)) => Some(state_since(now, earlier)),
            _ => now.recovery,
        };
    }
    since
}
