//! What the times of a venue's items are known by.

use crate::cell::VenueCell;
use feed_steps::FeedName;
use feed_types::Genuine;
use live_wakeups::FeedTimes;
use mold_packet::Packet;

/// The number of the last item of the venue's session that was pushed, or 0.
pub(crate) fn last_sent<G: Genuine, N: FeedName>(cell: &VenueCell<G, N>) -> u64 {
    cell.arbiter().status().sent
}

/// The number of the last item of the venue's session that is ready or was pushed, or 0.
fn last_ready<G: Genuine, N: FeedName>(cell: &VenueCell<G, N>) -> u64 {
    let status = cell.arbiter().status();
    match status.end {
        Some(end) if end.saturating_sub(1) == status.front => end,
        _ => status.front,
    }
}

/// Notes the time of the datagram that the cell takes next, where times are kept.
#[inline(always)]
pub(crate) fn note_time<G: Genuine, N: FeedName>(
    cell: &VenueCell<G, N>,
    times: &FeedTimes,
    time: Option<u64>,
) {
    if times.are_kept() {
        times.note_datagram(cell.venue(), last_ready(cell), time);
    }
}

/// Notes where the numbers of the cell's venue go on, where its next session has begun: `last` was
/// the last item of the one before.
#[inline(always)]
pub(crate) fn note_renewal<G: Genuine, N: FeedName>(
    cell: &VenueCell<G, N>,
    times: &FeedTimes,
    renewed: bool,
    last: u64,
) {
    if renewed {
        times.go_on_from(cell.venue(), last, 0);
    }
}

/// Notes where the numbers of the cell's venue go on, where its session was joined at the packet:
/// nothing was pushed before it, and its first item is that of the number before.
pub(crate) fn note_join<G: Genuine, N: FeedName>(
    cell: &VenueCell<G, N>,
    times: &FeedTimes,
    joined: bool,
    packet: &Packet<'_>,
) {
    if joined {
        times.go_on_from(cell.venue(), 0, packet.number().saturating_sub(2));
    }
}
