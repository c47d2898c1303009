//! What the venues of a settled feed lack.
ghost use Rattle.std.specs.Prelude.{◌≡◌, ◌<◌, ◌++◌, IfOk, IfSome, OnOk, length, slice_get};
ghost use Rattle.event_sinks.specs.VenueGaps.{venue_gap};
ghost use Rattle.udp_listening.specs.SettledLacks.{settled_lacks};

use event_sinks::VenueGap;
use feed_types::{MAX_VENUES, VenueId};
use live_feed::Settlement;
use std::alloc::{AllocError, Global};

/// Appends what the venue lacks, if it lacks anything. It is below the number of venues.
fn append_lack(
    lacking: &mut Vec<VenueGap>,
    settlement: &Settlement,
    venue: VenueId,
) -> Result<(), AllocError>
    requires { venue < length settlement.now.venues }
    ensures { OnOk result (IfSome (slice_get settlement.now.venues venue)
        (λ v. lacking.new.items ≡ lacking.old.items ++ venue_gap venue v.gap)) }
{
    if let Some(gap) = settlement.gap(venue) {
        lacking.push(VenueGap::of(venue, &gap))?;
    }
    Ok(())
}

/// Returns what the venues of the settled feed lack, in order, of each that lacks anything.
pub fn settled_lacks(alloc: Global, settlement: &Settlement) -> Result<Vec<VenueGap>, AllocError>
    ensures { IfOk result (λ lacking. lacking.items ≡ settled_lacks settlement.now) }
{
    let mut lacking = Vec::new(alloc);
    for place in 0..settlement.venue_count().min(MAX_VENUES) {
        append_lack(&mut lacking, settlement, VenueId::at(place))?;
    }
    Ok(lacking)
}
