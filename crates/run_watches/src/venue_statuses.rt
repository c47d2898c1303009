//! What the venues of a run have come to.

use feed_types::{MAX_VENUES, VenueId};
use run_metrics::VenueFigures;
use venue_lines::VenueStatus;

/// What each venue has come to, in order; None where there is no such venue.
pub type VenueStatuses = [Option<VenueStatus>; MAX_VENUES];

/// The statuses of no venue.
const NO_STATUSES: VenueStatuses = [None; MAX_VENUES];

/// What each venue has come to, in order, with what is known of its lines; None where there is no
/// such venue.
pub(crate) type AllFigures = [Option<VenueFigures>; MAX_VENUES];

/// The figures of no venue.
pub(crate) const NO_FIGURES: AllFigures = [None; MAX_VENUES];

/// Returns what each venue has come to. `status` returns one's, or None where there is none.
pub fn statuses_by<S: Fn(VenueId) -> Option<VenueStatus>>(status: S) -> VenueStatuses
    requires { S.IsAlwaysCallable status }
{
    let mut statuses = NO_STATUSES;
    for place in 0..MAX_VENUES {
        statuses[place] = status(VenueId::at(place));
    }
    statuses
}
