//! The reasons why a run isn't begun.
ghost use Rattle.std.specs.Prelude.{◌≡◌};
ghost use Rattle.normalising.specs.declared.begin_fault.BeginFault.TheVariants.{Normaliser};

use feed_types::VenueId;
use venue_normaliser::{NormaliserFault, ResumeFault};

/// Why a run isn't begun.
#[derive(Drop)]
pub(crate) enum BeginFault {
    /// A normaliser, or the memory of the run, isn't made.
    Normaliser(NormaliserFault),
    /// The first session of this venue doesn't begin with its snapshot.
    Snapshot(VenueId, ResumeFault),
}

impl From<NormaliserFault> for BeginFault {
    ghost from_gives = { λ fault e. e ≡ Normaliser fault };

    fn from(fault: NormaliserFault) -> BeginFault {
        BeginFault::Normaliser(fault)
    }
}
