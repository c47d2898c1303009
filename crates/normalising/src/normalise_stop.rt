//! The reasons why a run ends early.
ghost use Rattle.std.specs.Prelude.{◌≡◌};
ghost use Rattle.event_sinks.specs.declared.replay_stop.ReplayStop.TheVariants.{SinkFailed};
ghost use Rattle.normalising.specs.declared.normalise_stop.NormaliseStop.TheVariants.{Replay};

use event_sinks::{ReplayStop, SinkStop};
use feed_types::VenueId;
use itch_book::BookFault;
use venue_normaliser::{NormaliserFault, ResumeFault};

/// Why a run ended early. `F` is the fault of its format.
#[derive(Clone, Copy, Debug, PartialEq, Eq)]
pub enum NormaliseStop<F> {
    /// The input or the output ended it, as it ends a replay.
    Replay(ReplayStop<F>),
    /// The run wasn't begun.
    Fault(NormaliserFault),
    /// The run wasn't begun, since the first session of this venue doesn't begin with its snapshot.
    Snapshot(VenueId, ResumeFault),
    /// The book of a venue ended it: what was ready before is written.
    Book(VenueId, BookFault),
}

impl<F> From<SinkStop> for NormaliseStop<F> {
    ghost from_gives = { λ _ e. e ≡ Replay SinkFailed };

    fn from(_stop: SinkStop) -> NormaliseStop<F> {
        NormaliseStop::Replay(ReplayStop::SinkFailed)
    }
}
