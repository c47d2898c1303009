//! The reasons why a venue takes no more.

use event_sinks::SinkStop;
use itch_book::BookFault;

/// Why a venue takes no more.
#[derive(Clone, Copy, Debug)]
pub(crate) enum VenueStop {
    /// The writer failed.
    Sink(SinkStop),
    /// Its book has no room, or memory was refused.
    Book(BookFault),
}

impl From<SinkStop> for VenueStop {
    ghost use Rattle.std.specs.Prelude.{◌≡◌};
    ghost use Rattle.normalising.specs.declared.venue_stop.VenueStop.TheVariants.{Sink};

    ghost from_gives = { λ stop e. e ≡ Sink stop };

    fn from(stop: SinkStop) -> VenueStop {
        VenueStop::Sink(stop)
    }
}

impl From<BookFault> for VenueStop {
    ghost use Rattle.std.specs.Prelude.{◌≡◌};
    ghost use Rattle.normalising.specs.declared.venue_stop.VenueStop.TheVariants.{Book};

    ghost from_gives = { λ fault e. e ≡ Book fault };

    fn from(fault: BookFault) -> VenueStop {
        VenueStop::Book(fault)
    }
}
