//! The sources of the statuses of venues in ITCH.
//!
//! Nobody knows outside of a venue's lock what it guards, so the trait speaks of what is shown by a
//! relation.

ghost use Rattle.std.specs.Prelude.{Option};
ghost use Rattle.itch_lines.specs.declared.itch_status.ItchStatus.{ItchStatus};

use crate::itch_status::ItchStatus;

/// What shows a venue in ITCH while a run goes on.
pub trait StatusSource {
    /// The status, or none, is one that the source shows of its venue.
    ghost shows: { Self → Option ItchStatus → Type 0 };

    /// Returns what the venue shows; None where it shows nothing.
    fn status(&self) -> Option<ItchStatus>
        ensures { shows self.now result };
}
