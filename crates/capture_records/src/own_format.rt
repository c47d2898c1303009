//! The project's own format.
ghost use Rattle.std.specs.Prelude.{◌≡◌, ◌≤◌};
ghost use Rattle.capture_records.specs.Capture.{WantsMore};
ghost use Rattle.capture_records.specs.OwnFormats.{ReadsOwn, is_bad_own};
ghost use Rattle.capture_records.specs.OwnFormatLaws.{reads_none_own, reads_more_own, reads_longer_own, reads_venues_own};

use crate::capture::{Parse, parse_record};
use crate::record_format::{RecordFormat, Step};
use std::marker::Model;

/// The project's own format, for a number of venues.
#[derive(Debug, Drop)]
pub struct OwnFormat {
    venues: usize,
}

impl Model for OwnFormat {
    ghost use Rattle.std.specs.Prelude.{ℕ, ◌≤◌};

    ghost Value = { ℕ };

    ghost view = { λ s. s.venues };

    ghost invariant = { λ s. s.venues ≤ 16 };
}

impl OwnFormat {
    /// The format for this many venues: 16 at most.
    pub fn new(venues: usize) -> OwnFormat
        requires { venues ≤ 16 }
        ensures { result ≡ venues }
    {
        OwnFormat { venues }
    }
}

impl RecordFormat for OwnFormat {
    type Fault = ();

    ghost reads = { ReadsOwn };

    ghost wants = { WantsMore };

    ghost is_bad = { is_bad_own };

    ghost is_whole = { λ _. Unit {0} };

    ghost venues = { λ s. s };

    ghost reads_none = { reads_none_own };

    ghost reads_more = { reads_more_own };

    ghost reads_longer = { reads_longer_own };

    ghost reads_venues = { reads_venues_own };

    #[inline(always)]
    fn next<'a>(&mut self, bytes: &'a [u8]) -> Step<'a, ()> {
        match parse_record(self.venues, bytes) {
            Parse::Whole(record, len) => Step::Came {
                record,
                time: None,
                len,
            },
            Parse::Bad => Step::Bad(()),
            Parse::Wants(_) => Step::Wants,
        }
    }

    fn may_end(&self) -> bool {
        true
    }
}
