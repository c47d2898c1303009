//! The project's own format, whose bad records say what stands in their place.
ghost use Rattle.std.specs.Prelude.{◌≡◌, ◌≤◌, false};
ghost use Rattle.nbbo_runs.specs.OwnCaptures.{IsNoRecord, OwnReads, WantsRecord, new_own_capture};
ghost use Rattle.nbbo_runs.specs.OwnCaptureLaws.{own_longer, own_more, own_none, own_venues};

use capture_records::{OwnFormat, RecordFormat, Step};
use line_captures::start_of;

/// What stands where a record of the project's own format is bad.
#[derive(Clone, Copy, Debug, PartialEq, Eq)]
pub struct BadRecord {
    /// The number of the first four bytes that stand there, the first of them the highest; 0 where
    /// there are fewer.
    pub start: u32,
    /// Whether no record was read before it.
    pub is_first: bool,
}

/// A capture of the project's own format, and whether a record of it was read.
#[derive(Drop)]
pub struct OwnCapture {
    format: OwnFormat,
    is_begun: bool,
}

impl OwnCapture {
    /// Returns the capture of this many venues, 16 at most, of which nothing was read.
    pub fn new(venues: usize) -> OwnCapture
        requires { venues ≤ 16 }
        ensures { result ≡ new_own_capture venues }
    {
        OwnCapture {
            format: OwnFormat::new(venues),
            is_begun: false,
        }
    }
}

impl RecordFormat for OwnCapture {
    type Fault = BadRecord;

    ghost reads = { OwnReads };

    ghost wants = { WantsRecord };

    ghost is_bad = { IsNoRecord };

    ghost is_whole = { λ s. Unit {0} };

    ghost venues = { λ s. s.format };

    ghost reads_none = { own_none };

    ghost reads_more = { own_more };

    ghost reads_longer = { own_longer };

    ghost reads_venues = { own_venues };

    #[inline(always)]
    fn next<'a>(&mut self, bytes: &'a [u8]) -> Step<'a, BadRecord> {
        match self.format.next(bytes) {
            Step::Came { len, time, record } => {
                self.is_begun = true;
                Step::Came { len, time, record }
            }
            Step::Passed(len) => Step::Passed(len),
            Step::Wants => Step::Wants,
            Step::Bad(()) => Step::Bad(BadRecord {
                start: start_of(bytes),
                is_first: !self.is_begun,
            }),
        }
    }

    fn may_end(&self) -> bool {
        true
    }
}
