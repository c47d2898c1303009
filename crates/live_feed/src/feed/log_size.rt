//! The size of a subscriber's log.

ghost use Rattle.std.specs.Prelude.{◌≡◌};

use feed_steps::FeedName;
use std::marker::{Model, PhantomData};

/// How many lines the log of a subscriber of the feed `N` holds: as many as the feed is set up
/// with.
#[derive(Drop)]
pub(crate) struct LogSize<N: FeedName> {
    lines: u32,
    feed: PhantomData<N>,
}

impl<N: FeedName> Model for LogSize<N> {
    ghost use Rattle.std.specs.Prelude.{◌≡◌, ℕ};

    ghost Value = { ℕ };

    ghost view = { λ s. s.lines };

    ghost invariant = { λ s. s.lines ≡ N.lanes.setting.log };
}

impl<N: FeedName> LogSize<N> {
    /// The number of lines in the feed's setting.
    pub(crate) fn new(lines: u32) -> LogSize<N>
        requires { lines ≡ N.lanes.setting.log }
    {
        LogSize {
            lines,
            feed: PhantomData,
        }
    }

    /// The number of lines that a log of the feed holds.
    pub(crate) fn lines(&self) -> u32
        ensures { result ≡ N.lanes.setting.log }
    {
        self.lines
    }
}
