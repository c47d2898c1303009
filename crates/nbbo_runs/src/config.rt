//! The settings of a run as a replay takes them.
ghost use Rattle.std.specs.Prelude.{◌≡◌};
ghost use Rattle.nbbo_runs.specs.Printing.{IsConfigOf};

use feed_text::replay::ReplayConfig;
use run_settings::{RunSettings, TimeSpan};

/// The most calls of the reader that a replay makes.
pub const MAX_TURNS: u64 = 1_000_000_000;

/// What is replayed, and of which time rows or statistics are printed.
#[derive(Drop)]
pub struct RunConfig<'a> {
    pub replay: ReplayConfig<'a>,
    pub span: TimeSpan,
}

/// The settings as a replay takes them.
pub fn config_of(settings: &RunSettings) -> RunConfig<'_>
    ensures replay { IsConfigOf settings.now result.replay }
    ensures span { result.span ≡ settings.now.span }
{
    RunConfig {
        replay: ReplayConfig {
            sessions: settings.feed.sessions.as_slice(),
            symbols: settings.feed.symbols.as_slice(),
            window: settings.feed.window,
            journal: settings.feed.journal,
            gaps: settings.gaps,
            skips: settings.skips,
            next_sessions: settings.next_sessions.as_slice(),
            turns: MAX_TURNS,
        },
        span: settings.span,
    }
}
