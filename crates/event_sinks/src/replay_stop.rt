//! How a replay ended.
ghost use Rattle.std.specs.Prelude.{◌≡◌};
ghost use Rattle.event_sinks.specs.declared.replay_stop.ReplayStop.TheVariants.{SinkFailed};

use crate::event_sink::SinkStop;

/// Why a replay ended early. `F` is the fault of its format.
#[derive(Clone, Copy, Debug, PartialEq, Eq)]
pub enum ReplayStop<F> {
    /// A call of the reader failed.
    ReadFailed,
    /// The sink failed.
    SinkFailed,
    /// No piece is where one should begin.
    Bad(F),
    /// The input ends where a capture may not end: within a piece, or before the first one.
    Short,
    /// All calls of the reader that are allowed were made, and none showed the end.
    TooManyTurns,
    /// The journal is full, and a record needs one more entry.
    JournalFull,
    /// Memory was refused, before anything was read.
    NoMemory,
}

impl<F> From<SinkStop> for ReplayStop<F> {
    ghost from_gives = { λ _ e. e ≡ SinkFailed };

    fn from(_stop: SinkStop) -> ReplayStop<F> {
        ReplayStop::SinkFailed
    }
}

/// A replay that ended: its sink, as the last call left it, and how it ended.
#[derive(Drop)]
pub struct Replayed<K, F> {
    pub sink: K,
    pub outcome: Result<(), ReplayStop<F>>,
}
