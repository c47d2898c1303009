//! What is normalised, and how.

use crate::output_form::OutputForm;
use feed_types::{SessionName, SymbolName};
use run_settings::{NextSession, SkipRule};
use venue_normaliser::{NormaliserSettings, Snapshot};

/// What is normalised, and how.
#[derive(Clone, Copy, Debug)]
pub struct NormalisedFeed<'a> {
    /// The first session of each venue, 1 to 16.
    pub sessions: &'a [SessionName],
    /// The snapshots with which the first sessions begin, by venues; those past its end have none.
    pub snapshots: &'a [Option<Snapshot<'a>>],
    /// The sessions that follow the first ones, in the order in which those of a venue follow one
    /// another.
    pub next_sessions: &'a [NextSession],
    /// The symbols whose quotations are made.
    pub symbols: &'a [SymbolName],
    /// What each venue's normaliser is made with.
    pub normaliser: NormaliserSettings,
    /// Which gaps are given up.
    pub skips: SkipRule,
    /// The form of the output.
    pub form: OutputForm<'a>,
}
