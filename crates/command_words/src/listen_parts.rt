//! The parts of the settings of `listen`, as its options are read.
ghost use Rattle.std.specs.Prelude.{◌≡◌, ◌*◌, vec_len};

use run_settings::{
    BestFormat, EndRule, FeedSettings, ListenStats, NextSession, Senders, VenueNames,
};
use std::net::SocketAddr;

/// What a run of `listen` receives.
#[derive(Drop)]
pub struct Reception {
    pub feed: FeedSettings,
    /// The sessions that follow the venues' first ones, those of a venue in their order.
    pub next: Vec<NextSession>,
    /// The address where each line is received, if it is there.
    pub lines: Vec<Option<SocketAddr>>,
    /// The address that requests for missing messages go to, if there is one.
    pub request: Option<SocketAddr>,
    ghost two_lines_each: { vec_len lines ≡ 2 * vec_len feed.sessions },
}

/// The rules of a run of `listen`.
#[derive(Drop)]
pub struct ListenRules {
    /// Which ends of session end a line.
    pub end: EndRule,
    /// How many changes the subscriber may be behind, if not all are kept.
    pub kept: Option<u32>,
    /// The senders whose datagrams are taken.
    pub senders: Senders,
}

/// What a run of `listen` tells of itself, and of its lines.
#[derive(Drop)]
pub struct ListenOutputs {
    /// The address at which the counts are served, if at any.
    pub metrics: Option<SocketAddr>,
    /// The counts that standard error has, if it has any.
    pub stats: Option<ListenStats>,
    /// The form of best lines.
    pub format: BestFormat,
    /// What stands for a venue.
    pub venues: VenueNames,
    /// The name of the file into which what the lines bring is recorded, if into any.
    pub record: Option<String>,
}
