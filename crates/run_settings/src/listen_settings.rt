//! The settings of `nbbo listen`.
ghost use Rattle.std.specs.Prelude.{◌≡◌, ◌*◌, vec_len};

use crate::end_rule::EndRule;
use crate::feed_settings::FeedSettings;
use crate::formats::BestFormat;
use crate::itch_settings::ItchSettings;
use crate::listen_stats::ListenStats;
use crate::next_session::NextSession;
use crate::sender::Senders;
use crate::venue_names::VenueNames;
use std::net::SocketAddr;

/// The settings of `nbbo listen`.
#[derive(Debug, Drop)]
pub struct ListenSettings {
    /// The feed that is listened to.
    pub feed: FeedSettings,
    /// The sessions that follow the venues' first ones, those of a venue in their order.
    pub next: Vec<NextSession>,
    /// Which venues send ITCH, and how that is read.
    pub itch: ItchSettings,
    /// The address where each line is received, `None` for a line that isn't there: line A's and
    /// then line B's, those of venue 0 first. Each venue has a line.
    pub lines: Vec<Option<SocketAddr>>,
    /// The address that requests for missing messages go to, if there is one.
    pub request: Option<SocketAddr>,
    /// For how many milliseconds a gap stands before its messages are asked for, if that is said.
    pub request_after: Option<u32>,
    /// The senders whose datagrams are taken.
    pub senders: Senders,
    /// How far past what the lines have brought a number may be, if that is said.
    pub most_ahead: Option<u32>,
    /// Whether a venue's session is joined at its first packet.
    pub join: bool,
    /// After how many milliseconds a gap is given up that stands so long, if after any number.
    pub skip_after: Option<u32>,
    /// After how many milliseconds a line that brings nothing is reported, if that is said.
    pub silent_after: Option<u32>,
    /// The most datagrams that a line reads, if there is any limit.
    pub datagrams: Option<u32>,
    /// Which ends of session end a line.
    pub end: EndRule,
    /// How many bytes a socket's buffer is asked for, if any number.
    pub buffer: Option<u32>,
    /// After how many seconds the run ends, if after any number.
    pub seconds: Option<u32>,
    /// Whether the run ends when standard input ends.
    pub until_input_ends: bool,
    /// Whether a run at whose end messages are missing has a status of its own.
    pub complete: bool,
    /// Whether each best line is printed as it comes.
    pub follow: bool,
    /// The form of best lines, which is text where they aren't printed as they come.
    pub format: BestFormat,
    /// How many changes the subscriber may be behind, where each best line is printed as it comes;
    /// else all changes are kept.
    pub kept: Option<u32>,
    /// The counts of each venue that standard error has, if it has any.
    pub stats: Option<ListenStats>,
    /// The address at which the counts are served to who asks for them, if at any.
    pub metrics: Option<SocketAddr>,
    /// The name of the file into which what the lines bring is recorded, if into any.
    pub record: Option<String>,
    /// What stands for a venue in all that is printed but the lines of text on the output.
    pub venues: VenueNames,
    ghost two_lines_each: { vec_len lines ≡ 2 * vec_len feed.sessions },
}
