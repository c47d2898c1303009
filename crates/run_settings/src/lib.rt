//! What a run of the program is asked to do, and how: the settings of each command, the lines whose
//! datagrams a packet capture has, the rules for gaps and for ends of session, the sessions that
//! follow a venue's own, the senders whose datagrams are taken, and the forms in which best lines,
//! statistics, gaps and periods are printed.
//!
//! Contract: each value that a setting can have is in its range, by the invariants of the types:
//! 1 to 16 sessions, each symbol once, two lines for each venue, the lines of a packet capture and
//! the next sessions those of the feed's venues. [`lines_at`] makes the lines of a list of
//! addresses, and [`are_apart`] says whether no two are of one address and port
//! (`specs/Lists.antt`). [`Senders::takes_from`] says whether a datagram is of one of them
//! (`specs/Senders.antt`), and [`TimeSpan::has`] whether a time lies in a span
//! (`specs/TimeSpans.antt`).
//!
//! `command_words` reads settings from words, and the runs take them: neither waits for the other.
//!
//! Begin with `run_settings.rt` and `listen_settings.rt`, then `feed_settings.rt`, which both have.
#![tactic(auto)]

mod captured_line;
mod end_number_rule;
mod end_rule;
mod feed_settings;
mod formats;
mod further_options;
mod itch_settings;
mod line_list;
mod listen_settings;
mod listen_stats;
mod next_session;
mod normalise_settings;
mod period_length;
mod period_style;
mod run_input;
mod run_output;
mod run_settings;
mod sender;
mod skip_rule;
mod time_span;
mod venue_names;

pub use captured_line::CapturedLine;
pub use end_number_rule::EndNumberRule;
pub use end_rule::EndRule;
pub use feed_settings::FeedSettings;
pub use formats::{BestFormat, ReportFormat, RowFormat, StatsFormat, TimeStyle, ValueStyle};
pub use further_options::{USUAL_LEAD, USUAL_SILENCE, USUAL_WAIT};
pub use itch_settings::ItchSettings;
pub use line_list::{are_apart, lines_at};
pub use listen_settings::ListenSettings;
pub use listen_stats::ListenStats;
pub use next_session::NextSession;
pub use normalise_settings::NormaliseSettings;
pub use period_length::PeriodLength;
pub use period_style::PeriodStyle;
pub use run_input::RunInput;
pub use run_output::RunOutput;
pub use run_settings::RunSettings;
pub use sender::{AllowedSender, Senders};
pub use skip_rule::SkipRule;
pub use time_span::TimeSpan;
pub use venue_names::{VenueName, VenueNames};
