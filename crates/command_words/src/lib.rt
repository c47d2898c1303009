//! What the words of the command line ask for.
//!
//! Contract: of any words, [`settings`] returns the [`Task`] that they ask for, with its settings,
//! or the [`Refusal`] that they get: a text and a status. `ReadsWords` of `specs/CommandLine.antt`
//! says which of them, over clap's reading of the words (`specs/Commands.antt`,
//! `specs/OptionValues.antt`). What the options of a command give, and the order in which they are
//! looked at, stands in `specs/RunRequests.antt`, `specs/TypeRequests.antt`,
//! `specs/ListenRequests.antt` and `specs/NormaliseRequests.antt`, over `specs/FeedRequests.antt`
//! and in the words of `specs/Readings.antt`. Each kind of value has a file of its own
//! (`specs/Sessions.antt`, `specs/NextSessions.antt`, `specs/Symbols.antt`, `specs/Addresses.antt`,
//! `specs/CapturedLines.antt`, `specs/BestFormats.antt`, `specs/StatsFormats.antt`,
//! `specs/StatsOutputs.antt`, `specs/PeriodWords.antt`, `specs/TimeWords.antt`,
//! `specs/TimeStyles.antt`, `specs/SpanWords.antt`, `specs/SkipRules.antt`, `specs/EndRules.antt`,
//! `specs/EndNumbers.antt`, `specs/SenderLists.antt`, `specs/Destinations.antt`,
//! `specs/FileNames.antt`, `specs/SnapshotFiles.antt`, `specs/VenueLists.antt`,
//! `specs/ItchRequests.antt`).
//!
//! Beside it, [`stream_files`] returns the files that words name in place of standard input and
//! standard output (`NamesStreams`, `specs/StreamNames.antt`), and [`words_of_sources`] puts the
//! lines of files in place of the words that name them (`specs/WordSources.antt`).
//!
//! Begin with `command_line.rt`, then `listen_words.rt`. An option stands with its texts in the
//! table of its command, or in `options.rt` if commands share it. Its form is one of
//! `option_table.rt`, whose rule `specs/OptionForms.antt` has.
#![tactic(auto)]

mod addresses;
mod best_format;
mod captured_lines;
mod command_line;
mod command_texts;
mod commands;
mod convert_command;
mod destinations;
mod discovery_command;
mod end_number;
mod end_rule;
mod explained_lists;
mod explanation;
mod feed_words;
mod file_names;
mod itch_words;
mod limits;
mod listen_command;
mod listen_format;
mod listen_options;
mod listen_outputs;
mod listen_parts;
mod listen_rules;
mod listen_words;
mod named_output;
mod next_sessions;
mod normalise_command;
mod normalise_request;
mod normalise_words;
mod option_table;
mod option_values;
mod options;
mod period_words;
mod quoting;
mod reception;
mod refusal;
mod replay_command;
mod run_words;
mod sender_list;
mod sessions;
mod snapshot_file;
mod snapshot_words;
mod span_words;
mod stats_command;
mod stats_format;
mod stats_output;
mod streams;
mod symbols;
mod task;
mod time_style;
mod time_words;
mod type_settings;
mod type_words;
mod venue_list;
mod word_sources;

pub use command_line::{settings, stream_files};
pub use explanation::{explanation_of, symbol_words};
pub use normalise_request::NormaliseRequest;
pub use refusal::Refusal;
pub use snapshot_file::SnapshotFile;
pub use streams::StreamFiles;
pub use task::Task;
pub use type_settings::TypeSettings;
pub use word_sources::{WordSource, file_named, words_of_sources};
