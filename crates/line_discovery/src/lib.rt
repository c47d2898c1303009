//! The lines that a packet capture has: each address and port to which MoldUDP64 packets went, with
//! their sessions, counted.
//!
//! A [`EndpointSurvey`] is a format of captures without records: what it reads it only counts. Each
//! datagram is a [`EndpointPacket`] with a [`LineKey`], its address, port and session, and each key
//! has a
//! [`LineRow`].
//!
//! Contract: the pieces that were read are counted as `line_captures` counts them, each frame has
//! its fate, and the sightings are those of the fates, in order (`specs/Surveys.antt`, over
//! `specs/Sightings.antt`). The rows of a [`EndpointTable`] are those of its sightings: a filter by
//! the
//! key, then a count, a sum or a span (`specs/Tables.antt`). [`EndpointSurvey::text`] is exactly
//! the
//! table or the JSON of these rows (`specs/SurveyTexts.antt`); the table ends with the words for
//! the venues, after the sessions that they leave out (`specs/LineWords.antt`,
//! `specs/Standings.antt`).
//!
//! Begin at `survey.rt`, then `table.rt`.
#![tactic(auto)]

mod address_text;
mod counts;
mod endpoint_packet;
mod frame_class;
mod json;
mod line_key;
mod line_row;
mod look;
mod session_word;
mod span;
mod standing;
mod survey;
mod table;
mod text;
mod times;
mod unlisted;
mod words;

pub use counts::SurveyCounts;
pub use endpoint_packet::EndpointPacket;
pub use line_key::LineKey;
pub use line_row::LineRow;
pub use span::Span;
pub use survey::EndpointSurvey;
pub use table::EndpointTable;
pub use unlisted::Unlisted;
