//! The line of a venue of either kind.
ghost use Rattle.std.specs.Prelude.{◌≡◌};
ghost use Rattle.itch_lines.specs.FeedLines.{Itch, Own, source_of};

use crate::itch_line::ItchLine;
use feed_types::{Anything, VenueId};
use mold_packet::Request;
use std::marker::Model;
use std::time::Clock;
use venue_lines::{Datagram, LineSource, Looked, SourceFault};

/// What brings the datagrams of a line.
#[derive(Drop)]
enum LineKind<S, C> {
    /// Its source, as they are.
    Own(S),
    /// A line in ITCH.
    Itch(ItchLine<S, C>),
}

/// The line of a venue that sends this project's own messages, or ITCH.
#[derive(Drop)]
pub struct FeedLine<S, C> {
    kind: LineKind<S, C>,
}

impl<S, C> Model for FeedLine<S, C> {
    ghost use Rattle.itch_lines.specs.FeedLines.{FeedLineState, feed_line_of};

    ghost Value = { FeedLineState S };

    ghost view = { λ l. feed_line_of l.kind };
}

impl<S, C> FeedLine<S, C> {
    /// Makes the line of a venue that sends own messages.
    pub fn own(source: S) -> FeedLine<S, C>
        ensures { result ≡ Own source }
    {
        FeedLine {
            kind: LineKind::Own(source),
        }
    }

    /// Makes the line of a venue in ITCH.
    pub fn itch(line: ItchLine<S, C>) -> FeedLine<S, C>
        ensures { result ≡ Itch line }
    {
        FeedLine {
            kind: LineKind::Itch(line),
        }
    }

    /// Lends the source that brings the line's datagrams.
    pub fn source(&self) -> &S
        ensures { result.now ≡ source_of self.now }
    {
        match &self.kind {
            LineKind::Own(source) => source,
            LineKind::Itch(line) => &line.source,
        }
    }
}

impl<S: LineSource<Anything>, C: Clock + Drop> LineSource<Anything> for FeedLine<S, C> {
    ghost use Rattle.itch_lines.specs.FeedLines.{Brings, failures_by, venue_with};
    ghost use Rattle.itch_lines.specs.laws.Either.{line_brings_more, line_brings_nothing};

    ghost venue_of = { λ l. venue_with S.venue_of l };

    ghost failures = { λ l. failures_by S.failures l };

    ghost brings = { λ l bytes m. Brings S.brings l bytes m };

    ghost brings_nothing = { line_brings_nothing S.brings S.brings_nothing };

    ghost brings_more = { line_brings_more S.brings S.brings_more };

    fn venue(&self) -> VenueId {
        match &self.kind {
            LineKind::Own(source) => source.venue(),
            LineKind::Itch(line) => line.venue(),
        }
    }

    fn await_next(&mut self) -> bool {
        match &mut self.kind {
            LineKind::Own(source) => source.await_next(),
            LineKind::Itch(line) => line.await_next(),
        }
    }

    fn next(&mut self) -> Result<Option<Datagram>, SourceFault> {
        match &mut self.kind {
            LineKind::Own(source) => source.next(),
            LineKind::Itch(line) => line.next(),
        }
    }

    fn recycle(&mut self, datagram: Datagram, looked: &Looked) {
        match &mut self.kind {
            LineKind::Own(source) => source.recycle(datagram, looked),
            LineKind::Itch(line) => line.recycle(datagram, looked),
        }
    }

    fn now_ms(&mut self) -> u64 {
        match &mut self.kind {
            LineKind::Own(source) => source.now_ms(),
            LineKind::Itch(line) => line.now_ms(),
        }
    }

    fn request(&mut self, request: &Request) -> Result<(), SourceFault> {
        match &mut self.kind {
            LineKind::Own(source) => source.request(request),
            LineKind::Itch(line) => line.request(request),
        }
    }
}
