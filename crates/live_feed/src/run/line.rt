//! A line: a seat with the source of its datagrams.

ghost use Rattle.std.specs.Prelude.{◌≡◌, IfOk, IfErr, OnOk, OnErr};

use feed_types::Genuine;
use venue_lines::{LineSeat, LineSource, SourceFault};

/// A line of the feed `N`: its seat, and the source of its datagrams, which is of the seat's venue.
#[derive(Drop)]
pub struct Line<G: Genuine, N, S: LineSource<G>> {
    pub seat: LineSeat<G, N>,
    pub source: S,
    pub ghost same: { S.venue_of source ≡ seat.venue },
}

impl<G: Genuine, N, S: LineSource<G>> Line<G, N, S> {
    /// Makes a line of this seat and source. Both are handed back exactly where their venues
    /// differ, the fault WrongVenue of code 30.
    pub fn new(seat: LineSeat<G, N>, source: S) -> Result<Line<G, N, S>, (LineSeat<G, N>, S)>
        ensures line { IfOk result (λ line. (line.seat ≡ seat) × (line.source ≡ source)) }
        ensures back { IfErr result (λ back. (back.0 ≡ seat) × (back.1 ≡ source)) }
        ensures same { OnOk result (S.venue_of source ≡ seat.venue) }
        ensures differ { OnErr result (S.venue_of source ≡ seat.venue → ⊥) }
    {
        if source.venue() != seat.venue() {
            return Err((seat, source));
        }
        Ok(Line { seat, source })
    }
}

/// A line that has ended in a run.
#[derive(Drop)]
pub struct LineEnd<G, N, S> {
    /// The line's seat, with what it brought.
    pub seat: LineSeat<G, N>,
    /// The line's source, after all calls.
    pub source: S,
    /// The number of datagrams that were read. The count stays at 2^64 - 1 once it is there.
    pub datagrams: u64,
    /// The fault of the source that ended the line, if one did.
    pub fault: Option<SourceFault>,
}
