//! The steps that the pieces of a packet capture are.
ghost use Rattle.std.specs.Prelude.{◌≡◌};
ghost use Rattle.line_captures.specs.PacketFormats.{step_from};

use crate::bad_piece::BadPiece;
use capture_records::{Record, Step};
use feed_types::{LineId, VenueId};

/// A datagram that came on a line.
#[derive(Clone, Copy, Debug)]
pub(crate) struct LineDatagram<'a> {
    pub(crate) venue: VenueId,
    pub(crate) line: LineId,
    /// Its bytes, at most 65,535.
    pub(crate) bytes: &'a [u8],
}

/// What some bytes of a packet capture begin with.
// A step as a replay takes it has room for a record of any kind, which would be copied with it from
// one call to the next.
#[derive(Clone, Copy, Debug)]
pub(crate) enum PieceStep<'a> {
    /// A piece of this length, with a datagram to a line, and the time at which it came, if that is
    /// known.
    Came {
        len: usize,
        venue: VenueId,
        line: LineId,
        bytes: &'a [u8],
        time: Option<u64>,
    },
    /// A piece of this length, without such a datagram.
    Passed(usize),
    /// Less than a piece.
    Wants,
    /// No piece, however the bytes go on.
    Bad(BadPiece),
}

impl<'a> PieceStep<'a> {
    /// Returns the same step, each part by itself: a call that isn't inlined returns a step in
    /// memory, and any other step that may stand in its place would lie there, too.
    #[inline(always)]
    pub(crate) fn apart(self) -> PieceStep<'a>
        ensures { result ≡ self.entry }
    {
        match self {
            PieceStep::Came {
                len,
                venue,
                line,
                bytes,
                time,
            } => PieceStep::Came {
                len,
                venue,
                line,
                bytes,
                time,
            },
            PieceStep::Passed(len) => PieceStep::Passed(len),
            PieceStep::Wants => PieceStep::Wants,
            PieceStep::Bad(bad) => PieceStep::Bad(bad),
        }
    }

    /// Returns the step as a replay takes it.
    #[inline(always)]
    pub(crate) fn into_step(self) -> Step<'a, BadPiece>
        ensures { result ≡ step_from self.entry }
    {
        match self {
            PieceStep::Came {
                len,
                venue,
                line,
                bytes,
                time,
            } => Step::Came {
                record: Record::Datagram { venue, line, bytes },
                time,
                len,
            },
            PieceStep::Passed(len) => Step::Passed(len),
            PieceStep::Wants => Step::Wants,
            PieceStep::Bad(bad) => Step::Bad(bad),
        }
    }
}
