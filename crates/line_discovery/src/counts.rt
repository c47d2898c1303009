//! What was counted of the pieces of a capture.
ghost use Rattle.std.specs.Prelude.{◌≡◌, IfOk, [], ◌∷◌};
ghost use Rattle.packet_capture.specs.Captures.{piece_of};
ghost use Rattle.line_discovery.specs.Surveys.{CountsFate, CountsSightings, new_counts};

use crate::frame_class::{FrameClass, fate_of};
use crate::table::EndpointTable;
use line_captures::Progress;
use packet_capture::Piece;
use std::alloc::{AllocError, Global};

/// What was counted of the pieces of a capture.
#[derive(Drop)]
pub struct SurveyCounts {
    /// How far the capture was read, and its frames by their kinds. No line is known, so each
    /// datagram is one to no line.
    pub progress: Progress,
    /// The packets.
    pub lines: EndpointTable,
    /// The other datagrams.
    pub others: EndpointTable,
}

impl SurveyCounts {
    /// Returns the counts of nothing. They take all their memory, some 1 MB.
    pub(crate) fn new(alloc: Global) -> Result<SurveyCounts, AllocError>
        ensures { IfOk result (λ c. c ≡ new_counts) }
    {
        Ok(SurveyCounts {
            progress: Progress::new(),
            lines: EndpointTable::new(alloc)?,
            others: EndpointTable::new(alloc)?,
        })
    }

    /// Counts a frame by its fate.
    fn count_fate(&mut self, fate: &FrameClass)
        ensures { CountsFate fate.now self.old self.new }
    {
        match fate {
            FrameClass::Packet(sighting) => {
                self.progress.counts.add_elsewhere();
                self.lines.count(sighting);
            }
            FrameClass::Other(sighting) => {
                self.progress.counts.add_elsewhere();
                self.others.count(sighting);
            }
            FrameClass::NoDatagram(fault) => self.progress.counts.add_fault(*fault),
        }
    }

    /// Counts a piece.
    pub(crate) fn count_piece(&mut self, piece: &Piece<'_>)
        ensures { CountsSightings self.old (piece_of piece.now ∷ []) self.new }
    {
        self.progress.add_piece(piece);
        let Some(frame) = piece.frame else {
            return;
        };
        self.progress.add_time(frame.time);
        self.count_fate(&fate_of(&frame));
    }
}
