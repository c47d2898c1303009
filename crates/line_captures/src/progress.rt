//! How far a capture was read.
ghost use Rattle.std.specs.Prelude.{◌≡◌, Some, length};
ghost use Rattle.packet_capture.specs.Captures.{piece_of};
ghost use Rattle.packet_capture.specs.Frames.{FrameContent};
ghost use Rattle.line_captures.specs.Counts.{new_progress, piece_after, second_after, timed_after};

use crate::drop_counts::DropCounts;
use crate::frame_counts::FrameCounts;
use packet_capture::Piece;

/// How far a capture was read, and what its frames are.
#[derive(Clone, Copy, Debug, PartialEq, Eq)]
pub struct Progress {
    /// How many bytes the pieces had that were read.
    pub position: u64,
    /// At which byte the first record began whose frame has no byte and had none on the wire. The
    /// header of a savefile behind another one is such a record.
    pub second_start: Option<u64>,
    /// The latest time of a frame so far, 0 before any had one.
    pub latest_time: u64,
    pub counts: FrameCounts,
    pub drops: DropCounts,
}

impl Progress {
    /// Returns the progress before the first piece.
    pub fn new() -> Progress
        ensures { result ≡ new_progress }
    {
        Progress {
            position: 0,
            second_start: None,
            latest_time: 0,
            counts: FrameCounts::default(),
            drops: DropCounts::new(),
        }
    }

    /// Takes a frame without a byte, of this length on the wire: a second capture may begin there.
    // A call of its own, so that a frame with bytes, as nearly all are, costs one comparison.
    #[cold]
    #[inline(never)]
    fn add_empty(&mut self, wire_len: u32)
        ensures { (frame : FrameContent) → length frame.bytes ≡ 0 → frame.wire_len ≡ wire_len
            → self.new ≡ record self.old {
              second_start =
                  second_after self.old.second_start self.old.position (Some frame);
            } }
    {
        if wire_len == 0 && self.second_start.is_none() {
            self.second_start = Some(self.position);
        }
    }

    /// Counts the bytes of a piece, and takes what it says of dropped frames, and whether it seems
    /// to be where a second capture begins.
    #[inline(always)]
    pub fn add_piece(&mut self, piece: &Piece<'_>)
        ensures { self.new ≡ piece_after self.old (piece_of piece.now) }
    {
        self.drops.add(piece.dropped);
        if let Some(frame) = &piece.frame {
            if frame.bytes.len() == 0 {
                self.add_empty(frame.wire_len);
            }
        }
        self.position = self.position.saturating_add(piece.len as u64);
    }

    /// Counts a frame where its time is before the latest one so far.
    pub fn add_time(&mut self, time: Option<u64>)
        ensures { self.new ≡ timed_after self.old time }
    {
        if let Some(time) = time {
            if time < self.latest_time {
                self.counts.add_disordered();
            }
            self.latest_time = self.latest_time.max(time);
        }
    }
}
