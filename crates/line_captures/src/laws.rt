//! Laws of the definitions.
ghost use Rattle.std.specs.Prelude.{◌≡◌, ◌<◌, ◌^◌, List, length};
ghost use Rattle.packet_capture.specs.Captures.{PieceContent, frames_of};
ghost use Rattle.run_settings.specs.declared.captured_line.CapturedLine.{CapturedLine};
ghost use Rattle.line_captures.specs.declared.progress.Progress.{Progress};
ghost use Rattle.line_captures.specs.Counts.{CountsPieces, new_progress, total_of};

/// Each frame is of one kind: below 2^64 the counts of the frames of a capture add up to how many
/// it has. The function does nothing: its contract is a law.
pub fn each_frame_is_counted()
    ensures { (lines : List CapturedLine) (pieces : List PieceContent) (after : Progress)
        → CountsPieces lines new_progress pieces after → length (frames_of pieces) < 2 ^ 64
        → total_of after.counts ≡ length (frames_of pieces) }
{}
