//! Of which kind a record is.
ghost use Rattle.std.specs.Prelude.{◌≡◌};
ghost use Rattle.line_recordings.specs.Recordings.{kind_letter};

use feed_types::LineId;

/// The kind of a record of a recording.
#[derive(Clone, Copy, Debug, PartialEq, Eq)]
pub enum RecordKind {
    /// A datagram of this line.
    Line(LineId),
    /// A skip.
    Skip,
}

impl RecordKind {
    /// The letter of the kind in a record: that of the line, or K.
    pub fn letter(self) -> u8
        ensures { result ≡ kind_letter self }
    {
        match self {
            RecordKind::Line(line) => line.letter(),
            RecordKind::Skip => b'K',
        }
    }
}
