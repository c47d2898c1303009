//! Which of its venue's lines a line is.

ghost use Rattle.std.specs.Prelude.{◌≡◌, true};
ghost use Rattle.udp_lines.specs.UdpLines.{line_of};

use crate::line_progress::LineProgress;
use feed_types::LineId;

/// Which of its venue's lines a line is.
#[derive(Drop)]
pub enum LineUse {
    A,
    B,
    /// The line of replies to the venue's requests. No end of session and no count of datagrams
    /// ends it: it ends once the lines have that have this progress.
    Recovery(Vec<LineProgress>),
}

impl LineUse {
    /// The line.
    pub(crate) fn line(&self) -> LineId
        ensures { result ≡ line_of self.now }
    {
        match self {
            LineUse::A => LineId::A,
            LineUse::B => LineId::B,
            LineUse::Recovery(_) => LineId::Recovery,
        }
    }

    /// Whether the lines have ended with which it ends.
    pub(crate) fn is_over(&self) -> bool
        ensures { result ≡ true → line_of self.now ≡ LineId.Recovery }
    {
        match self {
            LineUse::A | LineUse::B => false,
            LineUse::Recovery(lines) => lines.iter().all(LineProgress::is_over),
        }
    }
}
