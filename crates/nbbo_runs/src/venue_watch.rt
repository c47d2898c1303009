//! What is watched of a venue's lines.
ghost use Rattle.std.specs.Prelude.{◌≡◌};
ghost use Rattle.nbbo_runs.specs.Watches.{heard_on, unwatched};

use feed_types::LineId;

/// Which of a venue's lines had a datagram.
#[derive(Clone, Copy, Debug, PartialEq, Eq)]
pub struct VenueWatch {
    /// Whether line A had one.
    pub a: bool,
    /// Whether line B had one.
    pub b: bool,
}

impl VenueWatch {
    /// No datagram yet.
    pub(crate) fn new() -> VenueWatch
        ensures { result ≡ unwatched }
    {
        VenueWatch { a: false, b: false }
    }

    /// Notes a datagram that came on a line.
    #[inline(always)]
    pub(crate) fn note(&mut self, line: LineId)
        ensures { self.new ≡ heard_on self.old line }
    {
        match line {
            LineId::A => self.a = true,
            LineId::B => self.b = true,
            LineId::Recovery => {}
        }
    }
}
