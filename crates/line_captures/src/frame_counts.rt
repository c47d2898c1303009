//! How many frames of a capture are of each kind.
ghost use Rattle.std.specs.Prelude.{◌≡◌, [], ◌∷◌};
ghost use Rattle.line_captures.specs.Counts.{to_line, elsewhere, no_datagram, counts_after, total_of};
ghost use Rattle.feed_types.specs.FullCounts.{count_after};

use packet_capture::FrameFault;

/// How many frames of a capture are of each kind. Each frame is of one; those that are out of time
/// order are counted apart. A count stays at its largest number once it is there.
#[derive(Clone, Copy, Debug, Default, PartialEq, Eq)]
pub struct FrameCounts {
    /// Frames whose datagram goes to a line.
    pub to_lines: u64,
    /// Frames whose datagram goes to no line.
    pub elsewhere: u64,
    /// Frames that carry no IP packet.
    pub no_ip: u64,
    /// Frames whose IP packet carries no UDP datagram.
    pub no_udp: u64,
    /// Fragments of datagrams.
    pub fragments: u64,
    /// Frames that end before their packet does.
    pub cut: u64,
    /// Packets whose lengths or versions are wrong.
    pub malformed: u64,
    /// Frames of a link type, or with an extension header, that isn't read.
    pub not_read: u64,
    /// Frames, of any kind, whose time is before the latest of the frames before.
    pub disordered: u64,
}

/// A count after one more.
fn count_after(count: u64) -> u64
    ensures { result ≡ count_after count 1 }
{
    count.saturating_add(1)
}

impl FrameCounts {
    /// Returns the number of all frames: the sum of the counts but `disordered`, up to 2^64 - 1.
    pub fn total(&self) -> u64
        ensures { result ≡ total_of self.now }
    {
        let carrying = self.to_lines.saturating_add(self.elsewhere);
        let other = self
            .no_ip
            .saturating_add(self.no_udp)
            .saturating_add(self.fragments);
        let bad = self
            .cut
            .saturating_add(self.malformed)
            .saturating_add(self.not_read);
        carrying.saturating_add(other).saturating_add(bad)
    }

    /// Counts a frame whose datagram goes to a line.
    pub(crate) fn add_to_line(&mut self)
        ensures { self.new ≡ counts_after self.old (to_line ∷ []) 0 }
    {
        self.to_lines = count_after(self.to_lines);
    }

    /// Counts a frame whose datagram goes to no line.
    pub fn add_elsewhere(&mut self)
        ensures { self.new ≡ counts_after self.old (elsewhere ∷ []) 0 }
    {
        self.elsewhere = count_after(self.elsewhere);
    }

    /// Counts a frame that carries no datagram.
    pub fn add_fault(&mut self, fault: FrameFault)
        ensures { self.new ≡ counts_after self.old (no_datagram fault ∷ []) 0 }
    {
        match fault {
            FrameFault::NotIp => self.no_ip = count_after(self.no_ip),
            FrameFault::NotUdp => self.no_udp = count_after(self.no_udp),
            FrameFault::Fragment => self.fragments = count_after(self.fragments),
            FrameFault::ShortFrame => self.cut = count_after(self.cut),
            FrameFault::BadIpHeader => self.malformed = count_after(self.malformed),
            FrameFault::BadUdpLength => self.malformed = count_after(self.malformed),
            FrameFault::UnknownLink => self.not_read = count_after(self.not_read),
            FrameFault::ExtensionHeader => self.not_read = count_after(self.not_read),
        }
    }

    /// Counts a frame that is out of time order.
    pub(crate) fn add_disordered(&mut self)
        ensures { self.new ≡ counts_after self.old [] 1 }
    {
        self.disordered = count_after(self.disordered);
    }
}
