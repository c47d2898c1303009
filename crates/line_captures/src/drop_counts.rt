//! How many frames were dropped before a capture, as it says itself.
ghost use Rattle.std.specs.Prelude.{◌≡◌};
ghost use Rattle.line_captures.specs.DropCounts.{drops_after, said_after, in_new_section, no_drops, none_said, dropped_of};

use packet_capture::DropReport;

/// The most interfaces of a section.
const INTERFACES: usize = 256;

/// How many frames were dropped, as a capture says itself. A count stays at its largest number once
/// it is there.
#[derive(Clone, Copy, Debug, PartialEq, Eq)]
pub struct DroppedFrames {
    /// Before packets, as these say.
    pub before_packets: u64,
    /// By interfaces, as their statistics say.
    pub by_interfaces: u64,
    /// By the system, as the statistics of interfaces say.
    pub by_system: u64,
}

/// What the interfaces say of one count.
#[derive(Clone, Copy, Debug, PartialEq, Eq)]
struct SaidCounts {
    /// The sum over all interfaces.
    sum: u64,
    /// The most that each interface of the section said, by its place.
    most: [u64; INTERFACES],
}

impl SaidCounts {
    fn new() -> SaidCounts
        ensures { result ≡ none_said }
    {
        SaidCounts {
            sum: 0,
            most: [0; INTERFACES],
        }
    }

    /// Begins a section, whose interfaces have said nothing.
    fn begin_section(&mut self)
        ensures { self.new ≡ in_new_section self.old }
    {
        self.most = [0; INTERFACES];
    }

    /// Takes what an interface says, which counts from the start of the capture on.
    fn add(&mut self, interface: u32, count: u64)
        ensures { self.new ≡ said_after self.old interface count }
    {
        let place = interface as usize;
        if place < INTERFACES && count > self.most[place] {
            self.sum = self.sum.saturating_add(count - self.most[place]);
            self.most[place] = count;
        }
    }
}

/// What a capture says so far of frames that were dropped.
#[derive(Clone, Copy, Debug, PartialEq, Eq)]
pub struct DropCounts {
    before_packets: u64,
    by_interface: SaidCounts,
    by_system: SaidCounts,
}

impl DropCounts {
    /// Returns the counts before the first piece.
    pub(crate) fn new() -> DropCounts
        ensures { result ≡ no_drops }
    {
        DropCounts {
            before_packets: 0,
            by_interface: SaidCounts::new(),
            by_system: SaidCounts::new(),
        }
    }

    /// Returns how many frames were dropped.
    pub fn dropped(&self) -> DroppedFrames
        ensures { result ≡ dropped_of self.now }
    {
        DroppedFrames {
            before_packets: self.before_packets,
            by_interfaces: self.by_interface.sum,
            by_system: self.by_system.sum,
        }
    }

    /// Takes what a piece says.
    #[inline(always)]
    pub(crate) fn add(&mut self, report: DropReport)
        ensures { self.new ≡ drops_after self.old report }
    {
        match report {
            DropReport::Silent => {}
            told => self.add_told(told),
        }
    }

    /// Takes what a piece says, which is seldom anything.
    #[cold]
    #[inline(never)]
    fn add_told(&mut self, report: DropReport)
        ensures { self.new ≡ drops_after self.old report }
    {
        match report {
            DropReport::Silent => {}
            DropReport::NewSection => {
                self.by_interface.begin_section();
                self.by_system.begin_section();
            }
            DropReport::Before(frames) => {
                self.before_packets = self.before_packets.saturating_add(frames);
            }
            DropReport::Since(interface, by_interface, by_system) => {
                self.by_interface.add(interface, by_interface);
                self.by_system.add(interface, by_system);
            }
        }
    }
}
