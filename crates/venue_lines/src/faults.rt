//! The refusals of calls on a venue, and of calls on a feed.

ghost use Rattle.std.specs.Prelude.{◌≡◌};
ghost use Rattle.venue_lines.specs.Codes.{feed_fault_code, take_fault_code, renewal_fault_code, gap_fault_code};

use line_arbiter::{LineFault, RenewFault, SkipFault};
use mold_packet::PacketFault;
use thiserror::Error;

/// Why a call names nothing that the feed can give. The refused call has changed nothing.
#[derive(Clone, Copy, Debug, PartialEq, Eq, Error)]
pub enum FeedFault {
    /// The venue isn't below the number of venues.
    #[error("the feed has no such venue")]
    UnknownVenue,
    /// There is no subscriber of this id.
    #[error("the feed has no such subscriber")]
    UnknownSubscriber,
    /// The line's seat was handed out already.
    #[error("the line has its seat")]
    SeatTaken,
}

impl FeedFault {
    /// The code of the fault: 18, 21 or 29.
    pub fn code(self) -> u8
        ensures { result ≡ feed_fault_code self }
    {
        match self {
            FeedFault::UnknownVenue => 18,
            FeedFault::UnknownSubscriber => 21,
            FeedFault::SeatTaken => 29,
        }
    }
}

/// Why a datagram was refused.
#[derive(Clone, Copy, Debug, PartialEq, Eq, Error)]
pub enum TakeFault {
    /// The datagram is no packet.
    #[error("the datagram is no packet: {0}")]
    Packet(PacketFault),
    /// The venue's lines refuse the packet.
    #[error("the packet is refused: {0}")]
    Line(LineFault),
}

impl TakeFault {
    /// The code of the fault: 1 to 4 or 7 to 11.
    pub fn code(self) -> u8
        ensures { result ≡ take_fault_code self }
    {
        match self {
            TakeFault::Packet(fault) => fault.code(),
            TakeFault::Line(fault) => fault.code(),
        }
    }
}

/// Why the next session doesn't begin. Nothing has changed.
#[derive(Clone, Copy, Debug, PartialEq, Eq, Error)]
pub enum RenewalFault {
    /// The venue isn't below the number of venues.
    #[error("the feed has no such venue")]
    UnknownVenue,
    /// The ordinal isn't that of the venue's next session.
    #[error("the ordinal isn't that of the venue's next session")]
    WrongOrdinal,
    /// The venue's session can't be followed by this one.
    #[error("the session can't begin: {0}")]
    Venue(RenewFault),
}

impl RenewalFault {
    /// The code of the fault: 18 or 35 to 38.
    pub fn code(self) -> u8
        ensures { result ≡ renewal_fault_code self }
    {
        match self {
            RenewalFault::UnknownVenue => 18,
            RenewalFault::WrongOrdinal => 38,
            RenewalFault::Venue(fault) => fault.code(),
        }
    }
}

/// Why a venue's gap isn't given up. No message was given up.
#[derive(Clone, Copy, Debug, PartialEq, Eq, Error)]
pub enum GapFault {
    /// The venue isn't below the number of venues.
    #[error("the feed has no such venue")]
    UnknownVenue,
    /// The venue's lines can't go on from the number.
    #[error("the gap can't be given up: {0}")]
    Venue(SkipFault),
}

impl GapFault {
    /// The code of the fault: 18 or 60 to 63.
    pub fn code(self) -> u8
        ensures { result ≡ gap_fault_code self }
    {
        match self {
            GapFault::UnknownVenue => 18,
            GapFault::Venue(fault) => fault.code(),
        }
    }
}
