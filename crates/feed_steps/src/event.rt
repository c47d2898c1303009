//! The events of a feed, and their outcomes.

use feed_types::{LineId, SessionName, SubscriberId, VenueId};
use line_arbiter::Outcome;

/// An event of a feed. A running feed does each in one section under one lock, or as one step of a
/// queue.
#[derive(Clone, Copy, Debug)]
pub enum Event<'a> {
    /// A datagram comes on a line of the venue.
    Packet {
        venue: VenueId,
        line: LineId,
        bytes: &'a [u8],
    },
    /// The venue's next item goes into its lane.
    Push {
        venue: VenueId,
    },
    /// The next item of the venue's lane goes into the journal.
    Consume {
        venue: VenueId,
    },
    /// Self-help on the venue is declared, or withdrawn.
    Declare {
        venue: VenueId,
        on: bool,
    },
    /// The venue's next session begins, under a name of ten bytes.
    Renew {
        venue: VenueId,
        session: SessionName,
    },
    /// The messages of the venue that are missing below the number are given up.
    Skip {
        venue: VenueId,
        number: u64,
    },
    /// The next of the filters that were handed in becomes a subscriber.
    Subscribe,
    /// The next notice that the subscriber wants goes into its lane.
    Offer {
        id: SubscriberId,
    },
    /// The next notice of the subscriber's lane is taken out.
    Dequeue {
        id: SubscriberId,
    },
}

/// The outcome of an event.
#[derive(Clone, Copy, Debug, PartialEq, Eq, Hash)]
pub enum Done {
    /// The event was refused, by the code of the refusal: 1 to 4 a datagram that is no packet, 7 to
    /// 11 a packet that the venue's lines refuse, 17 a full journal, 18 no such venue, 19 a
    /// declaration that changes nothing, 20 one subscriber too many, 21 no such subscriber, 35 to
    /// 37 a session that can't begin, 60 to 63 a skip that can't be made.
    Refused(u8),
    Packet(Outcome),
    /// The item of this number was pushed.
    Pushed(u64),
    /// The item was journaled at this position, from 1.
    Consumed(u64),
    /// The declaration was journaled at this position.
    Declared(u64),
    /// The session of this ordinal has begun, from 2.
    Renewed(u64),
    /// The session goes on from this number.
    Skipped(u64),
    Subscribed(SubscriberId),
    /// The notice of this number was put into the subscriber's lane.
    Offered(u64),
    /// The notice of this number was taken out.
    Dequeued(u64),
    /// The venue has no next item in sequence.
    NothingReady,
    /// The lane holds as many items as it can.
    LaneFull,
    /// The lane is empty.
    LaneEmpty,
    /// No further notice meets the subscriber's terms.
    NothingWanted,
    /// All filters that were handed in are used.
    NoFilter,
}
