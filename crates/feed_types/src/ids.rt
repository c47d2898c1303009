//! The ids of venues and of subscribers: small numbers.

ghost use Rattle.std.specs.Prelude.{◌≡◌, ◌<◌, Some, decimal};
ghost use Rattle.std.specs.Option.{SomeIff};

use crate::limits::{MAX_SUBSCRIBERS, MAX_VENUES};
use std::fmt;
use std::marker::Model;

/// One of up to 16 venues (exchanges), counted from 0 in the order of the configuration.
#[derive(Clone, Copy, Debug, Default, PartialEq, Eq, PartialOrd, Ord, Hash)]
pub struct VenueId {
    place: u8,
}

impl Model for VenueId {
    ghost use Rattle.std.specs.Prelude.{ℕ, ◌<◌};

    ghost Value = { ℕ };

    ghost view = { λ v. v.place };

    ghost invariant = { λ v. v.place < 16 };

    ghost inverse = { λ n. record { place = n } };
}

impl VenueId {
    /// The venue of this number, or `None` from 16 on.
    pub const fn new(place: u8) -> Option<VenueId>
        ensures { SomeIff result (place < 16) place }
    {
        if (place as usize) < MAX_VENUES {
            Some(VenueId { place })
        } else {
            None
        }
    }

    /// The venue at this place of a list of venues, or `None` from 16 on.
    pub const fn from_index(index: usize) -> Option<VenueId>
        ensures { SomeIff result (index < 16) index }
    {
        if index < MAX_VENUES {
            Some(VenueId::at(index))
        } else {
            None
        }
    }

    /// The venue at this place of a list of at most 16 venues.
    pub const fn at(index: usize) -> VenueId
        requires { index < 16 }
        ensures { result ≡ index }
    {
        VenueId { place: index as u8 }
    }

    /// The venue's number, for use as an index.
    pub const fn index(self) -> usize
        ensures value { result ≡ self }
        ensures in_range { result < 16 }
    {
        self.place as usize
    }
}

impl fmt::Display for VenueId {
    ghost output = { λ v. Some (decimal v) };

    fn fmt<W: fmt::Write>(&self, f: &mut fmt::Formatter<W>) -> fmt::Result {
        let place = self.place;
        write!(f, "{place}")
    }
}

/// One of up to 32 subscribers, counted from 0 in the order in which they subscribed.
#[derive(Clone, Copy, Debug, PartialEq, Eq, PartialOrd, Ord, Hash)]
pub struct SubscriberId {
    place: u8,
}

impl Model for SubscriberId {
    ghost use Rattle.std.specs.Prelude.{ℕ, ◌<◌};

    ghost Value = { ℕ };

    ghost view = { λ s. s.place };

    ghost invariant = { λ s. s.place < 32 };

    ghost inverse = { λ n. record { place = n } };
}

impl SubscriberId {
    /// The subscriber of this number, or `None` from 32 on.
    pub const fn new(place: u8) -> Option<SubscriberId>
        ensures { SomeIff result (place < 32) place }
    {
        if (place as usize) < MAX_SUBSCRIBERS {
            Some(SubscriberId { place })
        } else {
            None
        }
    }

    /// The subscriber at this place of a list of at most 32 subscribers.
    pub const fn at(index: usize) -> SubscriberId
        requires { index < 32 }
        ensures { result ≡ index }
    {
        SubscriberId { place: index as u8 }
    }

    /// The subscriber's number, for use as an index.
    pub const fn index(self) -> usize
        ensures value { result ≡ self }
        ensures in_range { result < 32 }
    {
        self.place as usize
    }
}

impl fmt::Display for SubscriberId {
    ghost output = { λ s. Some (decimal s) };

    fn fmt<W: fmt::Write>(&self, f: &mut fmt::Formatter<W>) -> fmt::Result {
        let place = self.place;
        write!(f, "{place}")
    }
}
