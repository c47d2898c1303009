//! The sources of lines' datagrams.
//!
//! A feed can't know what a device brings, so the trait speaks of a source by relations between its
//! states, with laws.

ghost use Rattle.std.specs.Prelude.{◌≡◌, [], ◌++◌, Ok, Some, IfOk, IfErr};
ghost use Rattle.venue_lines.specs.Datagrams.{AreGenuineBytes, bytes_of};
ghost use Rattle.venue_lines.specs.Sources.{brought_in, failures_after, source_fault_code};

use crate::datagram::Datagram;
use crate::looked::Looked;
use feed_types::{Genuine, VenueId};
use mold_packet::Request;
use thiserror::Error;

/// Why a source returned no datagram, or sent no request.
#[derive(Clone, Copy, Debug, PartialEq, Eq, Hash, Error)]
pub enum SourceFault {
    /// The device failed.
    #[error("the line's device failed")]
    Device,
    /// Memory for a datagram was refused.
    #[error("memory was refused")]
    NoMemory,
    /// The device was asked as often as one call may ask it, and each time it was interrupted.
    #[error("the line's device was asked too many times")]
    TooManyTurns,
}

impl SourceFault {
    /// The code of the fault: 12, 28 or 33.
    pub fn code(self) -> u8
        ensures { result ≡ source_fault_code self }
    {
        match self {
            SourceFault::NoMemory => 12,
            SourceFault::TooManyTurns => 28,
            SourceFault::Device => 33,
        }
    }
}

/// A source of a line's datagrams, which takes requests for those that were lost. A line's thread
/// calls it under no lock, so each call may wait.
pub trait LineSource<G: Genuine>: Drop {
    ghost use Rattle.std.specs.Prelude.{ℕ, List, [], ◌++◌};

    /// The number of the venue whose datagrams it brings.
    ghost venue_of: { Self → ℕ };

    /// The number of calls that failed.
    ghost failures: { Self → ℕ };

    /// Calls that bring the datagrams of these bytes, in order, make the one state of the other: it
    /// is the same source, later on.
    ghost brings: { Self → List (List ℕ) → Self → Type 0 };

    /// The venue whose datagrams it brings.
    fn venue(&self) -> VenueId
        ensures { result ≡ venue_of self.now };

    /// Waits for what `next` answers, and returns true once it is there; or returns false after a
    /// while. A run calls it before each `next`, and looks in between whether it is to stop: a
    /// source that has no body of its own for it waits in `next`, and so long a run that is to stop
    /// waits, too.
    fn await_next(&mut self) -> bool
        ensures venue { venue_of self.new ≡ venue_of self.old }
        ensures brings { brings self.old [] self.new }
        ensures sound { failures self.new ≡ failures self.old }
    {
        true
    }

    /// The next datagram, which is genuine at the source's venue; None at the end of the line.
    ///
    /// Device where the device failed, TooManyTurns where it was interrupted as often as one call
    /// may ask it: each is a failure. NoMemory where memory for the datagram was refused, which is
    /// no failure.
    fn next(&mut self) -> Result<Option<Datagram>, SourceFault>
        ensures venue { venue_of self.new ≡ venue_of self.old }
        ensures brings { brings self.old (brought_in result) self.new }
        ensures genuine { (datagram : Datagram) → result ≡ Ok (Some datagram)
            → AreGenuineBytes G.Genuine (venue_of self.old) (bytes_of datagram) }
        ensures sound { IfOk result (λ _. failures self.new ≡ failures self.old) }
        ensures failed { IfErr result (λ fault. failures self.new
            ≡ failures_after (failures self.old) fault) };

    /// Takes back a datagram that `next` returned, once it was taken, so that its memory can be
    /// used for a later one. `looked` is what the line saw then: its place in the venue's order,
    /// and the session that began at it, if one did. A source that has no body of its own for it
    /// lets the datagram go.
    fn recycle(&mut self, datagram: Datagram, looked: &Looked)
        ensures venue { venue_of self.new ≡ venue_of self.old }
        ensures brings { brings self.old [] self.new }
        ensures sound { failures self.new ≡ failures self.old }
    {
        let _unused = looked;
        drop(datagram);
    }

    /// Returns the milliseconds of a clock that the source has, from any moment on. The clock
    /// needn't go on.
    fn now_ms(&mut self) -> u64
        ensures venue { venue_of self.new ≡ venue_of self.old }
        ensures brings { brings self.old [] self.new }
        ensures sound { failures self.new ≡ failures self.old };

    /// Sends a request for messages that were lost, or drops it where there is nobody to ask. The
    /// faults are those of `next`.
    fn request(&mut self, request: &Request) -> Result<(), SourceFault>
        ensures venue { venue_of self.new ≡ venue_of self.old }
        ensures brings { brings self.old [] self.new }
        ensures sound { IfOk result (λ _. failures self.new ≡ failures self.old) }
        ensures failed { IfErr result (λ fault. failures self.new
            ≡ failures_after (failures self.old) fault) };

    /// No calls leave the source as it was, and bring nothing.
    ghost brings_nothing: { (s : Self) → brings s [] s };

    /// Calls after calls bring datagrams after datagrams.
    ghost brings_more: { (s t u : Self) (xs ys : List (List ℕ))
        → brings s xs t → brings t ys u → brings s (xs ++ ys) u };
}
