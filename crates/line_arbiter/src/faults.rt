//! The faults of making an arbiter, of beginning its next session, and of skipping.

ghost use Rattle.std.specs.Prelude.{◌≡◌};
ghost use Rattle.line_arbiter.specs.Codes.{arbiter_fault_code, renew_fault_code, skip_fault_code};

use thiserror::Error;

/// Why there is no arbiter.
#[derive(Clone, Copy, Debug, PartialEq, Eq, Hash, Error)]
pub enum ArbiterFault {
    /// A window has 1 to 65,535 messages.
    #[error("the window isn't between 1 and 65,535 messages")]
    BadWindow,
    /// The memory for the window's places was refused.
    #[error("no memory for the window")]
    NoMemory,
}

impl ArbiterFault {
    /// The code of the fault: 12 or 13.
    pub fn code(self) -> u8
        ensures { result ≡ arbiter_fault_code self }
    {
        match self {
            ArbiterFault::NoMemory => 12,
            ArbiterFault::BadWindow => 13,
        }
    }
}

/// Why the next session doesn't begin. The arbiter is unchanged.
#[derive(Clone, Copy, Debug, PartialEq, Eq, Hash, Error)]
pub enum RenewFault {
    /// The present session's End wasn't sent.
    #[error("the session isn't over")]
    NotEnded,
    /// The venue has had a session of this name.
    #[error("the session's name was used before")]
    SessionUsed,
    /// The venue has had 64 sessions.
    #[error("the venue has had 64 sessions")]
    TooManySessions,
}

impl RenewFault {
    /// The code of the fault in printed lines: 35 to 37.
    pub fn code(self) -> u8
        ensures { result ≡ renew_fault_code self }
    {
        match self {
            RenewFault::NotEnded => 35,
            RenewFault::SessionUsed => 36,
            RenewFault::TooManySessions => 37,
        }
    }
}

/// Why messages aren't given up. The arbiter is unchanged.
#[derive(Clone, Copy, Debug, PartialEq, Eq, Hash, Error)]
pub enum SkipFault {
    /// An item is ready: what has come is sent first.
    #[error("an item is ready to be sent")]
    ItemsReady,
    /// The session ends before the number.
    #[error("the number is past the announced end of the session")]
    PastEnd,
    /// No message below the number is missing.
    #[error("no message below the number is missing")]
    NothingMissing,
    /// A message below the number has come, after one that is missing: skip to it first.
    #[error("a message below the number has come")]
    HeldBelow,
}

impl SkipFault {
    /// The code of the fault in printed lines: 60 to 63.
    pub fn code(self) -> u8
        ensures { result ≡ skip_fault_code self }
    {
        match self {
            SkipFault::ItemsReady => 60,
            SkipFault::PastEnd => 61,
            SkipFault::NothingMissing => 62,
            SkipFault::HeldBelow => 63,
        }
    }
}
