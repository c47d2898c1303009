//! The faults of making a lane.

ghost use Rattle.std.specs.Prelude.{◌≡◌};
ghost use Rattle.fifo_lane.specs.Codes.{lane_fault_code};

use thiserror::Error;

/// Why there is no lane.
#[derive(Clone, Copy, Debug, PartialEq, Eq, Hash, Error)]
pub enum LaneFault {
    /// A lane has room for 1 to 65,536 items.
    #[error("the lane's capacity isn't between 1 and 65,536 items")]
    BadCapacity,
    /// The memory for the lane's places was refused.
    #[error("no memory for the lane")]
    NoMemory,
}

impl LaneFault {
    /// The code of the fault: 12 or 22.
    pub fn code(self) -> u8
        ensures { result ≡ lane_fault_code self }
    {
        match self {
            LaneFault::NoMemory => 12,
            LaneFault::BadCapacity => 22,
        }
    }
}
