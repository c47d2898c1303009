//! The faults of a configuration.

ghost use Rattle.std.specs.Prelude.{◌≡◌};
ghost use Rattle.journal_book.specs.Configs.{config_fault_code, core_fault_code};

use thiserror::Error;

/// Why a configuration is refused: the first fault that fits, in this order.
#[derive(Clone, Copy, Debug, PartialEq, Eq, Hash, Error)]
pub enum ConfigFault {
    /// A feed has 1 to 16 venues.
    #[error("the number of venues isn't between 1 and 16")]
    BadVenueCount,
    /// A window has 1 to 65,535 messages.
    #[error("the window isn't between 1 and 65,535 messages")]
    BadWindow,
    /// A lane holds 1 to 65,536 items.
    #[error("the lanes' capacity isn't between 1 and 65,536 items")]
    BadCapacity,
    /// A feed has at most 4,096 symbols.
    #[error("there are more than 4,096 symbols")]
    TooManySymbols,
    /// Each symbol is configured once.
    #[error("a symbol is configured twice")]
    DuplicateSymbol,
}

impl ConfigFault {
    /// The code of the fault, 13 to 16 or 22.
    pub fn code(self) -> u8
        ensures { result ≡ config_fault_code self }
    {
        match self {
            ConfigFault::BadWindow => 13,
            ConfigFault::BadVenueCount => 14,
            ConfigFault::DuplicateSymbol => 15,
            ConfigFault::TooManySymbols => 16,
            ConfigFault::BadCapacity => 22,
        }
    }
}

/// Why there is no world.
#[derive(Clone, Copy, Debug, PartialEq, Eq, Hash, Error)]
pub enum CoreFault {
    /// The configuration is refused.
    #[error("the configuration is refused: {0}")]
    BadConfig(ConfigFault),
    /// Memory was refused. Nothing is shown of what was done before.
    #[error("no memory for the run")]
    NoMemory,
}

impl CoreFault {
    /// The code of the fault; 12 for memory.
    pub fn code(self) -> u8
        ensures { result ≡ core_fault_code self }
    {
        match self {
            CoreFault::NoMemory => 12,
            CoreFault::BadConfig(fault) => fault.code(),
        }
    }
}
