//! The types of the three forms, and the values of their flags and states.

/// The type of a quotation in version 1, with sizes of 32 bits.
pub(crate) const VERSION_1: u8 = 0x51;
/// The type of a quotation in version 2, with sizes of 64 bits.
pub(crate) const VERSION_2: u8 = 0x71;
/// The type of a halt, and of the end of one.
pub(crate) const HALT: u8 = 0x48;

pub(crate) const VERSION_1_LEN: usize = 26;

pub(crate) const VERSION_2_LEN: usize = 34;

pub(crate) const HALT_LEN: usize = 10;

/// The flag of an automated bid, bit 0.
pub(crate) const BID_AUTO: u8 = 1;
/// The flag of an automated offer, bit 1.
pub(crate) const OFFER_AUTO: u8 = 2;

/// The state of a symbol that trades.
pub(crate) const TRADING: u8 = 0;
/// The state of a symbol that is halted.
pub(crate) const HALTED: u8 = 1;
