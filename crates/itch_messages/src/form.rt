//! The types and lengths of the messages that say something of orders, and the codes in them.

pub(crate) const ADD: u8 = b'A';

pub(crate) const ADD_LEN: usize = 36;

pub(crate) const ATTRIBUTED_ADD: u8 = b'F';

pub(crate) const ATTRIBUTED_ADD_LEN: usize = 40;

pub(crate) const EXECUTED: u8 = b'E';

pub(crate) const EXECUTED_LEN: usize = 31;

pub(crate) const EXECUTED_AT: u8 = b'C';

pub(crate) const EXECUTED_AT_LEN: usize = 36;

pub(crate) const CANCEL: u8 = b'X';

pub(crate) const CANCEL_LEN: usize = 23;

pub(crate) const DELETE: u8 = b'D';

pub(crate) const DELETE_LEN: usize = 19;

pub(crate) const REPLACE: u8 = b'U';

pub(crate) const REPLACE_LEN: usize = 35;

pub(crate) const DIRECTORY: u8 = b'R';

pub(crate) const DIRECTORY_LEN: usize = 39;

pub(crate) const TRADING_ACTION: u8 = b'H';

pub(crate) const TRADING_ACTION_LEN: usize = 25;

pub(crate) const OPERATIONAL_HALT: u8 = b'h';

pub(crate) const OPERATIONAL_HALT_LEN: usize = 21;

pub(crate) const BUY: u8 = b'B';

pub(crate) const SELL: u8 = b'S';

/// The symbol is halted, as a trading state and as an operational action.
pub(crate) const HALTED: u8 = b'H';

/// Trading is paused.
pub(crate) const PAUSED: u8 = b'P';

/// Orders are displayed, and none is executed.
pub(crate) const QUOTED_ONLY: u8 = b'Q';

/// The symbol trades, as a trading state and as an operational action.
pub(crate) const TRADING: u8 = b'T';
