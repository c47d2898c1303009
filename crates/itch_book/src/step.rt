//! The step that a message is for the live orders.

use crate::oddity::Oddity;

/// The book side whose orders a message changed, if it changed one, and what was odd about it.
#[derive(Clone, Copy, Debug)]
pub(crate) struct Step {
    pub(crate) side: Option<u32>,
    pub(crate) oddity: Option<Oddity>,
}
