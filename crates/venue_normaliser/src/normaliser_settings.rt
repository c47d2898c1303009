//! The sizes of a normaliser, and how it reads an end of session.

use crate::end_number::EndNumber;

/// The sizes of a venue's normaliser: the window of its arbiter in messages, 1 to 65,535, and the
/// most live orders that its book may have; and the number that an end of session has.
#[derive(Clone, Copy, Debug)]
pub struct NormaliserSettings {
    pub window: u32,
    pub most_orders: usize,
    pub end_number: EndNumber,
}
