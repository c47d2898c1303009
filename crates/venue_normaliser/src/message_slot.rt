//! A slot for a message.

/// The most bytes that a form has.
pub(crate) const MOST_BYTES: usize = 50;

/// The number of a message, 0 where there is none, and its bytes.
#[derive(Clone, Copy, Debug)]
pub struct MessageSlot {
    pub number: u64,
    pub len: u8,
    pub bytes: [u8; 50],
}

pub(crate) const EMPTY: MessageSlot = MessageSlot {
    number: 0,
    len: 0,
    bytes: [0; MOST_BYTES],
};
