//! A frame of a capture.

/// A frame, which borrows its bytes.
#[derive(Clone, Copy, Debug, PartialEq, Eq)]
pub struct Frame<'a> {
    /// The time at which it came, in nanoseconds from 1970 on, or `None` where the capture doesn't
    /// say, or that isn't 0 to 2^64 - 1.
    // The first field of a frame and of a piece is an option, since a fault stands in the place of
    // its tag: beside a fault a number would be kept byte by byte.
    pub time: Option<u64>,
    /// The number of its link type.
    pub link: u16,
    /// Its length in bytes on the wire.
    pub wire_len: u32,
    /// The bytes that were captured, from the first on.
    pub bytes: &'a [u8],
}
