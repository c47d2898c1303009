//! The cells of rows.

use feed_types::SymbolName;

/// A value of a row, in one column of its table.
#[derive(Clone, Copy, Debug)]
pub enum Cell<'a> {
    /// Nothing is known.
    Nothing,
    Count(u64),
    /// Nanoseconds, or billionths, with nine decimals.
    Seconds(u64),
    /// A time in nanoseconds from 1970 on, where it is known.
    Time(Option<u64>),
    /// A word of letters, digits, spaces and signs that need no quotation marks.
    Word(&'a str),
    Name(SymbolName),
    /// A venue, by its place among the venues.
    Venue(usize),
}
