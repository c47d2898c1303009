//! The limits and defaults of options, and their numbers in texts.

/// The window where the words give none.
pub const DEFAULT_WINDOW: u32 = 4_096;

/// The number of entries for which the journal has room, and of datagrams that a line reads, where
/// the words don't say.
pub const DEFAULT_COUNT: u32 = 1_000_000;

/// How many changes a subscriber may be behind, where the words don't say.
pub const DEFAULT_KEPT: u32 = 65_536;

/// How many live orders a venue may have, where the words don't say.
pub const DEFAULT_ORDERS: u32 = 1_048_576;

/// The most bytes that a socket's buffer is asked for.
pub const MAX_BUFFER: u32 = 1_073_741_823;

/// The text of these parts, in which the name of a limit or a default stands for its number. Tests
/// compare each number with the constant of that name.
macro_rules! text {
    ([$($part:tt)*]) => { concat!($($part),*) };
    ([$($part:tt)*] MAX_VENUES $($rest:tt)*) => { text!([$($part)* 16] $($rest)*) };
    ([$($part:tt)*] MAX_SESSIONS $($rest:tt)*) => { text!([$($part)* 64] $($rest)*) };
    ([$($part:tt)*] MAX_SYMBOLS $($rest:tt)*) => { text!([$($part)* 4096] $($rest)*) };
    ([$($part:tt)*] MAX_WINDOW $($rest:tt)*) => { text!([$($part)* 65535] $($rest)*) };
    ([$($part:tt)*] MAX_BUFFER $($rest:tt)*) => { text!([$($part)* 1073741823] $($rest)*) };
    ([$($part:tt)*] MAX_COUNT $($rest:tt)*) => { text!([$($part)* 4294967295] $($rest)*) };
    ([$($part:tt)*] DEFAULT_WINDOW $($rest:tt)*) => { text!([$($part)* 4096] $($rest)*) };
    ([$($part:tt)*] DEFAULT_COUNT $($rest:tt)*) => { text!([$($part)* 1000000] $($rest)*) };
    ([$($part:tt)*] DEFAULT_KEPT $($rest:tt)*) => { text!([$($part)* 65536] $($rest)*) };
    ([$($part:tt)*] DEFAULT_ORDERS $($rest:tt)*) => { text!([$($part)* 1048576] $($rest)*) };
    ([$($part:tt)*] USUAL_WAIT $($rest:tt)*) => { text!([$($part)* 10] $($rest)*) };
    ([$($part:tt)*] USUAL_LEAD $($rest:tt)*) => { text!([$($part)* 1000000] $($rest)*) };
    ([$($part:tt)*] USUAL_SILENCE $($rest:tt)*) => { text!([$($part)* 3000] $($rest)*) };
    ([$($part:tt)*] $next:tt $($rest:tt)*) => { text!([$($part)* $next] $($rest)*) };
    ($($part:tt)*) => { text!([] $($part)*) };
}

pub(crate) use text;
