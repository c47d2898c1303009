//! The waits of a thread that has nothing to do.

use crossbeam_utils::sync::Key;
use std::sync::Wait;
use std::{hint, thread};

/// The number of looks for work, one after the other, before a thread lets others run between them.
const LOOKS: u32 = 60;

/// The most pauses between two looks.
const MOST_PAUSES: u32 = 16;

/// The number of looks before a thread sleeps.
const LOOKS_AWAKE: u32 = 64;

/// Returns whether a thread that has looked for work `looks` times sleeps next.
pub(crate) fn should_sleep(looks: u32) -> bool {
    looks >= LOOKS_AWAKE
}

/// Returns whether a thread that has looked for work `looks` times lets others run next, or sleeps.
pub(crate) fn lets_others_run(looks: u32) -> bool {
    looks >= LOOKS
}

/// Waits a moment, or until the notification that the key waits for, and returns how often the
/// thread has looked since it last worked or slept.
pub(crate) fn back_off<W: Wait>(rt: &W, looks: u32, key: Option<Key<'_>>) -> u32 {
    if let Some(key) = key {
        key.wait(rt);
        return 0;
    }
    if !lets_others_run(looks) {
        for _ in 0..looks.min(MOST_PAUSES) {
            hint::spin_loop();
        }
    } else {
        thread::yield_now();
    }
    looks.saturating_add(1)
}
