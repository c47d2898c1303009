//! The names of a run's threads, by which tools of the system tell them apart.

ghost use Rattle.std.specs.Prelude.{◌<◌};

use feed_types::{LineId, SubscriberId, VenueId};

/// Returns the tens and the ones of a number below 100, as text.
fn digits(number: usize) -> [u8; 2]
    requires { number < 100 }
{
    [b'0' + (number / 10) as u8, b'0' + (number % 10) as u8]
}

/// Names the calling thread, as that of the venue's line: "line 0 A".
pub(crate) fn name_line(venue: VenueId, line: LineId) {
    let letter = line.letter();
    let _named = match digits(venue.index()) {
        [b'0', ones] => os::set_thread_name(&[b'l', b'i', b'n', b'e', b' ', ones, b' ', letter]),
        [tens, ones] => {
            os::set_thread_name(&[b'l', b'i', b'n', b'e', b' ', tens, ones, b' ', letter])
        }
    };
}

/// Names the calling thread, as that of a run's own subscriber: "subscriber 0".
pub(crate) fn name_subscriber(id: SubscriberId) {
    let mut name = *b"subscriber 00";
    let [tens, ones] = digits(id.index());
    if tens == b'0' {
        name[11] = ones;
        name[12] = 0;
    } else {
        name[11] = tens;
        name[12] = ones;
    }
    let _named = os::set_thread_name(&name);
}

/// Names the calling thread, as the consolidator's.
pub(crate) fn name_consolidator() {
    let _named = os::set_thread_name(b"consolidator");
}

/// Names the calling thread, as the watcher's.
pub(crate) fn name_watcher() {
    let _named = os::set_thread_name(b"watcher");
}
