//! Times as seconds.
ghost use Rattle.std.specs.Prelude.{◌≡◌, ◌<◌, ◌≤◌, ◌+◌, ◌/◌, ◌%◌, ◌∷◌, []};
ghost use Rattle.text_out.specs.Pages.{Appends};
ghost use Rattle.best_rows.specs.Times.{nine_digits, seconds_text};

use text_out::{LineBuffer, put_bytes, put_number};

/// The nanoseconds of a second.
const SECOND: u64 = 1_000_000_000;

/// The two digits of a number below 100.
#[inline(always)]
fn two_digits(number: u32) -> [u8; 2]
    requires { number < 100 }
    ensures { result ≡ (48 + number / 10) ∷ (48 + number % 10) ∷ [] }
{
    [b'0' + (number / 10) as u8, b'0' + (number % 10) as u8]
}

/// The last nine digits of a number.
fn nine_digits(number: u64) -> [u8; 9]
    ensures { result ≡ nine_digits number }
{
    let places = (number % SECOND) as u32;
    let first = places / 100_000_000;
    let eight = places % 100_000_000;
    let four = eight / 10_000;
    let last = eight % 10_000;
    let two = two_digits(four / 100);
    let more = two_digits(four % 100);
    let near = two_digits(last / 100);
    let end = two_digits(last % 100);
    [
        b'0' + first as u8,
        two[0],
        two[1],
        more[0],
        more[1],
        near[0],
        near[1],
        end[0],
        end[1],
    ]
}

/// Appends a time in nanoseconds as seconds with nine places.
pub fn put_seconds(text: &mut LineBuffer, time: u64)
    requires { 30 ≤ text.old.room }
    ensures { Appends text.old (seconds_text time) 30 text.new }
{
    put_number(text, time / SECOND);
    put_bytes(text, *b".");
    put_bytes(text, nine_digits(time));
}
