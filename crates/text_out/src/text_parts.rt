//! Texts that grow by parts: labels, and numbers after them.
//!
//! A text in a `Vec` takes any parts in a row, and stays as it was where memory is refused. Rows of
//! a replay are put faster, by `parts.rt`, into room that is made for a whole row.
ghost use Rattle.std.specs.Prelude.{◌≡◌, ◌+◌, ◌<◌, ◌≤◌, ◌++◌, OnOk, OnErr, decimal, length, take, vec_capacity, vec_len};
ghost use Rattle.text_out.specs.TextParts.{all_labelled_in, filled_text, labelled_in, nine_places, spaces, text_of_part, text_of_parts};

use itoa::Buffer;
use std::alloc::AllocError;

/// What a text is filled with.
const SPACES: &[u8] = b"                                ";

/// The nanoseconds of a second.
const SECOND: u64 = 1_000_000_000;

/// A part of a text.
#[derive(Clone, Copy, Debug)]
pub enum TextPart<'a> {
    Text(&'a str),
    Bytes(&'a [u8]),
    /// A number in decimal.
    Number(u64),
    /// The nine places after the point of a time in nanoseconds, as seconds.
    Places(u64),
    /// This many spaces, 32 at most.
    Spaces(usize),
}

/// A label, and the number after it, if it is known.
pub type LabelledNumber<'a> = (&'a str, Option<u64>);

/// How numbers stand after labels.
#[derive(Clone, Copy, Debug)]
pub struct NumberStyle {
    /// The columns at whose end a number stands: it is filled with 32 spaces at most.
    pub columns: usize,
    /// What stands in place of a number that isn't known.
    pub nothing: &'static str,
}

/// Appends a number in decimal.
pub fn put_digits(text: &mut Vec<u8>, number: u64) -> Result<(), AllocError>
    ensures ok { OnOk result (text.new.items ≡ text.old.items ++ decimal number) }
    ensures err { OnErr result (text.new.items ≡ text.old.items) }
    ensures full { OnErr result (vec_capacity text.old
        < vec_len text.old + length (decimal number)) }
    ensures capacity { vec_capacity text.old ≤ vec_capacity text.new }
{
    let mut digits = Buffer::new();
    text.extend_from_slice(digits.format(number).as_bytes())
}

/// Appends the places of a time.
fn put_places(text: &mut Vec<u8>, time: u64) -> Result<(), AllocError>
    ensures ok { OnOk result (text.new.items ≡ text.old.items ++ nine_places time) }
    ensures err { OnErr result (text.new.items ≡ text.old.items) }
    ensures full { OnErr result (vec_capacity text.old
        < vec_len text.old + length (nine_places time)) }
    ensures capacity { vec_capacity text.old ≤ vec_capacity text.new }
{
    let mut digits = Buffer::new();
    match digits.format(SECOND + time % SECOND).as_bytes() {
        [_, places @ ..] => text.extend_from_slice(places),
        _ => Ok(()),
    }
}

/// Returns this many spaces, 32 at most.
pub fn spaces(count: usize) -> &'static [u8]
    ensures { result.now ≡ spaces count }
{
    &SPACES[..count.min(SPACES.len())]
}

/// Appends a part.
fn put_part(text: &mut Vec<u8>, part: &TextPart<'_>) -> Result<(), AllocError>
    ensures ok { OnOk result (text.new.items ≡ text.old.items ++ text_of_part part.now) }
    ensures err { OnErr result (text.new.items ≡ text.old.items) }
    ensures full { OnErr result (vec_capacity text.old
        < vec_len text.old + length (text_of_part part.now)) }
    ensures capacity { vec_capacity text.old ≤ vec_capacity text.new }
{
    match part {
        TextPart::Text(part) => text.extend_from_slice(part.as_bytes()),
        TextPart::Bytes(part) => text.extend_from_slice(part),
        TextPart::Number(number) => put_digits(text, *number),
        TextPart::Places(time) => put_places(text, *time),
        TextPart::Spaces(count) => text.extend_from_slice(spaces(*count)),
    }
}

/// Appends parts, one after the other, up to one for which memory is refused.
fn put_each(text: &mut Vec<u8>, parts: &[TextPart<'_>]) -> Result<(), AllocError>
    ensures ok { OnOk result (text.new.items ≡ text.old.items ++ text_of_parts parts.now) }
    ensures front { OnErr result (take (vec_len text.old) text.new.items ≡ text.old.items) }
    ensures full { OnErr result (vec_capacity text.old
        < vec_len text.old + length (text_of_parts parts.now)) }
    ensures capacity { vec_capacity text.old ≤ vec_capacity text.new }
{
    for part in parts {
        put_part(text, part)?;
    }
    Ok(())
}

/// Cuts a text off at its old end, if memory was refused.
fn cut_refused(
    text: &mut Vec<u8>,
    end: usize,
    done: Result<(), AllocError>,
) -> Result<(), AllocError>
    ensures same { result ≡ done }
    ensures ok { OnOk done (text.new.items ≡ text.old.items) }
    ensures err { OnErr done (text.new.items ≡ take end text.old.items) }
    ensures capacity { vec_capacity text.new ≡ vec_capacity text.old }
{
    if done.is_err() {
        text.truncate(end);
    }
    done
}

/// Appends parts, one after the other. Where memory is refused the text stays as it was.
pub fn put_parts(text: &mut Vec<u8>, parts: &[TextPart<'_>]) -> Result<(), AllocError>
    ensures ok { OnOk result (text.new.items ≡ text.old.items ++ text_of_parts parts.now) }
    ensures err { OnErr result (text.new.items ≡ text.old.items) }
    ensures full { OnErr result (vec_capacity text.old
        < vec_len text.old + length (text_of_parts parts.now)) }
    ensures capacity { vec_capacity text.old ≤ vec_capacity text.new }
{
    let end = text.len();
    let done = put_each(text, parts);
    cut_refused(text, end, done)
}

/// Appends a label, and a text at the end of this many columns.
pub fn put_filled<'a>(
    text: &mut Vec<u8>,
    columns: usize,
    label: &'a str,
    value: &'a [u8],
) -> Result<(), AllocError>
    ensures ok { OnOk result (text.new.items
        ≡ text.old.items ++ filled_text columns label.now value.now) }
    ensures err { OnErr result (text.new.items ≡ text.old.items) }
    ensures full { OnErr result (vec_capacity text.old
        < vec_len text.old + length (filled_text columns label.now value.now)) }
    ensures capacity { vec_capacity text.old ≤ vec_capacity text.new }
{
    let filling = columns.saturating_sub(value.len());
    put_parts(
        text,
        &[
            TextPart::Text(label),
            TextPart::Spaces(filling),
            TextPart::Bytes(value),
        ],
    )
}

/// Appends a label and a number.
fn put_labelled_one(
    text: &mut Vec<u8>,
    style: NumberStyle,
    labelled: &LabelledNumber<'_>,
) -> Result<(), AllocError>
    ensures ok { OnOk result (text.new.items ≡ text.old.items ++ labelled_in style labelled.now) }
    ensures err { OnErr result (text.new.items ≡ text.old.items) }
    ensures full { OnErr result (vec_capacity text.old
        < vec_len text.old + length (labelled_in style labelled.now)) }
    ensures capacity { vec_capacity text.old ≤ vec_capacity text.new }
{
    let (label, number) = *labelled;
    match number {
        Some(number) => {
            let mut digits = Buffer::new();
            put_filled(text, style.columns, label, digits.format(number).as_bytes())
        }
        None => put_filled(text, style.columns, label, style.nothing.as_bytes()),
    }
}

/// Appends labels and numbers, up to one for which memory is refused.
fn put_each_labelled(
    text: &mut Vec<u8>,
    style: NumberStyle,
    numbers: &[LabelledNumber<'_>],
) -> Result<(), AllocError>
    ensures ok { OnOk result (text.new.items
        ≡ text.old.items ++ all_labelled_in style numbers.now) }
    ensures front { OnErr result (take (vec_len text.old) text.new.items ≡ text.old.items) }
    ensures full { OnErr result (vec_capacity text.old
        < vec_len text.old + length (all_labelled_in style numbers.now)) }
    ensures capacity { vec_capacity text.old ≤ vec_capacity text.new }
{
    for labelled in numbers {
        put_labelled_one(text, style, labelled)?;
    }
    Ok(())
}

/// Appends labels, each with its number. Where memory is refused the text stays as it was.
pub fn put_labelled(
    text: &mut Vec<u8>,
    style: NumberStyle,
    numbers: &[LabelledNumber<'_>],
) -> Result<(), AllocError>
    ensures ok { OnOk result (text.new.items
        ≡ text.old.items ++ all_labelled_in style numbers.now) }
    ensures err { OnErr result (text.new.items ≡ text.old.items) }
    ensures full { OnErr result (vec_capacity text.old
        < vec_len text.old + length (all_labelled_in style numbers.now)) }
    ensures capacity { vec_capacity text.old ≤ vec_capacity text.new }
{
    let end = text.len();
    let done = put_each_labelled(text, style, numbers);
    cut_refused(text, end, done)
}
