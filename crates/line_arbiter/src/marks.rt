//! A bitmap of numbers: 65,536 bits in 1,024 words, where number `m` has bit `m % 65,536`. Numbers
//! less than 65,536 apart have bits of their own. 64 numbers are looked through at once.

ghost use Rattle.std.specs.Prelude.{◌≡◌, ◌≢◌, ℕ, ◌%◌, ◌/◌, ◌<◌, ◌≤◌, IfOk, true, false, not, length, replicate};
ghost use Rattle.line_arbiter.specs.Marks.{is_set, is_marked};

use std::alloc::{AllocError, Global};

/// The number of bits in a word.
const WORD_BITS: u64 = 64;

/// The number of words in a bitmap.
const WORDS: usize = 1_024;

/// Returns a bitmap without a mark.
pub(crate) fn no_marks(alloc: Global) -> Result<Vec<u64>, AllocError>
    ensures { IfOk result (λ marks. marks.items ≡ replicate 1024 0) }
{
    vec![in alloc; 0; WORDS]
}

/// Returns the place of the word that has the number's bit.
#[inline]
fn word_of(number: u64) -> usize
    ensures value { result ≡ number / 64 % 1024 }
    ensures within { result < 1024 }
{
    (number / WORD_BITS) as usize % WORDS
}

/// Marks the number.
#[inline]
pub(crate) fn mark(marks: &mut Vec<u64>, number: u64)
    requires { length marks.old.items ≡ 1024 }
    ensures words { length marks.new.items ≡ 1024 }
    ensures here { is_marked marks.new.items number ≡ true }
    ensures others { (other : ℕ) → other % 65536 ≢ number % 65536
        → is_marked marks.new.items other ≡ is_marked marks.old.items other }
{
    marks[word_of(number)] |= 1 << (number % WORD_BITS);
}

/// Takes the number's mark away.
#[inline]
pub(crate) fn unmark(marks: &mut Vec<u64>, number: u64)
    requires { length marks.old.items ≡ 1024 }
    ensures words { length marks.new.items ≡ 1024 }
    ensures here { is_marked marks.new.items number ≡ false }
    ensures others { (other : ℕ) → other % 65536 ≢ number % 65536
        → is_marked marks.new.items other ≡ is_marked marks.old.items other }
{
    marks[word_of(number)] &= !(1 << (number % WORD_BITS));
}

/// Returns whether the number is marked.
#[inline]
pub(crate) fn has_mark(marks: &[u64], number: u64) -> bool
    requires { length marks.now ≡ 1024 }
    ensures { result ≡ is_marked marks.now number }
{
    marks[word_of(number)] >> (number % WORD_BITS) & 1 == 1
}

/// Returns the first bit from `from` on that is set, or isn't, as asked; 64 where there is none.
#[inline]
fn first_in_word(word: u64, set: bool, from: u32) -> u32
    requires { from < 64 }
    ensures from { from ≤ result }
    ensures to { result ≤ 64 }
    ensures others { (i : ℕ) → from ≤ i → i < result → is_set word i ≡ not set }
    ensures found { result < 64 → is_set word result ≡ set }
{
    let asked = if set { word } else { !word };
    let left = asked >> from;
    if left == 0 {
        return 64;
    }
    from + left.trailing_zeros()
}

/// Returns the first number from `from` on, below `end`, that is marked, or isn't, as asked; `end`
/// where there is none. It reads a word for each 64 numbers.
pub(crate) fn first_number(marks: &[u64], marked: bool, from: u64, end: u64) -> u64
    requires words { length marks.now ≡ 1024 }
    requires order { from ≤ end }
    ensures from { from ≤ result }
    ensures to { result ≤ end }
    ensures others { (m : ℕ) → from ≤ m → m < result → is_marked marks.now m ≡ not marked }
    ensures found { result < end → is_marked marks.now result ≡ marked }
{
    let mut at = from;
    while at < end {
        let bit = at % WORD_BITS;
        let found = first_in_word(marks[word_of(at)], marked, bit as u32);
        if found < 64 {
            return end.min(at - bit + u64::from(found));
        }
        let last = at - bit + (WORD_BITS - 1);
        if last >= end - 1 {
            return end;
        }
        at = last + 1;
    }
    end
}
