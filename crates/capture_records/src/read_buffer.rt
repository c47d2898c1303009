//! The bytes that were read and not yet used.
ghost use Rattle.std.specs.Prelude.{◌≡◌, ℕ, ◌+◌, ◌-◌, [], ◌<◌, ◌≤◌, ◌++◌, List, IfOk, Ok, Err, min, max, take, drop, length, slice_range, vec_capacity, IsTrue, ◌↔◌};
ghost use Rattle.text_out.specs.Devices.{HasGiven};

use std::alloc::{AllocError, Global};
use std::marker::Model;
use text_out::{CaptureIn, ReadStop};

/// How many bytes are read at most by one call of a reader: no more than stay in a processor's
/// cache.
const MOST_READ: usize = 131_072;

/// The result of one call of the reader.
#[derive(Clone, Copy, Debug, PartialEq, Eq)]
pub enum ReadStep {
    /// Bytes came, or the call was interrupted and none did.
    Went,
    /// The input is at its end.
    Ended,
    /// The reader failed.
    Failed,
}

/// The bytes that were read and not yet used, in order, at most `ROOM`. Contracts see their list.
#[derive(Drop)]
pub struct ReadBuffer<const ROOM: usize> {
    /// As long as was wanted so far, with memory for `ROOM`.
    bytes: Vec<u8>,
    start: usize,
    end: usize,
}

impl<const ROOM: usize> Model for ReadBuffer<ROOM> {
    ghost use Rattle.std.specs.Prelude.{◌≡◌, ℕ, ◌≤◌, List, length, slice_range, vec_capacity};

    ghost Value = { List ℕ };

    ghost view = { λ w. slice_range w.bytes.items w.start w.end };

    ghost invariant = { λ w.
        (w.start ≤ w.end) × (w.end ≤ length w.bytes.items)
        × (length w.bytes.items ≤ ROOM) × (ROOM ≤ vec_capacity w.bytes) };
}

/// Lengthens the bytes to `len`, by zeros, where they are shorter. Their memory is there, and is
/// touched once it is used.
fn lengthen(bytes: &mut Vec<u8>, len: usize)
    requires { len ≤ vec_capacity bytes.old }
    ensures long { len ≤ length bytes.new.items }
    ensures most { length bytes.new.items ≤ max len (length bytes.old.items) }
    ensures capacity { vec_capacity bytes.old ≤ vec_capacity bytes.new }
    ensures longer { length bytes.old.items ≤ length bytes.new.items }
    ensures same { take (length bytes.old.items) bytes.new.items ≡ bytes.old.items }
{
    if bytes.len() < len {
        let Ok(()) = bytes.resize(len, 0) else {
            unreachable!();
        };
    }
}

/// Moves the bytes from `start` to `end` to the front.
fn bring_to_front(bytes: &mut Vec<u8>, start: usize, end: usize)
    requires order { start ≤ end }
    requires within { end ≤ length bytes.old.items }
    ensures same { slice_range bytes.new.items 0 (end - start)
        ≡ slice_range bytes.old.items start end }
    ensures len { length bytes.new.items ≡ length bytes.old.items }
    ensures capacity { vec_capacity bytes.new ≡ vec_capacity bytes.old }
{
    if start != 0 {
        bytes.as_mut_slice().copy_within(start..end, 0);
    }
}

/// Moves the bytes from `start` to `end` to the front, and makes room for `wanted` after them.
/// Returns where they end.
fn make_room<const ROOM: usize>(
    bytes: &mut Vec<u8>,
    start: usize,
    end: usize,
    wanted: usize,
) -> usize
    requires order { start ≤ end }
    requires within { end ≤ length bytes.old.items }
    requires len { length bytes.old.items ≤ ROOM }
    requires capacity { ROOM ≤ vec_capacity bytes.old }
    requires fits { end - start + wanted ≤ ROOM }
    ensures end { result ≡ end - start }
    ensures room { result + wanted ≤ length bytes.new.items }
    ensures same { slice_range bytes.new.items 0 result ≡ slice_range bytes.old.items start end }
    ensures len { length bytes.new.items ≤ ROOM }
    ensures capacity { ROOM ≤ vec_capacity bytes.new }
{
    bring_to_front(bytes, start, end);
    let end = end - start;
    lengthen(bytes, end + wanted);
    end
}

/// Puts more bytes from `end` on.
fn place(bytes: &mut Vec<u8>, end: usize, more: &[u8])
    requires { end + length more.now ≤ length bytes.old.items }
    ensures front { take end bytes.new.items ≡ take end bytes.old.items }
    ensures len { length bytes.new.items ≡ length bytes.old.items }
    ensures capacity { vec_capacity bytes.new ≡ vec_capacity bytes.old }
    ensures more { slice_range bytes.new.items end (end + length more.now) ≡ more.now }
{
    bytes.as_mut_slice()[end..end + more.len()].copy_from_slice(more);
}

/// One call of the reader, into the bytes from `end` on.
fn read_behind<R: CaptureIn>(
    reader: &mut R,
    bytes: &mut Vec<u8>,
    end: usize,
) -> Result<usize, ReadStop>
    requires room { end < length bytes.old.items }
    ensures front { take end bytes.new.items ≡ take end bytes.old.items }
    ensures len { length bytes.new.items ≡ length bytes.old.items }
    ensures capacity { vec_capacity bytes.new ≡ vec_capacity bytes.old }
    ensures count { IfOk result (λ n. end + n ≤ length bytes.new.items) }
    ensures some { IfOk result (λ n.
        0 < n → R.gives reader.old 1 (slice_range bytes.new.items end (end + n)) reader.new) }
    ensures end { result ≡ Ok 0 → R.ends reader.old reader.new }
    ensures interrupted { result ≡ Err ReadStop.Interrupted → R.gives reader.old 1 [] reader.new }
    ensures failed { result ≡ Err ReadStop.Failed
        → R.failures reader.new ≡ R.failures reader.old + 1 }
    ensures fails { result ≡ Err ReadStop.Failed → R.fails reader.old reader.new }
    ensures kept { (result ≡ Err ReadStop.Failed → ⊥)
        → R.failures reader.new ≡ R.failures reader.old }
{
    let room = (bytes.len() - end).min(MOST_READ);
    reader.read(&mut bytes.as_mut_slice()[end..end + room])
}

impl<const ROOM: usize> ReadBuffer<ROOM> {
    /// No byte yet. Its memory is asked for here and never again.
    pub fn new(alloc: Global) -> Result<ReadBuffer<ROOM>, AllocError>
        ensures { IfOk result (λ w. w ≡ []) }
    {
        let bytes = Vec::with_capacity(alloc, ROOM)?;
        Ok(ReadBuffer {
            bytes,
            start: 0,
            end: 0,
        })
    }

    /// The bytes.
    pub fn bytes(&self) -> &[u8]
        ensures { result.now ≡ self.now }
    {
        &self.bytes[self.start..self.end]
    }

    /// The number of bytes.
    pub fn len(&self) -> usize
        ensures value { result ≡ length self.now }
        ensures bound { result ≤ ROOM }
    {
        self.end - self.start
    }

    /// Whether all are used.
    pub fn is_empty(&self) -> bool
        ensures { IsTrue result ↔ (self.now ≡ []) }
    {
        self.start == self.end
    }

    /// Drops the first `count` bytes.
    pub fn advance(&mut self, count: usize)
        requires { count ≤ length self.old }
        ensures { self.new ≡ drop count self.old }
    {
        self.start += count;
    }

    /// Adds bytes at the end.
    pub fn push(&mut self, bytes: &[u8])
        requires { length self.old + length bytes.now ≤ ROOM }
        ensures { self.new ≡ self.old ++ bytes.now }
    {
        let end = make_room::<ROOM>(&mut self.bytes, self.start, self.end, bytes.len());
        self.start = 0;
        place(&mut self.bytes, end, bytes);
        self.end = end + bytes.len();
    }

    /// One call of the reader, which adds what it gives at the end.
    pub fn read_from<R: CaptureIn>(&mut self, reader: &mut R) -> ReadStep
        requires room { length self.old < ROOM }
        ensures went { result ≡ ReadStep.Went → HasGiven R.gives reader.old
            reader.new self.old self.new 1 }
        ensures ended { result ≡ ReadStep.Ended → R.ends reader.old reader.new
            × (self.new ≡ self.old) }
        ensures failed { result ≡ ReadStep.Failed
            → (R.failures reader.new ≡ R.failures reader.old + 1) × (self.new ≡ self.old) }
        ensures fails { result ≡ ReadStep.Failed → R.fails reader.old reader.new }
        ensures kept { (result ≡ ReadStep.Failed → ⊥)
            → R.failures reader.new ≡ R.failures reader.old }
        ensures bound { length self.new ≤ ROOM }
    {
        let wanted = MOST_READ.min(ROOM - self.len());
        let end = make_room::<ROOM>(&mut self.bytes, self.start, self.end, wanted);
        self.start = 0;
        self.end = end;
        match read_behind(reader, &mut self.bytes, end) {
            Ok(0) => ReadStep::Ended,
            Ok(count) => {
                self.end = end + count;
                ReadStep::Went
            }
            Err(ReadStop::Interrupted) => ReadStep::Went,
            Err(ReadStop::Failed) => ReadStep::Failed,
        }
    }
}
