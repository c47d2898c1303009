//! Devices over memory.
ghost use Rattle.std.specs.Prelude.{◌≡◌, ◌+◌, ◌++◌, max};
ghost use Rattle.text_out.specs.Devices.{GivesPieces, GivesEnd, Written};
ghost use Rattle.text_out.specs.DeviceLaws.{gives_none, gives_more, back_none, back_more};

use crate::count::Count;
use crate::devices::{CaptureIn, ReadStop, TextOut, WriteStop};
use std::marker::Model;
use std::sync::ledger::Ledger;

/// Bytes in memory, as a reader that reads at most a piece by each call. It neither fails nor is
/// interrupted.
#[derive(Drop)]
pub struct MemoryIn<'a> {
    left: &'a [u8],
    piece: usize,
}

impl<'a> Model for MemoryIn<'a> {
    ghost use Rattle.std.specs.Prelude.{◌<◌};
    ghost use Rattle.text_out.specs.Devices.{HeldBytes};

    ghost Value = { HeldBytes };

    ghost view = { λ s. record { bytes = s.left.now; piece = s.piece } };

    ghost invariant = { λ s. 0 < s.piece };
}

impl<'a> MemoryIn<'a> {
    /// Reads `bytes`, at most `piece` of them by a call; with a piece of 0 one byte, as with 1.
    pub fn new(bytes: &'a [u8], piece: usize) -> MemoryIn<'a>
        ensures bytes { result.bytes ≡ bytes.now }
        ensures piece { result.piece ≡ max piece 1 }
    {
        MemoryIn {
            left: bytes,
            piece: piece.max(1),
        }
    }
}

impl CaptureIn for MemoryIn<'_> {
    ghost gives = { GivesPieces };

    ghost ends = { GivesEnd };

    ghost failures = { λ _. 0 };

    ghost gives_none = { gives_none };

    ghost gives_more = { gives_more };

    fn read(&mut self, buf: &mut [u8]) -> Result<usize, ReadStop> {
        let count = self.left.len().min(buf.len()).min(self.piece);
        let (front, rest) = self.left.split_at(count);
        buf[..count].copy_from_slice(front);
        self.left = rest;
        Ok(count)
    }
}

/// Text in memory. A call fails where memory for it is refused, and else takes the whole piece.
#[derive(Drop)]
pub struct MemoryOut<L: Ledger> {
    text: Vec<u8>,
    failures: Count<L>,
}

impl<L: Ledger> Model for MemoryOut<L> {
    ghost use Rattle.text_out.specs.Devices.{Written};

    ghost Value = { Written };

    ghost view = { λ s. record { text = s.text.items; failures = s.failures } };
}

impl<L: Ledger> MemoryOut<L> {
    /// Writes after `text`.
    pub fn new(text: Vec<u8>, failures: Count<L>) -> MemoryOut<L>
        ensures text { result.text ≡ text.items }
        ensures failures { result.failures ≡ failures }
    {
        MemoryOut { text, failures }
    }

    /// Returns the text, without the count of failures.
    pub fn into_text(self) -> Vec<u8>
        ensures { result.items ≡ self.text }
    {
        let MemoryOut { text, failures: _ } = self;
        text
    }

    /// The text so far.
    pub fn text(&self) -> &[u8]
        ensures { result.now ≡ self.now.text }
    {
        self.text.as_slice()
    }
}

impl<L: Ledger> TextOut for MemoryOut<L> {
    ghost adds = { λ s xs t. t.text ≡ s.text ++ xs };

    ghost failures = { λ s. s.failures };

    ghost adds_none = { λ s. back_none s.text };

    ghost adds_more = { λ s t u xs ys a b. back_more s.text t.text u.text xs ys a b };

    fn write(&mut self, piece: &[u8]) -> Result<usize, WriteStop> {
        match self.text.extend_from_slice(piece) {
            Ok(()) => Ok(piece.len()),
            Err(_) => {
                self.failures.add_one();
                Err(WriteStop::Failed)
            }
        }
    }
}
