//! Devices over the standard streams, and over any other reader or writer of std.
ghost use Rattle.std.specs.Prelude.{◌≡◌, ◌+◌, []};
ghost use Rattle.std.specs.Io.KnownBytes.{Appends, Consumes, IsAtEnd};
ghost use Rattle.std.proofs.KnownBytes.{Appends-nil, Appends-trans, Consumes-nil, Consumes-trans};
ghost use Rattle.text_out.specs.Devices.{ReadStream, WriteStream};
ghost use Rattle.text_out.specs.DeviceLaws.{no_calls, more_calls};

use crate::count::Count;
use crate::devices::{CaptureIn, ReadStop, TextOut, WriteStop};
use std::io::{ErrorKind, Read, Write};
use std::marker::Model;
use std::sync::ledger::Ledger;

/// A reader of std, as standard input. Its calls are counted. The bytes that they read are known
/// where std says what the reader has left; of a file, a pipe or a terminal it doesn't.
#[derive(Drop)]
pub struct StreamIn<R, C: Ledger, L: Ledger> {
    reader: R,
    calls: Count<C>,
    failures: Count<L>,
}

impl<R, C: Ledger, L: Ledger> Model for StreamIn<R, C, L> {
    ghost use Rattle.text_out.specs.Devices.{ReadStream};

    ghost Value = { ReadStream R };

    ghost view = { λ s. record { inner = s.reader; calls = s.calls; failures = s.failures } };
}

impl<R: Read, C: Ledger, L: Ledger> StreamIn<R, C, L> {
    /// Reads from where `reader` is.
    pub fn new(reader: R, calls: Count<C>, failures: Count<L>) -> StreamIn<R, C, L>
        ensures reader { result.inner ≡ reader }
        ensures calls { result.calls ≡ calls }
        ensures failures { result.failures ≡ failures }
    {
        StreamIn {
            reader,
            calls,
            failures,
        }
    }
}

impl<R: Read, C: Ledger, L: Ledger> CaptureIn for StreamIn<R, C, L> {
    ghost gives = { λ s n xs t.
        (t.calls ≡ s.calls + n) × Consumes (R.remaining s.inner) (R.remaining t.inner) xs };

    ghost ends = { λ s t.
        (t.calls ≡ s.calls + 1)
        × Consumes (R.remaining s.inner) (R.remaining t.inner) []
        × IsAtEnd (R.remaining t.inner) };

    ghost failures = { λ s. s.failures };

    ghost gives_none = { λ s. (no_calls s.calls, Consumes-nil (R.remaining s.inner)) };

    ghost gives_more = { λ s t u m n xs ys a b. (
      more_calls s.calls t.calls u.calls m n a.0 b.0,
      Consumes-trans (R.remaining s.inner) (R.remaining t.inner) (R.remaining u.inner)
          xs ys a.1 b.1,
    ) };

    fn read(&mut self, buf: &mut [u8]) -> Result<usize, ReadStop> {
        self.calls.add_one();
        match self.reader.read(buf) {
            Ok(count) => Ok(count),
            Err(error) if error.kind() == ErrorKind::Interrupted => Err(ReadStop::Interrupted),
            Err(_) => {
                self.failures.add_one();
                Err(ReadStop::Failed)
            }
        }
    }
}

/// A writer of std, as standard output. The text that its calls took is known where std says what
/// the writer holds; of a file, a pipe or a terminal it doesn't.
#[derive(Drop)]
pub struct StreamOut<W, L: Ledger> {
    writer: W,
    failures: Count<L>,
}

impl<W, L: Ledger> Model for StreamOut<W, L> {
    ghost use Rattle.text_out.specs.Devices.{WriteStream};

    ghost Value = { WriteStream W };

    ghost view = { λ s. record { inner = s.writer; failures = s.failures } };
}

impl<W: Write, L: Ledger> StreamOut<W, L> {
    /// Writes after what `writer` has taken.
    pub fn new(writer: W, failures: Count<L>) -> StreamOut<W, L>
        ensures writer { result.inner ≡ writer }
        ensures failures { result.failures ≡ failures }
    {
        StreamOut { writer, failures }
    }
}

impl<W: Write, L: Ledger> TextOut for StreamOut<W, L> {
    ghost adds = { λ s xs t. Appends (W.contents s.inner) (W.contents t.inner) xs };

    ghost failures = { λ s. s.failures };

    ghost adds_none = { λ s. Appends-nil (W.contents s.inner) };

    ghost adds_more = { λ s t u xs ys a b.
        Appends-trans (W.contents s.inner) (W.contents t.inner) (W.contents u.inner) xs ys a b };

    fn write(&mut self, piece: &[u8]) -> Result<usize, WriteStop> {
        match self.writer.write(piece) {
            Ok(count) if count > 0 => Ok(count),
            _ => {
                self.failures.add_one();
                Err(WriteStop::Failed)
            }
        }
    }
}
