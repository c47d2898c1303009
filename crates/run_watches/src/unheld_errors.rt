//! Standard error that holds nobody up.
ghost use Rattle.std.specs.Prelude.{◌+◌};

use crate::errors_progress::ErrorsProgress;
use std::sync::ledger::Ledger;
use text_out::{Count, TextOut, WriteStop};

/// The most bytes that a pipe takes at once where it takes any.
const MOST: usize = 4_096;

/// A writer whose calls don't wait: a text that wouldn't be taken at once isn't written, nor are
/// those after it until it is told how many there were ([`ErrorsProgress`]). A call that isn't made
/// has failed.
#[derive(Drop)]
pub struct UnheldErrors<E, L: Ledger> {
    pub errors: E,
    refused: Count<L>,
    progress: ErrorsProgress,
    /// Whether the text that was taken last breaks off.
    is_in_row: bool,
}

impl<E: TextOut, L: Ledger> UnheldErrors<E, L> {
    /// Writes to `errors`, whose file is that of the progress.
    pub fn new(errors: E, refused: Count<L>, progress: ErrorsProgress) -> UnheldErrors<E, L> {
        UnheldErrors {
            errors,
            refused,
            progress,
            is_in_row: false,
        }
    }
}

impl<E: TextOut, L: Ledger> TextOut for UnheldErrors<E, L> {
    ghost adds = { λ s xs t. E.adds s.errors xs t.errors };

    ghost failures = { λ s. E.failures s.errors + s.refused };

    ghost adds_none = { λ s. E.adds_none s.errors };

    ghost adds_more = { λ s t u xs ys a b. E.adds_more s.errors t.errors u.errors xs ys a b };

    fn write(&mut self, piece: &[u8]) -> Result<usize, WriteStop> {
        if !self.progress.takes() {
            self.progress.refuse(piece, self.is_in_row);
            self.refused.add_one();
            return Err(WriteStop::Failed);
        }
        let most = piece.len().min(MOST);
        match self.errors.write(&piece[..most]) {
            Ok(count) => {
                self.is_in_row = piece[..count].last() != Some(&b'\n');
                Ok(count)
            }
            Err(stop) => Err(stop),
        }
    }
}
