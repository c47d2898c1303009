//! What is said of symbols of which no item came, after a run of the program.
ghost use Rattle.text_out.specs.Members.{writing_of};
ghost use Rattle.text_out.specs.StandardError.{SaysEach};
ghost use Rattle.nbbo_runs.specs.AbsentSymbols.{told_absent};
ghost use Rattle.run_notes.specs.AbsentSymbols.{symbols_with};

use feed_types::SymbolName;
use run_notes::{AbsentSymbols, write_absent};
use text_out::TextOut;

/// Writes which of the symbols are absent after a run with this outcome, if that is told.
pub(crate) fn tell_absent<F, E: TextOut>(
    outcome: &Result<(), F>,
    is_told: bool,
    symbols: &[SymbolName],
    absent: &AbsentSymbols,
    errors: &mut E,
)
    ensures { SaysEach (writing_of E.TextOut)
        (told_absent outcome.now is_told (symbols_with absent.now symbols.now))
        errors.old errors.new }
{
    match outcome {
        Ok(()) if is_told => write_absent(symbols, absent, errors),
        _ => {}
    }
}
