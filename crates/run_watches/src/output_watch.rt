//! What is printed of a run, as the thread beside it sees it: whether standard output and standard
//! error are read.
ghost use Rattle.std.specs.Prelude.{◌≡◌, Bool, IfSome};
ghost use Rattle.text_out.specs.Members.{writing_of};
ghost use Rattle.run_watches.specs.RunNews.{IsNewsOfOutput, IsToldOfOutput, SaysNews};

use crate::errors_progress::ErrorsProgress;
use crate::output_news::{OutputChange, OutputNews, write_output_news};
use crate::row_progress::RowProgress;
use run_settings::VenueNames;
use text_out::TextOut;

/// How long a write goes on before it is told, in milliseconds.
const TOLD_MS: u64 = 1_000;

/// A write that goes on.
#[derive(Clone, Copy, Debug, PartialEq, Eq)]
struct GoingWrite {
    /// It is counted from 1.
    number: u64,
    /// When it was seen first, in milliseconds of the run.
    since_ms: u64,
}

/// What is printed of a run, and what was said of it.
#[derive(Drop)]
pub struct OutputWatch {
    /// Whether rows are printed as they come.
    follows: bool,
    rows: RowProgress,
    errors: ErrorsProgress,
    going: Option<GoingWrite>,
    is_told: bool,
}

impl OutputWatch {
    /// The rows of a run, printed as they come where it `follows`, and its standard error.
    pub fn new(follows: bool, rows: RowProgress, errors: ErrorsProgress) -> OutputWatch
        ensures { result.follows ≡ follows }
    {
        OutputWatch {
            follows,
            rows,
            errors,
            going: None,
            is_told: false,
        }
    }

    /// How far the rows are.
    pub(crate) fn rows(&self) -> &RowProgress {
        &self.rows
    }

    /// How many texts standard error hasn't taken.
    pub(crate) fn untaken(&self) -> u64 {
        self.errors.untaken()
    }

    /// How many changes of the national best were taken and wait to be printed.
    pub(crate) fn waiting(&self) -> u64 {
        if self.follows {
            self.rows.taken().saturating_sub(self.rows.printed())
        } else {
            0
        }
    }

    /// For how many milliseconds the write that goes on has been seen, if one does.
    fn going_ms(&mut self, now_ms: u64) -> u64
        ensures { self.new.follows ≡ self.old.follows }
    {
        let Some(number) = self.rows.write_going_on() else {
            self.going = None;
            return 0;
        };
        match self.going {
            Some(going) if going.number == number => now_ms.saturating_sub(going.since_ms),
            _ => {
                self.going = Some(GoingWrite {
                    number,
                    since_ms: now_ms,
                });
                0
            }
        }
    }

    /// What is new of standard output.
    fn new_output(&mut self, now_ms: u64) -> Option<OutputChange>
        ensures follows { self.new.follows ≡ self.old.follows }
        ensures told { IfSome result (IsToldOfOutput self.old.follows) }
    {
        if !self.follows {
            return None;
        }
        let is_unread = self.going_ms(now_ms) >= TOLD_MS;
        if is_unread == self.is_told {
            return None;
        }
        self.is_told = is_unread;
        if is_unread {
            Some(OutputChange::Unread(self.waiting()))
        } else {
            Some(OutputChange::Read)
        }
    }

    /// What is new of standard error.
    fn new_errors(&self) -> Option<OutputChange>
        ensures { (follows : Bool) → IfSome result (IsToldOfOutput follows) }
    {
        match self.errors.resume() {
            Some(untaken) => Some(OutputChange::Untaken(untaken)),
            None => None,
        }
    }

    /// Writes what has happened, if anything has.
    fn write_change<E: TextOut>(&self, second: u64, change: Option<OutputChange>, errors: &mut E)
        requires { IfSome change (IsToldOfOutput self.now.follows) }
        ensures { (names : VenueNames) → SaysNews (writing_of E.TextOut) names
            (IsNewsOfOutput self.now.follows) errors.old errors.new }
    {
        if let Some(change) = change {
            write_output_news(&OutputNews { second, change }, errors);
        }
    }

    /// Writes what is new of standard error, and then of standard output.
    pub(crate) fn write_news<E: TextOut>(&mut self, now_ms: u64, errors: &mut E)
        ensures follows { self.new.follows ≡ self.old.follows }
        ensures news { (names : VenueNames) → SaysNews (writing_of E.TextOut) names
            (IsNewsOfOutput self.old.follows) errors.old errors.new }
    {
        let second = now_ms / 1_000;
        let of_errors = self.new_errors();
        let of_output = self.new_output(now_ms);
        self.write_change(second, of_errors, errors);
        self.write_change(second, of_output, errors);
    }
}
