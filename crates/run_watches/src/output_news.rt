//! What is said of standard output and standard error while a run goes on.
ghost use Rattle.std.specs.Prelude.{◌≡◌, ◌∷◌, [], decimal};
ghost use Rattle.text_out.specs.Members.{writing_of};
ghost use Rattle.text_out.specs.StandardError.{Says, SaysEach};
ghost use Rattle.run_watches.specs.OutputNews.{output_change_texts, output_news_texts, row_start_text, output_time_texts, untaken_end_text, waiting_end_text};

use crate::errors_progress::UntakenTexts;
use text_out::{TextOut, write_number, write_stderr};

/// What has happened to what is printed.
#[derive(Clone, Copy, Debug, PartialEq, Eq)]
pub enum OutputChange {
    /// Standard output isn't read, and this number of changes of the national best waits.
    Unread(u64),
    /// It is read again.
    Read,
    /// Standard error wasn't read, and these texts are missing.
    Untaken(UntakenTexts),
}

/// What has happened to what is printed, and when.
#[derive(Clone, Copy, Debug, PartialEq, Eq)]
pub struct OutputNews {
    /// How many seconds of the run had passed.
    pub second: u64,
    /// What has happened.
    pub change: OutputChange,
}

/// What stands before a row on standard error: the end of the row before, where that breaks off.
fn row_start(change: OutputChange) -> &'static str
    ensures { result.now ≡ row_start_text change }
{
    match change {
        OutputChange::Untaken(untaken) if untaken.is_cut => "\nnbbo: second ",
        _ => "nbbo: second ",
    }
}

/// Writes in which second something has happened.
fn write_second<E: TextOut>(news: &OutputNews, errors: &mut E)
    ensures { SaysEach (writing_of E.TextOut) (output_time_texts news.now) errors.old errors.new }
{
    write_stderr(row_start(news.change), errors);
    write_number(news.second, errors);
}

/// What stands after how many changes wait.
fn waiting_end(count: u64) -> &'static str
    ensures { result.now ≡ waiting_end_text count }
{
    if count == 1 {
        " change waits\n"
    } else {
        " changes wait\n"
    }
}

/// What stands after how many texts are missing.
fn untaken_end(count: u64) -> &'static str
    ensures { result.now ≡ untaken_end_text count }
{
    if count == 1 {
        " text is missing\n"
    } else {
        " texts are missing\n"
    }
}

/// Writes a text, a number, and another text.
fn write_count<E: TextOut>(start: &str, count: u64, end: &str, errors: &mut E)
    ensures { SaysEach (writing_of E.TextOut)
        (start.now ∷ decimal count ∷ end.now ∷ []) errors.old errors.new }
{
    write_stderr(start, errors);
    write_number(count, errors);
    write_stderr(end, errors);
}

/// Writes what has happened.
fn write_change<E: TextOut>(change: OutputChange, errors: &mut E)
    ensures { SaysEach (writing_of E.TextOut) (output_change_texts change) errors.old errors.new }
{
    match change {
        OutputChange::Unread(waiting) => write_count(
            " output isn't read, ",
            waiting,
            waiting_end(waiting),
            errors,
        ),
        OutputChange::Read => write_stderr(" output is read again\n", errors),
        OutputChange::Untaken(untaken) => write_count(
            " standard error wasn't read, ",
            untaken.count,
            untaken_end(untaken.count),
            errors,
        ),
    }
}

/// Writes what has happened to what is printed.
pub fn write_output_news<E: TextOut>(news: &OutputNews, errors: &mut E)
    ensures { SaysEach (writing_of E.TextOut) (output_news_texts news.now) errors.old errors.new }
{
    write_second(news, errors);
    write_change(news.change, errors);
}
