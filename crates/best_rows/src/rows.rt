//! The row of a national best that changed, in each format.
ghost use Rattle.std.specs.Prelude.{◌≡◌, ◌≤◌, ◌++◌};
ghost use Rattle.journal_book.specs.Changes.{notice_of};
ghost use Rattle.feed_types.specs.Text.{state_text};
ghost use Rattle.text_out.specs.Pages.{Appends, memory_of};
ghost use Rattle.best_rows.specs.RowTexts.{row_of};
ghost use Rattle.best_rows.specs.Times.{row_time};

use crate::csv_rows::put_csv;
use crate::json_rows::put_json;
use crate::row_time::RowTime;
use crate::style::RowStyle;
use event_sinks::put_change;
use feed_types::NationalState;
use nbbo_book::Change;
use run_settings::BestFormat;
use text_out::{LineBuffer, put_bytes};

/// Appends the word of a state.
pub(crate) fn put_state(text: &mut LineBuffer, state: NationalState)
    requires { 9 ≤ text.old.room }
    ensures { Appends text.old (state_text state) 9 text.new }
{
    match state {
        NationalState::Empty => put_bytes(text, *b"empty"),
        NationalState::OneSided => put_bytes(text, *b"one-sided"),
        NationalState::Normal => put_bytes(text, *b"normal"),
        NationalState::Locked => put_bytes(text, *b"locked"),
        NationalState::Crossed => put_bytes(text, *b"crossed"),
    }
}

/// Appends the row of a change of the national best, under this number, of a record that came at
/// this time.
pub fn put_row(
    text: &mut LineBuffer,
    style: &RowStyle,
    time: Option<u64>,
    number: u64,
    change: &Change,
)
    requires { 1024 ≤ text.old.room }
    ensures row { text.new.items ≡ text.old.items
        ++ row_of style.now.format (row_time style.now.timed time) (notice_of number change.now) }
    ensures size { memory_of text.old ≤ memory_of text.new }
{
    let time = RowTime::of(style.timed, time);
    match &style.format {
        BestFormat::Text => put_change(text, number, change),
        BestFormat::Csv(style) => put_csv(text, style, time, number, change),
        BestFormat::Json(style) => put_json(text, style, time, number, change),
    }
}
