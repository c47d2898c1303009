//! Rows of notices, in a text that grows.
ghost use Rattle.std.specs.Prelude.{◌≡◌, ◌++◌, OnOk};
ghost use Rattle.best_rows.specs.NoticeRows.{notice_row};

use crate::rows::put_row;
use crate::style::RowStyle;
use feed_types::Notice;
use nbbo_book::Change;
use std::alloc::AllocError;
use text_out::LineBuffer;

/// The bytes of room that a row needs.
const ROW: usize = 1_024;

/// Appends the row of a notice, with this time.
pub fn put_notice(
    text: &mut LineBuffer,
    style: RowStyle,
    time: Option<u64>,
    notice: &Notice,
) -> Result<(), AllocError>
    ensures { OnOk result (text.new.items
        ≡ text.old.items ++ notice_row style time notice.now) }
{
    text.make_room(ROW)?;
    let change = Change {
        position: notice.position,
        symbol: notice.symbol,
        national: notice.national,
    };
    put_row(text, &style, time, notice.number, &change);
    Ok(())
}
