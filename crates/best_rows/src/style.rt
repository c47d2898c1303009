//! How rows are written, and what stands before the first one.
ghost use Rattle.std.specs.Prelude.{◌≡◌, ◌≤◌};
ghost use Rattle.text_out.specs.Pages.{Appends};
ghost use Rattle.best_rows.specs.RowTexts.{has_times, header_of, time_name};

use run_settings::BestFormat;
use text_out::{LineBuffer, put_bytes};

/// How the rows of national bests are written.
#[derive(Clone, Copy, Debug, PartialEq, Eq)]
pub struct RowStyle {
    pub format: BestFormat,
    /// Whether each row has the time of its record, where the format has times.
    pub timed: bool,
}

/// Returns whether rows of the format can have times.
pub fn has_times(format: BestFormat) -> bool
    ensures { result ≡ has_times format }
{
    match format {
        BestFormat::Text => false,
        BestFormat::Csv(_) | BestFormat::Json(_) => true,
    }
}

/// Appends the name of the times' column, where rows are `timed`.
fn put_time_name(text: &mut LineBuffer, timed: bool)
    requires { 5 ≤ text.old.room }
    ensures { Appends text.old (time_name timed) 5 text.new }
{
    if timed {
        put_bytes(text, *b",time");
    }
}

/// Appends what stands before the first row: the names of the columns, or nothing.
pub fn put_header(text: &mut LineBuffer, style: RowStyle)
    requires { 98 ≤ text.old.room }
    ensures { Appends text.old (header_of style.format style.timed) 98 text.new }
{
    match style.format {
        BestFormat::Text | BestFormat::Json(_) => {}
        BestFormat::Csv(_) => {
            put_bytes(text, *b"notice,position,symbol,");
            put_bytes(text, *b"bid_venue,bid_price,bid_size,");
            put_bytes(text, *b"offer_venue,offer_price,offer_size,state");
            put_time_name(text, style.timed);
            put_bytes(text, *b"\n");
        }
    }
}
