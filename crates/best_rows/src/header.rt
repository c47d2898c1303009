//! What stands before the first row, as one text.
ghost use Rattle.std.specs.Prelude.{◌≡◌};
ghost use Rattle.best_rows.specs.RowTexts.{header_of};

use crate::style::RowStyle;
use run_settings::BestFormat;

const NAMES: &str = "\
notice,position,symbol,bid_venue,bid_price,bid_size,offer_venue,offer_price,offer_size,state\n";

const TIMED_NAMES: &str = "\
notice,position,symbol,bid_venue,bid_price,bid_size,offer_venue,offer_price,offer_size,state,\
time\n";

/// What stands before the first row: the names of the columns, or nothing.
pub fn header_line(style: RowStyle) -> &'static str
    ensures { result.now ≡ header_of style.format style.timed }
{
    match style.format {
        BestFormat::Text | BestFormat::Json(_) => "",
        BestFormat::Csv(_) => { if style.timed { TIMED_NAMES } else { NAMES } }
    }
}
