//! The rows of how long national bests stood in a period.
ghost use Rattle.std.specs.Prelude.{◌≡◌, ◌<◌, ◌≤◌, ◌++◌, OnErr, OnOk, length, slice_index_or};
ghost use Rattle.std.specs.List.{AllByRecursion};
ghost use Rattle.text_out.specs.Pages.{memory_of};
ghost use Rattle.event_sinks.specs.TextPages.{FailsPage, TakesPage};
ghost use Rattle.report_rows.specs.RowTexts.{IsShortCell, all_shown, row_room, cells_shown, texts_of};
ghost use Rattle.period_rows.specs.BestRows.{best_names, best_row, best_values, spread_cell};
ghost use Rattle.period_rows.specs.BestTimes.{figures_text, over_rows, settled_text, times_text};

use crate::best_figures::BestFigures;
use crate::best_shares::BestShares;
use crate::symbol_times::SymbolTimes;
use event_sinks::{SinkStop, TextPage};
use feed_types::SymbolName;
use report_rows::{Cell, put_row};
use run_settings::{PeriodStyle, RowFormat};
use text_out::{LineBuffer, TextOut};

/// A period that is over, and how its rows are written.
#[derive(Clone, Copy, Debug, PartialEq, Eq)]
pub struct PeriodOver {
    pub style: PeriodStyle,
    pub venues: usize,
    /// When it began, in nanoseconds from 1970 on.
    pub begin: u64,
    /// Up to which time of it the bests that stand are counted.
    pub end: u64,
}

/// Returns the names of the columns. Of an object the time stands last.
pub(crate) fn best_names(format: RowFormat) -> [&'static str; 9]
    ensures names { texts_of result ≡ best_names format }
    ensures few { row_room (texts_of result) ≤ 1024 }
{
    match format {
        RowFormat::Csv(_) => [
            "time", "symbol", "venue", "bid", "offer", "normal", "locked", "crossed", "spread",
        ],
        RowFormat::Json(_) => [
            "symbol", "venue", "bid", "offer", "normal", "locked", "crossed", "spread", "time",
        ],
    }
}

/// Returns the cell of a mean spread.
fn spread_cell(spread: Option<u64>) -> Cell<'static>
    ensures value { cells_shown result ≡ spread_cell spread }
    ensures short { IsShortCell result }
{
    match spread {
        Some(spread) => Cell::Seconds(spread),
        None => Cell::Nothing,
    }
}

/// Returns the cells of a venue.
fn best_cells(
    format: RowFormat,
    begin: u64,
    symbol: SymbolName,
    venue: usize,
    shares: &BestShares,
) -> [Cell<'static>; 9]
    ensures values { all_shown result ≡ best_values format begin symbol venue shares.now }
    ensures short { AllByRecursion IsShortCell result }
{
    let time = Cell::Time(Some(begin));
    let name = Cell::Name(symbol);
    let venue = Cell::Venue(venue);
    let bid = Cell::Seconds(shares.bid);
    let offer = Cell::Seconds(shares.offer);
    let normal = Cell::Seconds(shares.normal);
    let locked = Cell::Seconds(shares.locked);
    let crossed = Cell::Seconds(shares.crossed);
    let spread = spread_cell(shares.spread);
    match format {
        RowFormat::Csv(_) => [
            time, name, venue, bid, offer, normal, locked, crossed, spread,
        ],
        RowFormat::Json(_) => [
            name, venue, bid, offer, normal, locked, crossed, spread, time,
        ],
    }
}

/// Appends the row of a venue, unless no best stood.
fn put_best(
    text: &mut LineBuffer,
    format: RowFormat,
    begin: u64,
    symbol: SymbolName,
    venue: usize,
    shares: &BestShares,
)
    requires { 1024 ≤ text.old.room }
    ensures row { text.new.items ≡ text.old.items
        ++ best_row format begin symbol venue shares.now }
    ensures size { memory_of text.old ≤ memory_of text.new }
{
    if shares.are_zero() {
        return;
    }
    let names = best_names(format);
    let cells = best_cells(format, begin, symbol, venue, shares);
    put_row(text, format, &names, &cells);
}

/// Writes the rows of a symbol's venues, by its figures.
fn write_venues<W: TextOut>(
    page: &mut TextPage<W>,
    over: &PeriodOver,
    symbol: SymbolName,
    figures: &BestFigures,
) -> Result<(), SinkStop>
    ensures took { OnOk result (TakesPage W.adds W.failures page.old
        (figures_text over.now symbol figures.now) page.new) }
    ensures failed { OnErr result (FailsPage W.adds W.failures page.old (page.old.text.items
        ++ figures_text over.now symbol figures.now) page.new) }
{
    for venue in 0..over.venues {
        page.write_full()?;
        let shares = BestShares::of(over.style.length, venue, figures);
        put_best(
            &mut page.text,
            over.style.format,
            over.begin,
            symbol,
            venue,
            &shares,
        );
    }
    Ok(())
}

/// Writes the rows of a symbol, with the best that stands.
fn write_symbol<W: TextOut>(
    page: &mut TextPage<W>,
    over: &PeriodOver,
    times: &SymbolTimes,
) -> Result<(), SinkStop>
    ensures took { OnOk result (TakesPage W.adds W.failures page.old
        (settled_text over.now times.now) page.new) }
    ensures failed { OnErr result (FailsPage W.adds W.failures page.old (page.old.text.items
        ++ settled_text over.now times.now) page.new) }
{
    let mut settled = *times;
    settled.settle(over.end);
    write_venues(page, over, times.symbol, &settled.figures)
}

/// Returns the times of the symbol at a place.
fn times_at(times: &[SymbolTimes], place: usize) -> SymbolTimes
    requires { place < length times.now }
    ensures { (none : SymbolTimes) → result ≡ slice_index_or times.now place none }
{
    times[place]
}

/// Writes the rows of all symbols.
fn write_symbols<W: TextOut>(
    page: &mut TextPage<W>,
    over: &PeriodOver,
    times: &[SymbolTimes],
) -> Result<(), SinkStop>
    ensures took { OnOk result (TakesPage W.adds W.failures page.old
        (times_text over.now times.now) page.new) }
    ensures failed { OnErr result (FailsPage W.adds W.failures page.old (page.old.text.items
        ++ times_text over.now times.now) page.new) }
{
    for place in 0..times.len() {
        let one = times_at(times, place);
        write_symbol(page, over, &one)?;
    }
    Ok(())
}

/// Writes the rows of a period that is over, if one is.
pub(crate) fn write_best_period<W: TextOut>(
    page: &mut TextPage<W>,
    over: &Option<PeriodOver>,
    times: &[SymbolTimes],
) -> Result<(), SinkStop>
    ensures took { OnOk result (TakesPage W.adds W.failures page.old
        (over_rows over.now times.now) page.new) }
    ensures failed { OnErr result (FailsPage W.adds W.failures page.old (page.old.text.items
        ++ over_rows over.now times.now) page.new) }
{
    match over {
        Some(over) => write_symbols(page, over, times),
        None => Ok(()),
    }
}
