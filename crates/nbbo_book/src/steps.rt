//! One more entry, applied to what is kept of the symbols.

ghost use Rattle.std.specs.Prelude.{◌≡◌, ◌++◌, ◌+◌, ◌<◌, ◌≤◌, length, Some};
ghost use Rattle.std.specs.List.{AllByRecursion};
ghost use Rattle.std.specs.Vec.{vec_len, vec_capacity};
ghost use Rattle.std.specs.Option.{option_to_list};
ghost use Rattle.feed_types.specs.declared.item.Quote.{Quote};
ghost use Rattle.nbbo_book.specs.Rows.{IsRowRanked, row_ended, row_helped, row_stepped, told_where, AppliesStep};
ghost use Rattle.nbbo_book.specs.Tables.{IsTable, symbols_in_rows};

use crate::change::Change;
use crate::row::Row;
use crate::table::{SymbolTable, find};
use crate::venues::VenueStates;
use feed_types::{Best, Entry, Item, National, Numbered, Quote, VenueId};

/// One more entry, with its position.
#[derive(Clone, Copy)]
pub struct Step<'a> {
    pub entry: &'a Entry,
    /// The venues, with the flags of self-help after the entry.
    pub venues: &'a VenueStates,
    /// Its place in the order of all.
    pub age: u64,
    pub position: u64,
}

/// Appends the symbol's change to `out`, which has room for it, where its national best has
/// changed.
#[inline(always)]
fn append_change(has_changed: bool, position: u64, row: &Row, out: &mut Vec<Change>)
    requires room { vec_len out.old < vec_capacity out.old }
    ensures items { out.new.items
        ≡ out.old.items ++ option_to_list (told_where has_changed position row.now) }
    ensures len { vec_len out.new ≤ vec_len out.old + 1 }
    ensures capacity { vec_capacity out.new ≡ vec_capacity out.old }
{
    if has_changed {
        let national = row.national();
        // The prover is told here of the types that are nested in what is pushed.
        let bid: Option<Best> = national.bid;
        let offer: Option<Best> = national.offer;
        out.push_reserved(Change {
            position,
            symbol: row.symbol(),
            national: National { bid, offer },
        });
    }
}

/// Takes the end of the venue's session, or a skip, in all symbols, and appends their changes in
/// order.
#[inline(never)]
fn end_rows(rows: &mut [Row], step: &Step<'_>, venue: VenueId, out: &mut Vec<Change>)
    requires ends { (row : Row) → row_stepped step.now row ≡ row_ended venue step.now.age row }
    requires ranked { AllByRecursion (IsRowRanked step.now.age) rows.old }
    requires room { vec_len out.old + length rows.old ≤ vec_capacity out.old }
    ensures applies { AppliesStep step.now rows.old rows.new out.old.items out.new.items }
    ensures len { vec_len out.new ≤ vec_len out.old + length rows.old }
    ensures capacity { vec_capacity out.new ≡ vec_capacity out.old }
{
    for i in 0..rows.len() {
        let row = &mut rows[i];
        let has_changed = row.take_end(venue, step.age);
        append_change(has_changed, step.position, row, out);
    }
}

/// Ranks the venue's sides of all symbols anew, and appends their changes in order.
#[inline(never)]
fn recheck_rows(rows: &mut [Row], step: &Step<'_>, venue: VenueId, out: &mut Vec<Change>)
    requires rechecks { (row : Row) → row_stepped step.now row
        ≡ row_helped step.now.venues.now.helped venue row }
    requires ranked { AllByRecursion (IsRowRanked step.now.age) rows.old }
    requires room { vec_len out.old + length rows.old ≤ vec_capacity out.old }
    ensures applies { AppliesStep step.now rows.old rows.new out.old.items out.new.items }
    ensures len { vec_len out.new ≤ vec_len out.old + length rows.old }
    ensures capacity { vec_capacity out.new ≡ vec_capacity out.old }
{
    for i in 0..rows.len() {
        let row = &mut rows[i];
        let has_changed = row.recheck(step.venues, venue);
        append_change(has_changed, step.position, row, out);
    }
}

/// Applies the entry of an item that is no quotation, which few are. It is a call of its own, so
/// that a quotation is told by one compare.
#[inline(never)]
fn apply_other(
    table: &SymbolTable,
    rows: &mut [Row],
    step: &Step<'_>,
    venue: VenueId,
    numbered: &Numbered,
    out: &mut Vec<Change>,
)
    requires entry { step.now.entry.now ≡ Entry.Consumed venue numbered.now }
    requires other { (quote : Quote) → numbered.now.item ≡ Item.Quote quote → ⊥ }
    requires table { IsTable (symbols_in_rows rows.old) table.now.symbols.keys }
    requires ranked { AllByRecursion (IsRowRanked step.now.age) rows.old }
    requires room { vec_len out.old + length rows.old ≤ vec_capacity out.old }
    ensures applies { AppliesStep step.now rows.old rows.new out.old.items out.new.items }
    ensures len { vec_len out.new ≤ vec_len out.old + length rows.old }
    ensures capacity { vec_capacity out.new ≡ vec_capacity out.old }
{
    match &numbered.item {
        Item::Halt { symbol, halted } => {
            if let Some(i) = find(table, rows, *symbol) {
                let row = &mut rows[i];
                let has_changed = row.take_halt(step.venues, venue, *halted);
                append_change(has_changed, step.position, row, out);
            }
        }
        Item::Other => {}
        Item::End | Item::Skipped => end_rows(rows, step, venue, out),
        Item::Quote(_) => unreachable!(),
    }
}

/// Applies the entry to the symbols that it concerns, and appends their changes in order; the
/// flags of self-help are those after it.
#[inline(always)]
pub fn apply_step(table: &SymbolTable, rows: &mut [Row], step: &Step<'_>, out: &mut Vec<Change>)
    requires table { IsTable (symbols_in_rows rows.old) table.now.symbols.keys }
    requires ranked { AllByRecursion (IsRowRanked step.now.age) rows.old }
    requires room { vec_len out.old + length rows.old ≤ vec_capacity out.old }
    ensures applies { AppliesStep step.now rows.old rows.new out.old.items out.new.items }
    ensures len { vec_len out.new ≤ vec_len out.old + length rows.old }
    ensures capacity { vec_capacity out.new ≡ vec_capacity out.old }
{
    match step.entry {
        Entry::Consumed { venue, numbered } => match &numbered.item {
            Item::Quote(quote) => {
                if let Some(i) = find(table, rows, quote.symbol) {
                    let row = &mut rows[i];
                    let has_changed = row.take_quote(step.venues, *venue, quote, step.age);
                    append_change(has_changed, step.position, row, out);
                }
            }
            _ => apply_other(table, rows, step, *venue, numbered, out),
        },
        Entry::SelfHelp { venue, on: _ } => recheck_rows(rows, step, *venue, out),
    }
}
