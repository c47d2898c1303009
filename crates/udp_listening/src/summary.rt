//! The text of a settled feed.
ghost use Rattle.std.specs.Prelude.{◌≡◌, ◌++◌, ◌<◌, flat_map, length, IfOk, IfSome, None, OnOk, slice_get, take};
ghost use Rattle.best_rows.specs.NoticeRows.{notice_row};
ghost use Rattle.udp_listening.specs.Listening.{end_line, end_lines, ending_text, log_rows, rest_text, subscriber_rows};

use best_rows::{RowStyle, put_notice};
use event_sinks::put_venue;
use feed_types::{LineId, Notice, SubscriberId, VenueId};
use live_feed::{Logged, Settlement};
use run_settings::BestFormat;
use std::alloc::{AllocError, Global};
use text_out::LineBuffer;

/// Appends the rows of the notices, without times.
fn put_notices(text: &mut LineBuffer, style: RowStyle, notices: &[Notice]) -> Result<(), AllocError>
    ensures { OnOk result (text.new.items
        ≡ text.old.items ++ flat_map (notice_row style None) notices.now) }
{
    for notice in notices {
        put_notice(text, style, None, notice)?;
    }
    Ok(())
}

/// Appends the rows of the notices that a subscriber took, without times.
fn put_log(text: &mut LineBuffer, style: RowStyle, log: &[Logged]) -> Result<(), AllocError>
    ensures { OnOk result (text.new.items ≡ text.old.items ++ log_rows style log.now) }
{
    for logged in log {
        put_notice(text, style, None, &logged.notice)?;
    }
    Ok(())
}

/// Appends the last line of a venue, which is below the number of venues.
fn put_end(text: &mut LineBuffer, settlement: &Settlement, venue: VenueId) -> Result<(), AllocError>
    requires { venue < length settlement.now.venues }
    ensures { OnOk result (IfSome (slice_get settlement.now.venues venue)
        (λ v. text.new.items
        ≡ text.old.items ++ end_line settlement.now.journal.entries venue v)) }
{
    let sent = u64::from(settlement.consumed_count(venue));
    let a = settlement.wins(venue, LineId::A);
    let b = settlement.wins(venue, LineId::B);
    let recovery = settlement.wins(venue, LineId::Recovery);
    put_venue(text, venue, sent, a, b, recovery)
}

/// Appends the rows of everything that the subscriber wanted: what it took, but for what its log
/// has forgotten, what was still in its lane, and what was not offered. The id is below the number
/// of subscribers.
fn put_bests(
    text: &mut LineBuffer,
    style: RowStyle,
    settlement: &Settlement,
    id: SubscriberId,
) -> Result<(), AllocError>
    requires { id < length settlement.now.subscribers }
    ensures { OnOk result (IfSome (slice_get settlement.now.subscribers id)
        (λ x. text.new.items ≡ text.old.items ++ subscriber_rows style x.forgotten x)) }
{
    put_log(text, style, settlement.log(id))?;
    put_notices(text, style, settlement.queued(id))?;
    put_notices(text, style, settlement.unoffered(id))
}

/// Appends the rows of the first subscriber, if there is one, but for those that its log has
/// forgotten.
fn put_first_bests(
    text: &mut LineBuffer,
    style: RowStyle,
    settlement: &Settlement,
) -> Result<(), AllocError>
    ensures { OnOk result (text.new.items ≡ text.old.items
        ++ flat_map (λ x. subscriber_rows style x.forgotten x)
        (take 1 settlement.now.subscribers)) }
{
    if settlement.subscriber_count() == 0 {
        return Ok(());
    }
    match SubscriberId::new(0) {
        Some(id) => put_bests(text, style, settlement, id),
        None => unreachable!(),
    }
}

/// Appends the last line of each venue, of 16 at most.
fn put_ends(text: &mut LineBuffer, settlement: &Settlement) -> Result<(), AllocError>
    ensures { OnOk result (text.new.items
        ≡ text.old.items
        ++ end_lines settlement.now.journal.entries 0 (take 16 settlement.now.venues)) }
{
    for place in 0..settlement.venue_count() {
        if let Some(venue) = VenueId::from_index(place) {
            put_end(text, settlement, venue)?;
        }
    }
    Ok(())
}

/// Appends what is after the rows: a line for each venue after best lines, after others nothing.
fn put_ending(
    text: &mut LineBuffer,
    format: BestFormat,
    settlement: &Settlement,
) -> Result<(), AllocError>
    ensures { OnOk result (text.new.items
        ≡ text.old.items ++ ending_text format settlement.now) }
{
    match format {
        BestFormat::Text => put_ends(text, settlement),
        BestFormat::Csv(_) | BestFormat::Json(_) => Ok(()),
    }
}

/// The text that is printed once all lines have ended: the rows of the first subscriber, but for
/// those that its log has forgotten, without times, and then a line for each venue after best
/// lines.
pub fn summary_of(
    alloc: Global,
    style: RowStyle,
    settlement: &Settlement,
) -> Result<LineBuffer, AllocError>
    ensures { IfOk result (λ text. text.items ≡ rest_text style settlement.now) }
{
    let mut text = LineBuffer::new(alloc);
    put_first_bests(&mut text, style, settlement)?;
    put_ending(&mut text, style.format, settlement)?;
    Ok(text)
}
