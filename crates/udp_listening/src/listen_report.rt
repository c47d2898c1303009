//! The report of listening.
ghost use Rattle.std.specs.Prelude.{◌≡◌, ◌++◌, IfOk, OnOk, flat_map, map};
ghost use Rattle.journal_book.specs.Journals.{kept_of};
ghost use Rattle.run_settings.specs.FurtherOptions.{has_further_options};
ghost use Rattle.udp_listening.specs.Reports.{IsReportOfFeed, absent_if, ended_line, ended_lines, failed_lines, line_if, noted_symbols, read_out_lines, tells_absent, reported_absent, told_ends};
ghost use Rattle.udp_listening.specs.ItchEnds.{itch_lacks};
ghost use Rattle.udp_listening.specs.SettledLacks.{settled_lacks};
ghost use Rattle.udp_listening.specs.SettledNotices.{HasNoted, settled_forgotten, settled_log};

use crate::itch_ends::{append_itch_lacks, itch_ends};
use crate::listening::ListenFault;
use crate::settled_lacks::settled_lacks;
use crate::sources::ListenSource;
use crate::unchanged::settled_unchanged;
use event_sinks::VenueGap;
use feed_types::{LineId, SessionName, VenueId};
use itch_lines::{ItchVenueEnd, VenueShare};
use live_feed::{FeedReport, LineReport, Settlement, Stop};
use run_notes::AbsentList;
use run_settings::{ListenSettings, VenueNames};
use std::alloc::{AllocError, Global};

/// A line that an end of this session has ended.
#[derive(Clone, Copy, Debug, PartialEq, Eq)]
pub struct EndedLine {
    pub venue: VenueId,
    pub line: LineId,
    pub session: SessionName,
}

/// The report of listening.
#[derive(Drop)]
pub struct ListenReport {
    /// The lines whose sockets failed, in the order of the settings.
    pub failed: Vec<(VenueId, LineId)>,
    /// Why the run stopped early, if it did.
    pub stopped: Option<Stop>,
    /// The lines that have read as many datagrams as they may, in the order of the settings.
    pub read_out: Vec<(VenueId, LineId)>,
    /// What is missing, of each venue that lacks anything.
    pub lacking: Vec<VenueGap>,
    /// The lines that an end of session has ended, in the order of the settings, where these have
    /// further options.
    pub ended: Vec<EndedLine>,
    /// The symbols of which no item came, where the settings have further options and all entries
    /// are kept.
    pub absent: AbsentList,
    /// The symbols of which no change of the national best was told, where the settings have
    /// further options and not all entries are kept.
    pub unchanged: AbsentList,
    /// What the venues in ITCH have come to, each once, in order.
    pub itch: Vec<ItchVenueEnd>,
    /// What stands for a venue in what is said of the report.
    pub names: VenueNames,
    /// What was taken, and what became of it.
    pub settlement: Settlement,
}

/// Returns what the venues of a settled feed lack, and then what those in ITCH do.
fn all_lacks(
    alloc: Global,
    settlement: &Settlement,
    itch: &[ItchVenueEnd],
) -> Result<Vec<VenueGap>, AllocError>
    ensures { IfOk result (λ lacking.
        lacking.items ≡ settled_lacks settlement.now ++ itch_lacks itch.now) }
{
    let mut lacking = settled_lacks(alloc, settlement)?;
    append_itch_lacks(&mut lacking, itch)?;
    Ok(lacking)
}

/// Appends a line to the list where it is one of these.
fn append_if(
    is_one: bool,
    list: &mut Vec<(VenueId, LineId)>,
    venue: VenueId,
    line: LineId,
) -> Result<(), AllocError>
    ensures { OnOk result (list.new.items ≡ list.old.items ++ line_if is_one (venue, line)) }
{
    if is_one {
        list.push((venue, line))?;
    }
    Ok(())
}

/// The lines that failed, in order.
fn failed_in<C: Drop>(
    alloc: Global,
    lines: &[LineReport<ListenSource<C>>],
) -> Result<Vec<(VenueId, LineId)>, AllocError>
    ensures { IfOk result (λ failed. failed.items ≡ failed_lines lines.now) }
{
    let mut failed = Vec::new(alloc);
    for line in lines {
        append_if(line.fault.is_some(), &mut failed, line.venue, line.line)?;
    }
    Ok(failed)
}

/// The lines that have read as many datagrams as they may, in order.
fn read_out_in<C: Drop>(
    alloc: Global,
    lines: &[LineReport<ListenSource<C>>],
) -> Result<Vec<(VenueId, LineId)>, AllocError>
    ensures { IfOk result (λ read_out. read_out.items ≡ read_out_lines lines.now) }
{
    let mut read_out = Vec::new(alloc);
    for line in lines {
        append_if(
            line.source.source().is_read_out(),
            &mut read_out,
            line.venue,
            line.line,
        )?;
    }
    Ok(read_out)
}

/// Appends a line to the list where an end of session has ended it.
fn append_ended<C: Drop>(
    list: &mut Vec<EndedLine>,
    report: &LineReport<ListenSource<C>>,
) -> Result<(), AllocError>
    ensures { OnOk result (list.new.items ≡ list.old.items ++ ended_line report.now) }
{
    if let Some(session) = report.source.source().ender() {
        list.push(EndedLine {
            venue: report.venue,
            line: report.line,
            session,
        })?;
    }
    Ok(())
}

/// The lines that an end of session has ended, in order.
fn ended_in<C: Drop>(
    alloc: Global,
    lines: &[LineReport<ListenSource<C>>],
) -> Result<Vec<EndedLine>, AllocError>
    ensures { IfOk result (λ ended. ended.items ≡ ended_lines lines.now) }
{
    let mut ended = Vec::new(alloc);
    for line in lines {
        append_ended(&mut ended, line)?;
    }
    Ok(ended)
}

/// The same where it is told, else none.
fn ended_if_told<C: Drop>(
    alloc: Global,
    is_told: bool,
    lines: &[LineReport<ListenSource<C>>],
) -> Result<Vec<EndedLine>, AllocError>
    ensures { IfOk result (λ ended. ended.items ≡ told_ends is_told lines.now) }
{
    if is_told {
        ended_in(alloc, lines)
    } else {
        Ok(Vec::new(alloc))
    }
}

/// The same where the settings have further options, else none.
fn ended_of<C: Drop>(
    alloc: Global,
    settings: &ListenSettings,
    lines: &[LineReport<ListenSource<C>>],
) -> Result<Vec<EndedLine>, AllocError>
    ensures { IfOk result (λ ended.
        ended.items ≡ told_ends (has_further_options settings.now) lines.now) }
{
    ended_if_told(alloc, settings.has_further_options(), lines)
}

/// Whether it is told which symbols never came: by settings with further options, where all
/// entries are kept.
fn tells_absent(settings: &ListenSettings) -> bool
    ensures { result ≡ tells_absent settings.now }
{
    settings.has_further_options() && !settings.kept.is_some()
}

/// The symbols of the settings of which no item is among the settlement's entries, where that is
/// told; else none.
fn absent_if_told(
    alloc: Global,
    is_told: bool,
    settings: &ListenSettings,
    settlement: &Settlement,
) -> Result<AbsentList, AllocError>
    ensures { IfOk result (λ absent. absent ≡ absent_if is_told
        (kept_of settlement.now.journal.kept settlement.now.journal.entries)
        settings.now.feed.symbols.items) }
{
    if is_told {
        let symbols = settings.feed.symbols.as_slice();
        AbsentList::among(alloc, settlement.entries(), symbols)
    } else {
        Ok(AbsentList::none(alloc))
    }
}

/// The symbols of which the settings have it told that none came.
fn absent_of(
    alloc: Global,
    settings: &ListenSettings,
    settlement: &Settlement,
) -> Result<AbsentList, AllocError>
    ensures { IfOk result (λ absent.
        absent ≡ reported_absent settings.now settlement.now.journal) }
{
    absent_if_told(alloc, tells_absent(settings), settings, settlement)
}

/// The report of listening by the report of the settings' feed, of whose log the forgotten notices
/// left these symbols unchanged, and whose lines of venues in ITCH share this. NoMemory where
/// memory was refused; Unsettled where such a venue can't say what it has come to, which no run
/// meets.
pub fn report_of<C: Drop>(
    alloc: Global,
    settings: &ListenSettings,
    whole: FeedReport<ListenSource<C>>,
    unchanged: AbsentList,
    itch: &[VenueShare],
) -> Result<ListenReport, ListenFault>
    requires { HasNoted (noted_symbols settings.now) (settled_log whole.settlement)
        (settled_forgotten whole.settlement) unchanged }
    ensures { IfOk result
        (IsReportOfFeed settings.now (map (λ share. share.venue) itch.now) whole) }
{
    let itch = itch_ends(alloc, itch)?;
    Ok(ListenReport {
        failed: failed_in(alloc, whole.lines.as_slice())?,
        stopped: whole.stopped,
        read_out: read_out_in(alloc, whole.lines.as_slice())?,
        lacking: all_lacks(alloc, &whole.settlement, itch.as_slice())?,
        ended: ended_of(alloc, settings, whole.lines.as_slice())?,
        absent: absent_of(alloc, settings, &whole.settlement)?,
        unchanged: settled_unchanged(unchanged, &whole.settlement),
        itch,
        names: settings.venues,
        settlement: whole.settlement,
    })
}
