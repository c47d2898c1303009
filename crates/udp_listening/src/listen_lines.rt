//! What `nbbo listen` says on standard error.
ghost use Rattle.std.specs.Prelude.{◌≡◌, ◌++◌, flat_map};
ghost use Rattle.text_out.specs.Members.{writing_of};
ghost use Rattle.text_out.specs.StandardError.{SaysEach};
ghost use Rattle.run_notes.specs.AbsentSymbols.{absent_texts, unchanged_texts};
ghost use Rattle.run_notes.specs.NamedGaps.{named_gap_texts};
ghost use Rattle.udp_listening.specs.ItchEnds.{itch_texts};
ghost use Rattle.udp_listening.specs.Listening.{ended_texts, failed_texts, read_out_texts, report_texts, stop_text, stop_texts};

use crate::itch_ends::write_itch_ends;
use crate::listen_report::{EndedLine, ListenReport};
use feed_types::{LineId, VenueId};
use live_feed::Stop;
use run_notes::write_named_gaps;
use run_settings::VenueNames;
use run_watches::{LineChange, write_line_end};
use text_out::{TextOut, write_number, write_stderr};

/// Writes which lines failed.
fn write_each_failed<E: TextOut>(names: &VenueNames, failed: &[(VenueId, LineId)], errors: &mut E)
    ensures { SaysEach (writing_of E.TextOut)
        (flat_map (failed_texts names.now) failed.now) errors.old errors.new }
{
    for line in failed {
        write_line_end(names, line.0, line.1, LineChange::Failed, errors);
    }
}

/// Writes which lines have read as many datagrams as they may.
fn write_each_read_out<E: TextOut>(
    names: &VenueNames,
    read_out: &[(VenueId, LineId)],
    errors: &mut E,
)
    ensures { SaysEach (writing_of E.TextOut)
        (flat_map (read_out_texts names.now) read_out.now) errors.old errors.new }
{
    for line in read_out {
        write_line_end(names, line.0, line.1, LineChange::ReadOut, errors);
    }
}

/// The line for an early stop.
fn stop_line(stop: Stop) -> &'static str
    ensures { result.now ≡ stop_text stop }
{
    match stop {
        Stop::JournalFull => "nbbo: journal full\n",
        Stop::NoMemory => "nbbo: no memory\n",
        Stop::NoThread => "nbbo: no thread\n",
        Stop::SubscriberBehind => "nbbo: subscriber too far behind\n",
    }
}

/// Writes why the run stopped early, if it did.
fn write_stop<E: TextOut>(stopped: Option<Stop>, errors: &mut E)
    ensures { SaysEach (writing_of E.TextOut) (stop_texts stopped) errors.old errors.new }
{
    if let Some(stop) = stopped {
        write_stderr(stop_line(stop), errors);
    }
}

/// Writes which lines failed, and why the run stopped early, if it did.
fn write_faults<E: TextOut>(report: &ListenReport, errors: &mut E)
    ensures { SaysEach (writing_of E.TextOut)
        (flat_map (failed_texts report.now.names) report.now.failed.items
        ++ stop_texts report.now.stopped)
        errors.old errors.new }
{
    write_each_failed(&report.names, report.failed.as_slice(), errors);
    write_stop(report.stopped, errors);
}

/// Writes which lines have read as many datagrams as they may, and what venues lack.
fn write_gaps<E: TextOut>(report: &ListenReport, errors: &mut E)
    ensures { SaysEach (writing_of E.TextOut)
        (flat_map (read_out_texts report.now.names) report.now.read_out.items
        ++ flat_map (named_gap_texts report.now.names) report.now.lacking.items)
        errors.old errors.new }
{
    write_each_read_out(&report.names, report.read_out.as_slice(), errors);
    write_named_gaps(&report.names, report.lacking.as_slice(), errors);
}

/// Writes with which sessions lines ended.
fn write_each_ended<E: TextOut>(names: &VenueNames, ended: &[EndedLine], errors: &mut E)
    ensures { SaysEach (writing_of E.TextOut)
        (flat_map (ended_texts names.now) ended.now) errors.old errors.new }
{
    for line in ended {
        let change = LineChange::EndedWith(line.session);
        write_line_end(names, line.venue, line.line, change, errors);
    }
}

/// Writes which symbols never came, and which never had a best.
fn write_symbols<E: TextOut>(report: &ListenReport, errors: &mut E)
    ensures { SaysEach (writing_of E.TextOut)
        (absent_texts report.now.absent ++ unchanged_texts report.now.unchanged)
        errors.old errors.new }
{
    report.absent.write(errors);
    report.unchanged.write_unchanged(errors);
}

/// Writes which symbols never came or never had a best, and what was given up of venues in ITCH.
fn write_symbols_and_itch<E: TextOut>(report: &ListenReport, errors: &mut E)
    ensures { SaysEach (writing_of E.TextOut)
        ((absent_texts report.now.absent ++ unchanged_texts report.now.unchanged)
        ++ flat_map (itch_texts report.now.names) report.now.itch.items) errors.old errors.new }
{
    write_symbols(report, errors);
    write_itch_ends(&report.names, report.itch.as_slice(), errors);
}

/// Writes with which sessions lines ended, which symbols never came or never had a best, and what
/// was given up of venues in ITCH.
fn write_ends<E: TextOut>(report: &ListenReport, errors: &mut E)
    ensures { SaysEach (writing_of E.TextOut)
        (flat_map (ended_texts report.now.names) report.now.ended.items
        ++ ((absent_texts report.now.absent ++ unchanged_texts report.now.unchanged)
        ++ flat_map (itch_texts report.now.names) report.now.itch.items)) errors.old errors.new }
{
    write_each_ended(&report.names, report.ended.as_slice(), errors);
    write_symbols_and_itch(report, errors);
}

/// Writes which lines failed, why the run stopped early, if it did, which lines have read as many
/// datagrams as they may, what venues lack, with which sessions lines ended, which symbols never
/// came or never had a best, and what was given up of venues in ITCH.
pub fn write_report_lines<E: TextOut>(report: &ListenReport, errors: &mut E)
    ensures { SaysEach (writing_of E.TextOut) (report_texts report.now) errors.old errors.new }
{
    write_faults(report, errors);
    write_gaps(report, errors);
    write_ends(report, errors);
}
