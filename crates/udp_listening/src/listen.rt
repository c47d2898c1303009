//! `nbbo listen`.
ghost use Rattle.std.specs.Prelude.{◌≡◌, ◌≢◌};
ghost use Rattle.text_out.specs.Members.{writing_of};
ghost use Rattle.text_out.specs.StandardError.{Says};
ghost use Rattle.udp_listening.specs.Settings.{row_style};
ghost use Rattle.udp_listening.specs.Listening.{Listens, PrintsEnd, PrintsFailedReport, PrintsReport, complete_status, lacks_any, listen_fault_text, report_status};

use crate::console::{Console, LiveOutput};
use crate::listen_lines::write_report_lines;
use crate::listen_report::ListenReport;
use crate::listen_sockets::ListenSockets;
use crate::listen_streams::ListenStreams;
use crate::listening::{ListenFault, Listened, feed_of, run_feed};
use crate::output_state::OutputState;
use crate::row_follower::RowFollower;
use crate::row_marks::RowMarks;
use crate::run_monitor::RunMonitor;
use crate::run_time::RunTime;
use crate::sources::lines_over;
use crate::summary::summary_of;
use crate::unchanged::noted_symbols;
use best_rows::RowStyle;
use event_sinks::VenueGap;
use feed_types::{LineId, VenueId};
use live_feed::Stop;
use run_settings::ListenSettings;
use run_watches::{GapWatches, ListenCounts, MetricsServer, OutputWatch, RowProgress, RunWatches};
use std::alloc::{AllocError, Global};
use std::marker::Brand;
use std::rt::Clock;
use std::sync::Wait;
use std::thread::Threads;
use text_out::{TextOut, write_all, write_stderr};

/// The line on standard error where memory was refused.
pub const NO_MEMORY: &str = "nbbo: no memory\n";

/// The line on standard error where standard output can't be written.
const WRITE_FAILED: &str = "nbbo: write failed\n";

/// The status where a run that is to be complete isn't.
const INCOMPLETE: u8 = 3;

/// The status of the program after such a report: 0 where no line failed and nothing stopped the
/// run early, else 1.
fn status_of(failed: &[(VenueId, LineId)], stopped: Option<Stop>) -> u8
    ensures { result ≡ report_status failed.now stopped }
{
    u8::from(stopped.is_some() || !failed.is_empty())
}

/// Writes a text on standard error, and returns the status 1.
fn fail<E: TextOut>(text: &str, errors: &mut E) -> u8
    ensures says { Says (writing_of E.TextOut) text.now errors.old errors.new }
    ensures status { result ≡ 1 }
{
    write_stderr(text, errors);
    1
}

/// Prints the report of listening, after the rows that were printed while it went on, and returns
/// the status of the program.
fn print_report<W: TextOut, E: TextOut>(
    alloc: Global,
    style: RowStyle,
    report: &ListenReport,
    output: &mut W,
    errors: &mut E,
) -> u8
    ensures { PrintsReport
        (writing_of W.TextOut) (writing_of E.TextOut)
        style report.now output.old output.new errors.old errors.new result }
{
    write_report_lines(report, errors);
    let Ok(text) = summary_of(alloc, style, &report.settlement) else {
        return fail(NO_MEMORY, errors);
    };
    if write_all(text.as_slice(), output).is_err() {
        return fail(WRITE_FAILED, errors);
    }
    status_of(report.failed.as_slice(), report.stopped)
}

/// Prints the report of listening after the output has failed, and returns the status of the
/// program.
fn print_failed_report<E: TextOut>(report: &ListenReport, errors: &mut E) -> u8
    ensures { PrintsFailedReport (writing_of E.TextOut) report.now errors.old errors.new result }
{
    write_report_lines(report, errors);
    fail(WRITE_FAILED, errors)
}

/// The line for a fault.
fn fault_line(fault: ListenFault) -> &'static str
    ensures { result.now ≡ listen_fault_text fault }
{
    match fault {
        ListenFault::NoMemory => NO_MEMORY,
        ListenFault::Unsettled => "nbbo: not settled\n",
    }
}

/// Prints the end of listening, and returns the status of the program: 0, or 1 where a line failed,
/// the run stopped early, or not all was printed.
fn print_end<C: Clock, W: TextOut, E: TextOut>(
    alloc: Global,
    outcome: &Result<ListenReport, ListenFault>,
    console: &mut Console<C, W>,
    errors: &mut E,
) -> u8
    ensures { PrintsEnd
        (writing_of W.TextOut) (writing_of E.TextOut)
        console.old.style outcome.now console.old.live_output
        console.old.output console.new.output errors.old errors.new result }
{
    match outcome {
        Ok(report) => {
            if console.live_output == LiveOutput::Failed {
                print_failed_report(report, errors)
            } else {
                let style = console.style;
                print_report(alloc, style, report, &mut console.output, errors)
            }
        }
        Err(fault) => fail(fault_line(*fault), errors),
    }
}

/// Whether a venue lacks messages.
fn lacks_any(lacking: &[VenueGap]) -> bool
    ensures { result ≡ lacks_any lacking.now }
{
    !lacking.is_empty()
}

/// The status of the program after an end that has the status `ended`: 3 where that is 0, the run
/// is to be complete and messages are missing; else the same.
fn complete_status(complete: bool, outcome: &Result<ListenReport, ListenFault>, ended: u8) -> u8
    ensures { result ≡ complete_status complete outcome.now ended }
{
    match outcome {
        Ok(report) if ended == 0 && complete && lacks_any(report.lacking.as_slice()) => INCOMPLETE,
        _ => ended,
    }
}

/// Whether lines are printed while a run of these settings goes on.
fn live_output_of(settings: &ListenSettings) -> LiveOutput
    ensures { result ≢ LiveOutput.Failed }
{
    if settings.follow {
        LiveOutput::On
    } else {
        LiveOutput::Off
    }
}

/// How rows are written in a run of these settings.
fn style_of(settings: &ListenSettings) -> RowStyle
    ensures { result ≡ row_style settings.now }
{
    RowStyle {
        format: settings.format,
        timed: true,
    }
}

/// What the monitor of a run shares with the thread of its rows, and the clock of each.
#[derive(Drop)]
struct RunShares<C> {
    marks: RowMarks<C>,
    progress: RowProgress,
    state: OutputState,
    clock: C,
}

/// Returns what is shared in a run by this clock, whose output has this state.
fn shares_of<C: Clock + Clone + Drop>(
    alloc: Global,
    clock: &C,
    state: &OutputState,
) -> Result<RunShares<C>, AllocError> {
    let progress = RowProgress::new(alloc)?;
    Ok(RunShares {
        marks: RowMarks::new(progress.share()?, clock.clone()?),
        progress,
        state: state.share()?,
        clock: clock.clone()?,
    })
}

/// Listens on these sockets until all lines have ended or the settings end the run; then prints the
/// report for a subscriber that wants every change. Returns the status of the program: 0, or 1
/// where a line failed, the run stopped early, or not all was printed; and 3 in place of 0 where
/// the settings ask for a complete run and a venue lacks messages. Of the sockets it leaves out
/// those of venues that the settings haven't.
///
/// Where the settings ask for it, best lines or rows are printed as they come, and counts on
/// standard error; and metrics are served where there is a socket for them. Standard error has also
/// what is news of the lines, as it comes, and which gaps were given up, as the settings say, and
/// at the end what was counted of the lines; where the settings have further options also with
/// which sessions lines ended, what the system dropped, and which symbols never came, or where not
/// all entries are kept never had a best.
///
/// Who doesn't read the rows holds up nothing else: what is watched has a thread of its own.
pub fn listen_with<R, C, W, E>(
    rt: &R,
    clock: &C,
    alloc: Global,
    settings: &ListenSettings,
    sockets: ListenSockets,
    streams: ListenStreams<W, E>,
) -> (u8, W, E)
where
    R: Threads + Wait + Sync,
    C: Clock + Clone + Drop + Send,
    W: TextOut + Drop,
    E: TextOut + Drop + Send,
    ensures { Listens
        (writing_of W.TextOut) (writing_of E.TextOut) settings.now sockets.lines.items
        streams.output result.1 streams.errors result.2 result.0 }
{
    let ListenStreams {
        input,
        output,
        errors,
        output_state,
        errors_progress,
    } = streams;
    let mut errors = errors;
    let mut console = Console::new(alloc, output, live_output_of(settings), style_of(settings));
    let (Ok(feed), Ok(lines), Ok(gaps), Ok(unchanged), Ok(shares)) = (
        feed_of(alloc, settings),
        lines_over(alloc, settings, sockets.lines, sockets.tables, clock),
        GapWatches::of(alloc, settings),
        noted_symbols(alloc, settings),
        shares_of(alloc, clock, &output_state),
    ) else {
        let status = print_end(
            alloc,
            &Err(ListenFault::NoMemory),
            &mut console,
            &mut errors,
        );
        return (status, console.output, errors);
    };
    console.unchanged = unchanged;
    console.marks = Some(shares.marks);
    let counts = ListenCounts::of(alloc, settings);
    let metrics = MetricsServer::of(alloc, sockets.metrics);
    let of_output = OutputWatch::new(settings.follow, shares.progress, errors_progress);
    let watches = RunWatches::new(
        lines.watches,
        gaps,
        of_output,
        counts,
        metrics,
        settings.venues,
    );
    let time = RunTime::new(settings, input, shares.clock);
    let follower = RowFollower::new(alloc, console, shares.state);
    let monitor = RunMonitor::new(
        time,
        errors,
        watches,
        output_state,
        settings.follow,
        sockets.skips,
        lines.itch,
    );
    let Listened {
        outcome,
        mut console,
        mut errors,
    } = run_feed::<Brand, R, C, W, E>(rt, alloc, settings, feed, lines.run, follower, monitor);
    let ended = print_end(alloc, &outcome, &mut console, &mut errors);
    let status = complete_status(settings.complete, &outcome, ended);
    (status, console.output, errors)
}
