//! What is printed of a replay.
ghost use Rattle.text_out.specs.Members.{reading_of, writing_of};
ghost use Rattle.std.specs.Prelude.{◌≡◌, ◌≤◌, ◌*◌, ⊤, ℕ, List, [], Err, IfErr, IfOk, IsOkAnd, vec_len};
ghost use Rattle.event_sinks.specs.declared.replay_stop.ReplayStop.TheVariants.{NoMemory};
ghost use Rattle.feed_text.specs.EventReplays.{AnswersRun, venues_in};
ghost use Rattle.feed_text.specs.Replays.{CanReplay};
ghost use Rattle.period_rows.specs.BestMakers.{AreBests};
ghost use Rattle.period_rows.specs.BestRows.{best_names};
ghost use Rattle.period_rows.specs.CountRows.{ArePeriodCounts, count_names};
ghost use Rattle.best_rows.specs.RowTexts.{header_of};
ghost use Rattle.replay_reports.specs.BestRowMakers.{IsInStyle};
ghost use Rattle.report_rows.specs.RowTexts.{header_text};
ghost use Rattle.replay_run.specs.Printed.{facts_of_run};
ghost use Rattle.run_notes.specs.AbsentSymbols.{symbols_with};
ghost use Rattle.nbbo_runs.specs.Printing.{IsGapSink, IsSinkBefore, PrintedRows, PrintsAsked, PrintsPeriods, PrintsRows, PrintsStatistics, PrintsText, PrintsWatched, WritesRows, counting_late, late_told, output_asked, printing_rows};

use crate::config::{RunConfig, config_of};
use crate::fed_sink::FedSink;
use crate::reported_gaps::is_packet_input;
use crate::span_replay::replay_in_span;
use crate::watched_sink::{Missing, replay_watched};
use best_rows::RowStyle;
use capture_records::RecordFormat;
use event_sinks::{ReplayStop, Replayed, TextPage, TextSink};
use gap_rows::{GapMaker, new_gap_rows};
use line_gaps::new_gaps;
use period_rows::{BestMaker, PeriodCounter, new_best_rows, new_count_rows};
use replay_reports::{BestRowMaker, ReplayStats, new_best_row_sink};
use report_rows::{RowMaker, RowSink};
use run_settings::{BestFormat, PeriodStyle, ReportFormat, RowFormat, RunOutput, RunSettings};
use std::alloc::{AllocError, Global};
use text_out::{CaptureIn, LineBuffer, TextOut, write_all};

/// What a run printed: the output, the outcome, and how many datagrams were too late for the
/// periods that were kept.
#[derive(Drop)]
pub struct Printed<W, F> {
    pub output: W,
    pub outcome: Result<(), ReplayStop<F>>,
    pub late: u64,
}

/// Returns what was printed of a replay without periods.
fn without_periods<W, F>(replayed: Replayed<W, F>) -> Printed<W, F>
    ensures { result ≡ record {
      output = replayed.sink;
      outcome = replayed.outcome;
      late = 0;
    } }
{
    Printed {
        output: replayed.sink,
        outcome: replayed.outcome,
        late: 0,
    }
}

/// The outcome where memory was refused before anything was read.
fn without_memory<W, F>(output: W) -> Replayed<W, F>
    ensures output { result.sink ≡ output }
    ensures outcome { result.outcome ≡ Err NoMemory }
{
    Replayed {
        sink: output,
        outcome: Err(ReplayStop::NoMemory),
    }
}

/// A page of text before the output. Where memory is refused the output is returned.
fn page_before<W>(alloc: Global, output: W) -> Result<TextPage<W>, W>
    ensures writer { IfOk result (λ page. page.writer ≡ output) }
    ensures empty { IfOk result (λ page. page.text.items ≡ []) }
    ensures refused { IfErr result (λ back. back ≡ output) }
{
    match LineBuffer::for_page(alloc) {
        Ok(text) => Ok(TextPage::new(text, output)),
        Err(AllocError) => Err(output),
    }
}

/// The rows of best lines, before the output. Where memory is refused the output is returned.
fn rows_before<W>(
    alloc: Global,
    format: BestFormat,
    timed: bool,
    output: W,
) -> Result<RowSink<W, BestRowMaker>, W>
    ensures rows { IfOk result (IsSinkBefore IsInStyle
        (header_of format timed) (record { format = format; timed = timed }) output) }
    ensures refused { IfErr result (λ back. back ≡ output) }
{
    let style = RowStyle { format, timed };
    match page_before(alloc, output) {
        Ok(page) => Ok(new_best_row_sink(page, style)),
        Err(output) => Err(output),
    }
}

/// Makes the rows of gaps, before the output. Where memory is refused the output is returned.
fn gaps_before<W>(
    alloc: Global,
    config: &RunConfig<'_>,
    format: RowFormat,
    output: W,
) -> Result<RowSink<W, GapMaker>, W>
    ensures rows { IfOk result (IsGapSink format (venues_in config.now.replay) output) }
    ensures refused { IfErr result (λ back. back ≡ output) }
{
    let Ok(venues) = new_gaps(alloc, config.replay.sessions.len()) else {
        return Err(output);
    };
    match page_before(alloc, output) {
        Ok(page) => Ok(new_gap_rows(page, format, venues)),
        Err(output) => Err(output),
    }
}

/// Makes the rows of the periods of the venues, before the output. Where memory is refused the
/// output is returned.
fn counts_before<W>(
    alloc: Global,
    config: &RunConfig<'_>,
    style: PeriodStyle,
    output: W,
) -> Result<RowSink<W, PeriodCounter>, W>
    requires { venues_in config.now.replay ≤ 16 }
    ensures rows { IfOk result (IsSinkBefore ArePeriodCounts
        (header_text style.format (count_names style.format))
        (record { style = style; lines = 2 * venues_in config.now.replay }) output) }
    ensures refused { IfErr result (λ back. back ≡ output) }
{
    let venues = config.replay.sessions.len();
    match page_before(alloc, output) {
        Ok(page) => Ok(new_count_rows(page, style, venues)),
        Err(output) => Err(output),
    }
}

/// Makes the rows of how long national bests stood, before the output. Where memory is refused the
/// output is returned.
fn best_times_before<W>(
    alloc: Global,
    config: &RunConfig<'_>,
    style: PeriodStyle,
    output: W,
) -> Result<RowSink<W, BestMaker>, W>
    ensures rows { IfOk result (IsSinkBefore AreBests
        (header_text style.format (best_names style.format))
        (record {
          style = style;
          venues = venues_in config.now.replay;
          symbols = config.now.replay.symbols.now;
          from = config.now.span.from;
        }) output) }
    ensures refused { IfErr result (λ back. back ≡ output) }
{
    let venues = config.replay.sessions.len();
    let made = BestMaker::new(
        alloc,
        style,
        venues,
        config.replay.symbols,
        config.span.from,
    );
    let Ok(maker) = made else {
        return Err(output);
    };
    match page_before(alloc, output) {
        Ok(page) => Ok(new_best_rows(page, maker)),
        Err(output) => Err(output),
    }
}

/// Replays a capture, and prints the rows of a sink that was made before the output, or wasn't, for
/// want of memory. Returns the output beside the outcome. What is missing at the end is left in
/// `missing`.
fn print_rows<R: CaptureIn, F: RecordFormat, W: TextOut + Drop, M: RowMaker + Drop>(
    alloc: Global,
    config: &RunConfig<'_>,
    made: Result<RowSink<W, M>, W>,
    format: &mut F,
    input: &mut R,
    missing: &mut Missing,
) -> Replayed<W, F::Fault>
    requires can { CanReplay config.now.replay }
    requires of_venues { F.venues format.old ≡ venues_in config.now.replay }
    ensures { (kind : PrintedRows) (output : W)
        → IfOk made (WritesRows (writing_of W.TextOut) M.makes M.tells kind output)
        → IfErr made (λ back. back ≡ output)
        → PrintsWatched
        (reading_of R.CaptureIn)
        (record { reads = F.reads; wants = F.wants; is_bad = F.is_bad; is_whole = F.is_whole })
        (PrintsRows (reading_of R.CaptureIn) (printing_rows (writing_of W.TextOut) kind)
        config.now.span) config.now.replay
        input.old input.new format.old format.new output result.sink missing.old missing.new
        result.outcome }
{
    match made {
        Ok(rows) => {
            let replayed = replay_in_span(alloc, config, format, input, rows, missing);
            Replayed {
                sink: replayed.sink.into_writer(),
                outcome: replayed.outcome,
            }
        }
        Err(output) => without_memory(output),
    }
}

/// Returns how many datagrams were too late, as it is told: of a sink that failed it isn't.
fn late_told<F>(outcome: &Result<(), ReplayStop<F>>, late: u64) -> u64
    ensures { result ≡ late_told outcome.now late }
{
    match outcome {
        Err(ReplayStop::SinkFailed) => 0,
        _ => late,
    }
}

/// Replays a capture, and prints the rows of its periods in a style. Returns the output beside the
/// outcome, and how many datagrams were too late for the periods that were kept. What is missing at
/// the end is left in `missing`.
fn print_periods<R: CaptureIn, F: RecordFormat, W: TextOut + Drop>(
    alloc: Global,
    config: &RunConfig<'_>,
    style: PeriodStyle,
    format: &mut F,
    input: &mut R,
    output: W,
    missing: &mut Missing,
) -> Printed<W, F::Fault>
    requires can { CanReplay config.now.replay }
    requires of_venues { F.venues format.old ≡ venues_in config.now.replay }
    requires few { venues_in config.now.replay ≤ 16 }
    ensures printed { PrintsWatched
        (reading_of R.CaptureIn)
        (record { reads = F.reads; wants = F.wants; is_bad = F.is_bad; is_whole = F.is_whole })
        (PrintsPeriods
        (reading_of R.CaptureIn) (writing_of W.TextOut) style config.now.span) config.now.replay
        input.old input.new format.old format.new output result.output missing.old missing.new
        result.outcome }
    ensures late { AnswersRun
        (reading_of R.CaptureIn)
        (record { reads = F.reads; wants = F.wants; is_bad = F.is_bad; is_whole = F.is_whole })
        (counting_late style.length config.now.span) (λ late. ⊤) config.now.replay
        (facts_of_run config.now.replay) input.old input.new format.old format.new
        0 result.late result.outcome }
{
    match counts_before(alloc, config, style, output) {
        Ok(rows) => {
            let replayed = replay_in_span(alloc, config, format, input, rows, missing);
            let late = late_told(&replayed.outcome, replayed.sink.maker.late());
            Printed {
                output: replayed.sink.into_writer(),
                outcome: replayed.outcome,
                late,
            }
        }
        Err(output) => without_periods(without_memory(output)),
    }
}

/// Writes a text, if it was made.
pub fn write_text<W: TextOut, F>(
    made: Result<Vec<u8>, AllocError>,
    output: &mut W,
) -> Result<(), ReplayStop<F>>
    ensures { PrintsText (writing_of W.TextOut)
        (λ text. IsOkAnd made (λ bytes. bytes.items ≡ text)) output.old output.new result }
{
    let Ok(text) = made else {
        return Err(ReplayStop::NoMemory);
    };
    match write_all(text.as_slice(), output) {
        Ok(()) => Ok(()),
        Err(_) => Err(ReplayStop::SinkFailed),
    }
}

/// How statistics are printed, and whether the records have times.
#[derive(Clone, Copy)]
struct StatsForm {
    rows: ReportFormat,
    timed: bool,
}

/// Returns the text of statistics, nothing where a run failed before anything came.
fn stats_text(
    alloc: Global,
    stats: &FedSink<ReplayStats>,
    format: ReportFormat,
    is_whole: bool,
) -> Result<Vec<u8>, AllocError> {
    if !is_whole && !stats.is_fed {
        return Ok(Vec::new(alloc));
    }
    stats.sink.text(alloc, format)
}

/// Replays a capture, and then prints its statistics, also up to a fault. Returns the output beside
/// the outcome. What is missing at the end is left in `missing`.
fn print_stats<R: CaptureIn, F: RecordFormat, W: TextOut>(
    alloc: Global,
    config: &RunConfig<'_>,
    form: StatsForm,
    format: &mut F,
    input: &mut R,
    mut output: W,
    missing: &mut Missing,
) -> Replayed<W, F::Fault>
    requires can { CanReplay config.now.replay }
    requires of_venues { F.venues format.old ≡ venues_in config.now.replay }
    ensures { PrintsWatched
        (reading_of R.CaptureIn)
        (record { reads = F.reads; wants = F.wants; is_bad = F.is_bad; is_whole = F.is_whole })
        (PrintsStatistics
        (reading_of R.CaptureIn) (writing_of W.TextOut) form.timed config.now.span)
        config.now.replay
        input.old input.new format.old format.new output result.sink missing.old missing.new
        result.outcome }
{
    let venues = config.replay.sessions.len();
    let window = config.replay.window as usize;
    let Ok(stats) = ReplayStats::new(alloc, venues, window, form.timed) else {
        return without_memory(output);
    };
    let fed = FedSink {
        sink: stats,
        is_fed: false,
    };
    let replayed = replay_in_span(alloc, config, format, input, fed, missing);
    let is_whole = replayed.outcome.is_ok();
    let text = stats_text(alloc, &replayed.sink, form.rows, is_whole);
    let printed = write_text(text, &mut output);
    Replayed {
        sink: output,
        outcome: printed.and(replayed.outcome),
    }
}

/// Replays a capture, and prints what is asked for. Returns the output beside the outcome, and how
/// many datagrams were too late for the periods that were kept. What is missing at the end is left
/// in `missing`.
pub fn print<R: CaptureIn, F: RecordFormat, W: TextOut + Drop>(
    alloc: Global,
    settings: &RunSettings,
    format: &mut F,
    input: &mut R,
    output: W,
    missing: &mut Missing,
) -> Printed<W, F::Fault>
    requires { F.venues format.old ≡ vec_len settings.now.feed.sessions }
    ensures { PrintsAsked
        (reading_of R.CaptureIn)
        (record { reads = F.reads; wants = F.wants; is_bad = F.is_bad; is_whole = F.is_whole })
        (output_asked
        (reading_of R.CaptureIn) (writing_of W.TextOut) settings.now)
        settings.now missing.old.is_watched input.old input.new format.old format.new
        output result.output missing.old.gaps.items missing.new.gaps.items
        (symbols_with missing.new.absent settings.now.feed.symbols.items) missing.new.ordinals
        result.late result.outcome }
{
    let config = config_of(settings);
    let timed = is_packet_input(&settings.input);
    match settings.output {
        RunOutput::Lines => match page_before(alloc, output) {
            Ok(page) => {
                let sink = TextSink::new(page);
                let replayed = replay_watched(alloc, &config.replay, format, input, sink, missing);
                Printed {
                    output: replayed.sink.into_writer(),
                    outcome: replayed.outcome,
                    late: 0,
                }
            }
            Err(output) => without_periods(without_memory(output)),
        },
        RunOutput::Bests(rows) => {
            let made = rows_before(alloc, rows, timed, output);
            without_periods(print_rows(alloc, &config, made, format, input, missing))
        }
        RunOutput::Periods(style) => {
            print_periods(alloc, &config, style, format, input, output, missing)
        }
        RunOutput::BestTimes(style) => {
            let made = best_times_before(alloc, &config, style, output);
            without_periods(print_rows(alloc, &config, made, format, input, missing))
        }
        RunOutput::Stats(rows) => {
            let form = StatsForm { rows, timed };
            without_periods(print_stats(alloc, &config, form, format, input, output, missing))
        }
        RunOutput::Gaps(rows) => {
            let made = gaps_before(alloc, &config, rows, output);
            without_periods(print_rows(alloc, &config, made, format, input, missing))
        }
    }
}
