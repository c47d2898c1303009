//! The runs that the options of `replay` and of `stats` give.
ghost use Rattle.std.specs.Prelude.{◌≡◌, ◌≤◌, IfOk, codes, is_some, option_map, unwrap_or};
ghost use Rattle.clap.specs.Matches.{found_of};
ghost use Rattle.clap.specs.Walk.{first_of, one_of, rows_of};
ghost use Rattle.run_settings.specs.Lists.{AreOfVenues};
ghost use Rattle.run_settings.specs.NextSessions.{FollowVenues};
ghost use Rattle.run_settings.specs.RunInputs.{captured_lines_in};
ghost use Rattle.command_words.specs.BestFormats.{replay_output_in};
ghost use Rattle.command_words.specs.CapturedLines.{ReadsInput};
ghost use Rattle.command_words.specs.NextSessions.{ReadsNextSessions};
ghost use Rattle.command_words.specs.OptionValues.{is_flag_set, list_in, number_given};
ghost use Rattle.command_words.specs.Readings.{mapped};
ghost use Rattle.command_words.specs.RunRequests.{ReadsReplay, ReadsRunOf, ReadsSkips, ReadsStats, ReadsStatsOutput, ReadsStyled, replay_journal};
ghost use Rattle.command_words.specs.SkipRules.{skip_rule_by, skips_in};
ghost use Rattle.command_words.specs.SpanWords.{ReadsSpan};

use crate::best_format::read_replay_output;
use crate::captured_lines::read_input;
use crate::feed_words::feed_of;
use crate::limits::DEFAULT_COUNT;
use crate::named_output::read_venues;
use crate::next_sessions::read_next_sessions;
use crate::option_values::{flag_of, given_text, number_of, number_or, text_of};
use crate::refusal::Refusal;
use crate::span_words::read_span;
use crate::stats_output::{bests_by, read_counted};
use crate::time_style::read_style;
use clap::ArgMatches;
use run_settings::{
    FeedSettings, NextSession, RunInput, RunOutput, RunSettings, SkipRule, TimeSpan,
};
use std::alloc::Global;

/// Returns the rule for gaps by the two flags. To skip gaps is to join, too.
fn skip_rule_by(join: bool, skip_gaps: bool) -> SkipRule
    ensures { result ≡ skip_rule_by join skip_gaps }
{
    if skip_gaps {
        SkipRule::Gaps
    } else if join {
        SkipRule::Join
    } else {
        SkipRule::Never
    }
}

/// Returns the rule for gaps by the flags and the number of milliseconds after which they are given
/// up, if it is given, where the input has times.
pub fn skips_in(
    join: bool,
    skip_gaps: bool,
    after: Option<u32>,
    lines: Option<&str>,
) -> Result<SkipRule, Refusal>
    ensures { result ≡ skips_in join skip_gaps after
        (option_map (λ list. list.now) lines.entry) }
{
    match after {
        None => Ok(skip_rule_by(join, skip_gaps)),
        Some(_) if skip_gaps => Err(Refusal::SkipGapsWithSkipAfter),
        Some(_) if lines.is_none() => Err(Refusal::SkipAfterWithoutLines),
        Some(milliseconds) => Ok(SkipRule::After(milliseconds)),
    }
}

/// Returns the rule for gaps that the options give.
fn skips_of(run: &ArgMatches<'_>) -> Result<SkipRule, Refusal>
    ensures { ReadsSkips (rows_of (found_of run.now)) result }
{
    skips_in(
        flag_of(run, "join"),
        flag_of(run, "skip-gaps"),
        number_of(run, "skip-after"),
        given_text(run, "lines"),
    )
}

/// Returns the sessions that follow the first ones of `venues` venues.
pub fn next_sessions_of(
    alloc: Global,
    run: &ArgMatches<'_>,
    venues: usize,
) -> Result<Vec<NextSession>, Refusal>
    requires { venues ≤ 16 }
    ensures reads { ReadsNextSessions
        (is_some (first_of (codes "lines") (rows_of (found_of run.now))))
        (list_in (rows_of (found_of run.now))) venues (mapped (λ next. next.items) result) }
    ensures venues { IfOk result (λ next. FollowVenues venues next.items) }
{
    let chained = given_text(run, "lines").is_some();
    read_next_sessions(alloc, text_of(run, "sessions"), chained, venues)
}

/// Returns the input for `venues` venues that the options give: with `--lines` a packet capture.
pub fn input_of(alloc: Global, run: &ArgMatches<'_>, venues: usize) -> Result<RunInput, Refusal>
    requires { venues ≤ 16 }
    ensures reads { ReadsInput (first_of (codes "lines") (rows_of (found_of run.now))) venues
        result }
    ensures venues { IfOk result (λ input. AreOfVenues venues (captured_lines_in input)) }
{
    read_input(alloc, given_text(run, "lines"), venues)
}

/// Returns the output that the options of `stats` ask for, but for its style.
fn stats_output_of(stats: &ArgMatches<'_>) -> Result<RunOutput, Refusal>
    ensures { ReadsStatsOutput (rows_of (found_of stats.now)) result }
{
    let counted = read_counted(
        flag_of(stats, "gaps"),
        given_text(stats, "every"),
        given_text(stats, "format"),
        given_text(stats, "lines"),
    )?;
    bests_by(flag_of(stats, "bests"), counted)
}

/// Returns this output of `venues` venues, 16 at most, with times in the style and with the names
/// that the options give.
pub fn styled_of(
    alloc: Global,
    run: &ArgMatches<'_>,
    plain: RunOutput,
    venues: usize,
) -> Result<RunOutput, Refusal>
    requires { venues ≤ 16 }
    ensures { ReadsStyled (rows_of (found_of run.now)) venues plain result }
{
    let styled = read_style(plain, given_text(run, "times"), given_text(run, "lines"))?;
    read_venues(alloc, styled, given_text(run, "venues"), venues)
}

/// Returns the span of time in which events lie that this output is of.
pub fn span_of(run: &ArgMatches<'_>, output: &RunOutput) -> Result<TimeSpan, Refusal>
    ensures { ReadsSpan output.now
        (first_of (codes "from") (rows_of (found_of run.now)))
        (first_of (codes "to") (rows_of (found_of run.now)))
        (first_of (codes "lines") (rows_of (found_of run.now))) result }
{
    read_span(
        output,
        given_text(run, "from"),
        given_text(run, "to"),
        given_text(run, "lines"),
    )
}

/// Returns the run of this feed, whose output is `plain` but for its style.
fn run_of(
    alloc: Global,
    run: &ArgMatches<'_>,
    feed: FeedSettings,
    gaps: bool,
    plain: RunOutput,
) -> Result<RunSettings, Refusal>
    ensures { ReadsRunOf (rows_of (found_of run.now)) feed gaps plain result }
{
    let output = styled_of(alloc, run, plain, feed.sessions.len())?;
    let input = input_of(alloc, run, feed.sessions.len())?;
    let span = span_of(run, &output)?;
    let skips = skips_of(run)?;
    let next_sessions = next_sessions_of(alloc, run, feed.sessions.len())?;
    Ok(RunSettings {
        feed,
        next_sessions,
        gaps,
        skips,
        input,
        output,
        span,
    })
}

/// Returns the number of entries for which a replay's journal has room: as many as the option says,
/// by default the most with `--lines` or `--best-only`.
fn replay_journal(replay: &ArgMatches<'_>) -> u32
    ensures { result ≡ unwrap_or (number_given (one_of (codes "journal")
        (rows_of (found_of replay.now)))) (replay_journal (rows_of (found_of replay.now))) }
{
    let is_ours = flag_of(replay, "best-only") || given_text(replay, "lines").is_some();
    number_or(
        replay,
        "journal",
        if is_ours { u32::MAX } else { DEFAULT_COUNT },
    )
}

/// Returns the settings that the options of `replay` give.
pub fn replay_of(alloc: Global, replay: &ArgMatches<'_>) -> Result<RunSettings, Refusal>
    ensures { ReadsReplay (rows_of (found_of replay.now)) result }
{
    let feed = feed_of(alloc, replay, replay_journal(replay))?;
    let plain = read_replay_output(flag_of(replay, "best-only"), given_text(replay, "format"))?;
    run_of(alloc, replay, feed, flag_of(replay, "gaps"), plain)
}

/// Returns the settings that the options of `stats` give. No gap line is printed, and the journal's
/// entries, which take no memory, have the most room.
pub fn stats_of(alloc: Global, stats: &ArgMatches<'_>) -> Result<RunSettings, Refusal>
    ensures { ReadsStats (rows_of (found_of stats.now)) result }
{
    let feed = feed_of(alloc, stats, u32::MAX)?;
    let plain = stats_output_of(stats)?;
    run_of(alloc, stats, feed, false, plain)
}
