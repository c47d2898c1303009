//! Listening on live lines, until all have ended.
ghost use Rattle.std.specs.Prelude.{◌≡◌, ◌≤◌, IfOk, OnOk, length, map, vec_len};
ghost use Rattle.text_out.specs.Members.{writing_of};
ghost use Rattle.udp_listening.specs.Listening.{HasListenedOn};
ghost use Rattle.udp_listening.specs.NamedNext.{AreNextOf};
ghost use Rattle.udp_listening.specs.Reports.{IsReportOfRun, noted_symbols};
ghost use Rattle.run_watches.specs.RunLines.{watched_run};
ghost use Rattle.run_watches.specs.RunNews.{SaysOfRun};
ghost use Rattle.udp_listening.specs.Settings.{IsFeedOf, feed_setting, most_logged};
ghost use Rattle.venue_lines.specs.Starts.{none_next};

use crate::console::{Console, MOST};
use crate::listen_report::{ListenReport, report_of};
use crate::next_sessions::name_all;
use crate::row_follower::RowFollower;
use crate::run_monitor::RunMonitor;
use crate::sources::{ListenSource, ListenTasks};
use best_rows::has_times;
use feed_types::{Anything, FeedConfig};
use filter_terms::{Filter, Strategy, Terms};
use live_feed::{
    CoreFault, FeedEnd, FeedName, FeedTask, JournalFault, LiveFeed, RunRules, SettleFault,
    Subscription, WholeFault,
};
use run_notes::AbsentList;
use run_settings::ListenSettings;
use std::alloc::{AllocError, Global};
use std::mem;
use std::rt::Clock;
use std::sync::Wait;
use std::thread::Threads;
use text_out::TextOut;

/// The number of items that a venue's lane, and a subscriber's, holds.
const LANE: u32 = 1_024;

/// Why listening ended without a report.
#[derive(Clone, Copy, Debug, PartialEq, Eq)]
pub enum ListenFault {
    /// Memory was refused.
    NoMemory,
    /// The feed couldn't be settled, or a venue in ITCH couldn't say what it has come to. No run
    /// meets this.
    Unsettled,
}

impl From<AllocError> for ListenFault {
    fn from(_error: AllocError) -> ListenFault {
        ListenFault::NoMemory
    }
}

/// The most notices of the log: as many as the journal's entries, unless they are printed as they
/// come and forgotten.
fn most_logged(settings: &ListenSettings) -> u32
    ensures { result ≡ most_logged settings.now }
{
    if settings.follow {
        u32::MAX
    } else {
        settings.feed.journal
    }
}

/// The configuration of the feed.
fn config_of(settings: &ListenSettings) -> FeedConfig<'_>
    ensures { IsFeedOf settings.now result }
{
    FeedConfig {
        sessions: settings.feed.sessions.as_slice(),
        symbols: settings.feed.symbols.as_slice(),
        window: settings.feed.window,
        lane: LANE,
        journal: settings.feed.journal,
        log: most_logged(settings),
    }
}

/// How many changes at most wait to be printed, where they are printed as they come: those that the
/// journal has room for, which are twice as many as the subscriber may be behind and one for each
/// symbol; those in the subscriber's lane; and those that it has taken, the one that it has waited
/// for among them.
fn most_unprinted(settings: &ListenSettings) -> usize {
    let kept = settings.kept.unwrap_or(0) as usize;
    kept * 2 + settings.feed.symbols.len() + LANE as usize + MOST + 1
}

/// The feed of the settings, to which nothing came yet, with a venue for each session. Where best
/// lines are printed as they come it keeps as many changes as its subscriber may be behind, else
/// all.
fn untimed_feed(alloc: Global, settings: &ListenSettings) -> Result<LiveFeed<Anything>, CoreFault>
    ensures setting { IfOk result (λ feed. feed.setting ≡ feed_setting settings.now) }
    ensures venues { IfOk result (λ feed. length feed.venues
        ≡ vec_len settings.now.feed.sessions) }
    ensures next { IfOk result (λ feed. feed.next
        ≡ none_next (vec_len settings.now.feed.sessions)) }
    ensures few { OnOk result (vec_len settings.now.feed.sessions ≤ 16) }
{
    let config = config_of(settings);
    match settings.kept {
        Some(kept) => LiveFeed::keeping(alloc, &config, kept),
        None => LiveFeed::new(alloc, &config),
    }
}

/// The same feed, which keeps the times of changes where rows have them, and whose venues' first
/// sessions are followed by these.
pub fn feed_of(alloc: Global, settings: &ListenSettings) -> Result<LiveFeed<Anything>, CoreFault>
    ensures setting { IfOk result (λ feed. feed.setting ≡ feed_setting settings.now) }
    ensures venues { IfOk result (λ feed. length feed.venues
        ≡ vec_len settings.now.feed.sessions) }
    ensures next { IfOk result (λ feed. AreNextOf settings.now feed.next) }
{
    let mut feed = untimed_feed(alloc, settings)?;
    let venues = settings.feed.sessions.len();
    if name_all(alloc, &mut feed, venues, settings.next.as_slice()).is_err() {
        return Err(CoreFault::NoMemory);
    }
    if !has_times(settings.format) {
        return Ok(feed);
    }
    match feed.keep_times(alloc, most_unprinted(settings)) {
        Ok(()) => Ok(feed),
        Err(_) => Err(CoreFault::NoMemory),
    }
}

/// The end of listening: a report, or why there is none, and where the program prints.
#[derive(Drop)]
pub struct Listened<C, W, E> {
    /// The report, or why there is none.
    pub outcome: Result<ListenReport, ListenFault>,
    /// Standard output.
    pub console: Console<C, W>,
    /// Standard error.
    pub errors: E,
}

/// How the lines of the settings are run.
fn rules_of(settings: &ListenSettings) -> RunRules {
    RunRules {
        request_after_ms: u64::from(settings.request_wait()),
        join: settings.join,
    }
}

/// The fault of listening where the feed has no report.
fn fault_of(fault: WholeFault) -> ListenFault {
    match fault {
        WholeFault::NoMemory
        | WholeFault::Subscriber(JournalFault::NoMemory)
        | WholeFault::Unsettled(SettleFault::NoMemory) => ListenFault::NoMemory,
        _ => ListenFault::Unsettled,
    }
}

/// Runs the settings' feed over these lines until all have ended, with one subscriber, which wants
/// every change, and settles it. The follower polls that subscriber in the calling thread; the
/// monitor has a thread of its own.
pub fn run_feed<N, R, C, W, E>(
    rt: &R,
    alloc: Global,
    settings: &ListenSettings,
    feed: LiveFeed<Anything>,
    lines: ListenTasks<C>,
    follower: RowFollower<C, W>,
    monitor: RunMonitor<C, E>,
) -> Listened<C, W, E>
where
    N: FeedName + Send + Sync,
    R: Threads + Wait + Sync,
    C: Clock + Drop + Send,
    W: TextOut + Drop,
    E: TextOut + Drop + Send,
    requires lanes { feed ≡ N.lanes }
    requires unchanged { follower.console.unchanged ≡ noted_symbols settings.now }
    ensures listened { HasListenedOn (writing_of W.TextOut)
        follower.console result.outcome result.console }
    ensures run { IfOk result.outcome (IsReportOfRun N settings.now N.lanes
        lines.tasks.items (map (λ share. share.venue) lines.itch.items)) }
    ensures says { SaysOfRun (writing_of E.TextOut)
        (watched_run monitor.watches) monitor.errors result.errors }
{
    let subscription = Subscription {
        filter: Filter::of(Terms::All),
        strategy: Strategy::holding(),
    };
    let ListenTasks { tasks, itch } = lines;
    let task = FeedTask {
        lines: tasks,
        attended: Some(subscription),
        subscriptions: Vec::new(alloc),
        rules: rules_of(settings),
    };
    let FeedEnd {
        outcome,
        attendant,
        watcher,
    } = feed.run_whole::<N, ListenSource<C>, RowFollower<C, W>, RunMonitor<C, E>, R>(
        rt, alloc, task, follower, monitor,
    );
    let mut console = attendant.console;
    let unchanged = mem::replace(&mut console.unchanged, AbsentList::none(alloc));
    let outcome = match outcome {
        Ok(whole) => report_of(alloc, settings, whole, unchanged, itch.as_slice()),
        Err(fault) => Err(fault_of(fault)),
    };
    Listened {
        outcome,
        console,
        errors: watcher.errors,
    }
}
