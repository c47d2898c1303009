//! The monitor of a run, in a thread beside its own: it says what is new of the lines and of gaps
//! and what was counted, gives up the gaps that are to be given up, serves metrics, and stops the
//! run where it is to end. It never waits for who reads the rows.
ghost use Rattle.std.specs.Prelude.{◌≡◌};
ghost use Rattle.text_out.specs.Members.{writing_of};
ghost use Rattle.run_watches.specs.RunLines.{watched_run};
ghost use Rattle.run_watches.specs.RunNews.{SaysOfRun, SaysRunEnd, SaysRunNews};
ghost use Rattle.udp_listening.specs.ItchReports.{HasLooked, SaysGivenUpAt, SaysLook, reported_at};

use crate::itch_statuses::ItchStatuses;
use crate::output_state::OutputState;
use crate::run_time::RunTime;
use feed_types::{Anything, MAX_VENUES, VenueId};
use itch_lines::VenueShare;
use line_recordings::SkipRecords;
use live_feed::{FeedName, RunView, Watcher};
use run_watches::RunWatches;
use std::sync::Wait;
use std::thread::Threads;
use std::time::Clock;
use text_out::TextOut;

/// How long the monitor waits between two looks at a run, in milliseconds.
const WAIT_MS: u64 = 10;

/// The monitor of a run: by its time it knows when the run is to end, and what it says is of what
/// it watches.
#[derive(Drop)]
pub struct RunMonitor<C, E> {
    time: RunTime<C>,
    pub errors: E,
    pub watches: RunWatches,
    /// How standard output does.
    output: OutputState,
    /// Where the skips are handed over, if they are recorded.
    skips: SkipRecords,
    /// What the venues in ITCH show.
    itch: ItchStatuses<VenueShare>,
    /// Whether a run that is ended from outside waits no longer for who reads its rows.
    leaves_rows: bool,
    has_stopped: bool,
}

impl<C, E> RunMonitor<C, E> {
    /// Returns the monitor of a run that begins now. Where the run is ended from outside and
    /// `leaves_rows`, it doesn't wait for ever for who reads its rows. It hands its skips over to
    /// `skips`. Of its venues in ITCH it shows what these show.
    pub fn new(
        time: RunTime<C>,
        errors: E,
        watches: RunWatches,
        output: OutputState,
        leaves_rows: bool,
        skips: SkipRecords,
        itch: ItchStatuses<VenueShare>,
    ) -> RunMonitor<C, E>
        ensures errors { result.errors ≡ errors }
        ensures watches { result.watches ≡ watches }
    {
        RunMonitor {
            time,
            errors,
            watches,
            output,
            skips,
            itch,
            leaves_rows,
            has_stopped: false,
        }
    }
}

impl<C: Clock + Drop, E: TextOut + Drop> RunMonitor<C, E> {
    /// How long to wait at most until the next look: not past the time at which counts are due.
    fn wait_ms(&self) -> u64 {
        match self.watches.counts_due_ms() {
            Some(due_ms) => WAIT_MS.min(due_ms.saturating_sub(self.time.passed_ms())),
            None => WAIT_MS,
        }
    }

    /// Stops the run where it is to end, or the output has failed, and hasn't been stopped yet.
    fn stop<N: FeedName>(&mut self, run: &RunView<'_, Anything, N>)
        ensures errors { self.new.errors ≡ self.old.errors }
        ensures watches { self.new.watches ≡ self.old.watches }
    {
        let is_over = self.time.is_over();
        if is_over && self.leaves_rows {
            self.output.end();
        }
        if (is_over || self.output.has_failed()) && !self.has_stopped {
            self.has_stopped = true;
            run.stop();
        }
    }

    /// Says which gap a venue in ITCH had given up at the last look, unless that was said before.
    fn say_given_up_at(&mut self, venue: VenueId, elapsed_ms: u64)
        ensures run { watched_run self.new.watches ≡ watched_run self.old.watches }
        ensures news { SaysRunNews (writing_of E.TextOut)
            (watched_run self.old.watches) self.old.errors self.new.errors }
        ensures itch { self.new.itch ≡ record self.old.itch {
          reported = reported_at venue self.old.itch.seen self.old.itch.reported;
        } }
        ensures says { SaysGivenUpAt (writing_of E.TextOut) elapsed_ms venue self.old self.new }
    {
        let Some(missing) = self.itch.take_given_up(venue) else {
            return;
        };
        let errors = &mut self.errors;
        self.watches
            .note_given_up(elapsed_ms, venue, missing, errors);
    }

    /// Looks at the venues in ITCH, and says which gaps they have given up since the last look.
    fn say_given_up(&mut self, elapsed_ms: u64)
        ensures run { watched_run self.new.watches ≡ watched_run self.old.watches }
        ensures news { SaysRunNews (writing_of E.TextOut)
            (watched_run self.old.watches) self.old.errors self.new.errors }
        ensures looked { HasLooked 16 self.old.itch self.new.itch }
        ensures says { SaysLook (writing_of E.TextOut) elapsed_ms 16 self.old self.new }
    {
        self.itch.look();
        for place in 0..MAX_VENUES {
            self.say_given_up_at(VenueId::at(place), elapsed_ms);
        }
    }

    /// Writes the counts that are due, says what is new of gaps, and gives up those that are due,
    /// unless the run is over: nothing is said of what comes then.
    fn watch<N: FeedName, R: Wait>(&mut self, rt: &R, run: &RunView<'_, Anything, N>)
        ensures run { watched_run self.new.watches ≡ watched_run self.old.watches }
        ensures news { SaysRunNews (writing_of E.TextOut)
            (watched_run self.old.watches) self.old.errors self.new.errors }
    {
        if run.is_over() {
            return;
        }
        let moment = self.time.moment();
        self.say_given_up(moment.elapsed_ms);
        let errors = &mut self.errors;
        let skips = &self.skips;
        let itch = &self.itch;
        self.watches.write_counts(
            moment,
            |venue| itch.over(venue, run.status(rt, venue).ok()),
            errors,
        );
        self.watches.look_at_gaps(
            moment.elapsed_ms,
            |venue| itch.over(venue, run.status(rt, venue).ok()),
            |venue, number| {
                !itch.has(venue) && skips.took(venue, run.skip_to(rt, venue, number).ok(), number)
            },
            errors,
        );
    }

    /// Serves the metrics of the run.
    fn serve<N: FeedName, R: Wait>(&mut self, rt: &R, run: &RunView<'_, Anything, N>)
        ensures errors { self.new.errors ≡ self.old.errors }
        ensures run { watched_run self.new.watches ≡ watched_run self.old.watches }
    {
        let elapsed_ms = self.time.passed_ms();
        let itch = &self.itch;
        self.watches.serve_metrics(elapsed_ms, |venue| {
            itch.over(venue, run.status(rt, venue).ok())
        });
    }

    /// Says what is new of the lines, and of the streams.
    fn say_news(&mut self)
        ensures run { watched_run self.new.watches ≡ watched_run self.old.watches }
        ensures news { SaysRunNews (writing_of E.TextOut)
            (watched_run self.old.watches) self.old.errors self.new.errors }
    {
        let moment = self.time.moment();
        self.watches.write_news(moment, &mut self.errors);
    }

    /// Looks at the run once, does what is due, and waits. Returns whether all is done: the run is
    /// over, and its rows are printed.
    fn turn<N: FeedName, R: Wait>(&mut self, rt: &R, run: &RunView<'_, Anything, N>) -> bool
        ensures run { watched_run self.new.watches ≡ watched_run self.old.watches }
        ensures news { SaysRunNews (writing_of E.TextOut)
            (watched_run self.old.watches) self.old.errors self.new.errors }
    {
        let is_done = run.is_over() && self.output.is_done();
        self.say_news();
        if is_done {
            return true;
        }
        self.stop(run);
        self.watch(rt, run);
        self.serve(rt, run);
        let most_ms = self.wait_ms();
        self.time.wait(most_ms);
        false
    }

    /// Looks at what the venues of a run that is over have come to, and says what was counted.
    fn close<N: FeedName, R: Wait>(&mut self, rt: &R, run: &RunView<'_, Anything, N>)
        ensures { SaysRunEnd (writing_of E.TextOut)
            (watched_run self.old.watches) self.old.errors self.new.errors }
    {
        self.itch.look();
        let itch = &self.itch;
        let statuses = self
            .watches
            .statuses(|venue| itch.over(venue, run.status(rt, venue).ok()));
        let moment = self.time.moment();
        self.watches.write_end(moment, &statuses, &mut self.errors);
    }

    /// Watches the run until it is over and its rows are printed.
    fn watch_run<N: FeedName, R: Wait>(
        self,
        rt: &R,
        run: &RunView<'_, Anything, N>,
    ) -> RunMonitor<C, E>
        ensures { SaysOfRun (writing_of E.TextOut)
            (watched_run self.watches) self.errors result.errors }
    {
        let mut monitor = self;
        for _ in rt.forever() {
            if monitor.turn(rt, run) {
                break;
            }
        }
        monitor.close(rt, run);
        monitor
    }
}

impl<N, C, E> Watcher<Anything, N> for RunMonitor<C, E>
where
    N: FeedName,
    C: Clock + Drop,
    E: TextOut + Drop,
{
    ghost use Rattle.udp_listening.specs.Monitors.{HasMonitored};

    ghost watches = { λ before after. HasMonitored
        (writing_of E.TextOut) before after };

    fn watch<R: Threads + Wait + Sync>(
        self,
        rt: &R,
        run: &RunView<'_, Anything, N>,
    ) -> RunMonitor<C, E> {
        self.watch_run(rt, run)
    }
}
