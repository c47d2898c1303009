//! What the thread beside a run watches of it.
ghost use Rattle.std.specs.Prelude.{◌≡◌, ◌/◌, is_some};
ghost use Rattle.text_out.specs.Members.{writing_of};
ghost use Rattle.text_out.specs.StandardError.{SaysEach};
ghost use Rattle.run_watches.specs.GivenUps.{NotesGivenUp, giving_up_at, noted_texts};
ghost use Rattle.run_watches.specs.RunLines.{watched_gaps, watched_lines, watched_run};
ghost use Rattle.run_watches.specs.RunNews.{SaysRunEnd, SaysRunNews};

use crate::gap_watches::GapWatches;
use crate::line_watch::LineWatches;
use crate::listen_counts::ListenCounts;
use crate::metrics_server::{MetricsServer, RunSeen};
use crate::moment::Moment;
use crate::output_watch::OutputWatch;
use crate::venue_statuses::{AllFigures, NO_FIGURES, VenueStatuses, statuses_by};
use feed_types::{MAX_VENUES, MissingRange, VenueId};
use run_settings::VenueNames;
use socket_tables::DropTable;
use text_out::TextOut;
use venue_lines::VenueStatus;

/// The lines of a run, the gaps of its venues, what is printed of it, what is counted, if anything
/// is, and to whom that is served, if to anyone.
#[derive(Drop)]
pub struct RunWatches {
    lines: LineWatches,
    gaps: GapWatches,
    output: OutputWatch,
    counts: Option<ListenCounts>,
    metrics: Option<MetricsServer>,
    /// What stands for a venue in what is said and served.
    names: VenueNames,
}

impl RunWatches {
    /// These lines, gaps, output and counts, and this server. `names` is what stands for a venue in
    /// what is said and served.
    pub fn new(
        lines: LineWatches,
        gaps: GapWatches,
        output: OutputWatch,
        counts: Option<ListenCounts>,
        metrics: Option<MetricsServer>,
        names: VenueNames,
    ) -> RunWatches
        ensures { watched_run result ≡ record {
          lines = watched_lines lines;
          gaps = watched_gaps gaps;
          follows = output.follows;
          counted = is_some counts;
          names = names;
        } }
    {
        RunWatches {
            lines,
            gaps,
            output,
            counts,
            metrics,
            names,
        }
    }

    /// How many milliseconds after the beginning the next counts are due, if they ever are.
    pub fn counts_due_ms(&self) -> Option<u64> {
        match &self.counts {
            Some(counts) => Some(counts.due_ms()),
            None => None,
        }
    }

    /// Writes what is new of what is printed, and then of the lines, at this moment of the run.
    pub fn write_news<E: TextOut>(&mut self, moment: Moment, errors: &mut E)
        ensures run { watched_run self.new ≡ watched_run self.old }
        ensures news { SaysRunNews (writing_of E.TextOut)
            (watched_run self.old) errors.old errors.new }
    {
        self.output.write_news(moment.elapsed_ms, errors);
        self.lines.write_news(&self.names, moment, errors);
    }

    /// Writes the counts of each venue, where they are due. `status` returns what a venue has come
    /// to, or None where there is none.
    pub fn write_counts<S, E>(&mut self, moment: Moment, status: S, errors: &mut E)
    where
        S: Fn(VenueId) -> Option<VenueStatus>,
        E: TextOut,
        requires { S.IsAlwaysCallable status }
        ensures run { watched_run self.new ≡ watched_run self.old }
        ensures news { SaysRunNews (writing_of E.TextOut)
            (watched_run self.old) errors.old errors.new }
    {
        let lines = &self.lines;
        let gaps = &self.gaps;
        let elapsed_ms = moment.elapsed_ms;
        if let Some(counts) = &mut self.counts {
            if counts.due_ms() <= elapsed_ms {
                let drops = lines.drops();
                let figures = |venue: VenueId| {
                    let given_up = gaps.given_up(venue.index());
                    lines.figures(venue, status(venue), given_up, drops.as_ref())
                };
                counts.write_period(&self.names, moment, figures, errors);
            }
        }
    }

    /// Serves the metrics of a run that has gone on for so long to who asks for them, if to anyone.
    /// `status` returns what a venue has come to, or None where there is none.
    pub fn serve_metrics<S>(&mut self, elapsed_ms: u64, status: S)
    where
        S: Fn(VenueId) -> Option<VenueStatus>,
        requires { S.IsAlwaysCallable status }
        ensures { watched_run self.new ≡ watched_run self.old }
    {
        if let Some(metrics) = &mut self.metrics {
            let seen = RunSeen {
                elapsed_ms,
                lines: &self.lines,
                gaps: &self.gaps,
                output: &self.output,
                names: &self.names,
            };
            metrics.serve(&seen, status);
        }
    }

    /// Notes that a venue has given up these messages by itself, where the run gives up gaps, and
    /// says it. A look at its gaps comes after that.
    pub fn note_given_up<E: TextOut>(
        &mut self,
        elapsed_ms: u64,
        venue: VenueId,
        missing: MissingRange,
        errors: &mut E,
    )
        ensures run { watched_run self.new ≡ watched_run self.old }
        ensures news { SaysRunNews (writing_of E.TextOut)
            (watched_run self.old) errors.old errors.new }
        ensures rest { self.new ≡ record (self.old) { gaps = self.new.gaps } }
        ensures notes { NotesGivenUp self.old.gaps venue missing self.new.gaps }
        ensures says { SaysEach (writing_of E.TextOut)
            (noted_texts self.old.names (elapsed_ms / 1000) (giving_up_at self.old.gaps venue)
            missing) errors.old errors.new }
    {
        let names = &self.names;
        self.gaps
            .note_given_up(names, elapsed_ms, venue, missing, errors);
    }

    /// Looks at the gaps of the venues, says what is new of them and gives up what is due, as
    /// [`GapWatches::look`] does. `status` returns what a venue has come to, or None where there is
    /// none.
    pub fn look_at_gaps<S, K, E>(&mut self, elapsed_ms: u64, status: S, skip: K, errors: &mut E)
    where
        S: Fn(VenueId) -> Option<VenueStatus>,
        K: Fn(VenueId, u64) -> bool,
        E: TextOut,
        requires status { S.IsAlwaysCallable status }
        requires skip { K.IsAlwaysCallable skip }
        ensures run { watched_run self.new ≡ watched_run self.old }
        ensures news { SaysRunNews (writing_of E.TextOut)
            (watched_run self.old) errors.old errors.new }
    {
        let lines = &self.lines;
        let sent = |venue| lines.with_sent(venue, status(venue));
        self.gaps.look(&self.names, elapsed_ms, sent, skip, errors);
    }

    /// Returns what each venue has come to, with those requests alone that its lines have sent.
    /// `status` returns one's, or None where there is none.
    pub fn statuses<S: Fn(VenueId) -> Option<VenueStatus>>(&self, status: S) -> VenueStatuses
        requires { S.IsAlwaysCallable status }
    {
        statuses_by(|venue| self.lines.with_sent(venue, status(venue)))
    }

    /// What each venue has come to that has one of these statuses, with what is known of its lines.
    fn figures(&self, statuses: &VenueStatuses, drops: Option<&DropTable>) -> AllFigures {
        let mut figures = NO_FIGURES;
        for place in 0..MAX_VENUES {
            figures[place] = self.lines.figures(
                VenueId::at(place),
                statuses[place],
                self.gaps.given_up(place),
                drops,
            );
        }
        figures
    }

    /// Writes what was counted of the lines, and then the totals of all counts, where counts are
    /// asked for. The venues have these statuses.
    pub fn write_end<E: TextOut>(&self, moment: Moment, statuses: &VenueStatuses, errors: &mut E)
        ensures { SaysRunEnd (writing_of E.TextOut) (watched_run self.now) errors.old errors.new }
    {
        let drops = self.lines.drops();
        self.lines.write_totals(&self.names, &drops, errors);
        if let Some(counts) = &self.counts {
            let figures = self.figures(statuses, drops.as_ref());
            counts.write_totals(&self.names, moment, &figures, errors);
        }
    }
}
