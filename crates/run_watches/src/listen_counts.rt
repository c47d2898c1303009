//! The counts that are printed while a run goes on, and at its end.
ghost use Rattle.std.specs.Prelude.{◌≡◌, is_some};
ghost use Rattle.text_out.specs.Members.{writing_of};
ghost use Rattle.run_watches.specs.RunNews.{SaysCounts};

use crate::counts_json::{period_json, totals_json};
use crate::counts_text::{period_text, table_text};
use crate::figures_since::figures_since;
use crate::moment::Moment;
use crate::venue_statuses::{AllFigures, NO_FIGURES};
use feed_types::{MAX_VENUES, VenueId};
use run_metrics::VenueFigures;
use run_settings::{ListenSettings, ListenStats, StatsFormat, VenueNames};
use std::alloc::{AllocError, Global};
use text_out::{TextOut, write_stderr};

/// When counts are printed, and what each venue had come to when its last line was.
#[derive(Drop)]
pub struct ListenCounts {
    alloc: Global,
    format: StatsFormat,
    period_ms: u64,
    due_ms: u64,
    last_written: AllFigures,
}

impl ListenCounts {
    /// The counts that the settings ask for, if they do.
    pub fn of(alloc: Global, settings: &ListenSettings) -> Option<ListenCounts>
        ensures { is_some result ≡ is_some settings.now.stats }
    {
        match settings.stats {
            Some(stats) => Some(ListenCounts::each(alloc, stats)),
            None => None,
        }
    }

    /// Counts that are printed after each period of these.
    fn each(alloc: Global, stats: ListenStats) -> ListenCounts {
        let period_ms = u64::from(stats.seconds) * 1_000;
        ListenCounts {
            alloc,
            format: stats.format,
            period_ms,
            due_ms: period_ms,
            last_written: NO_FIGURES,
        }
    }

    /// How many milliseconds after the beginning the next lines are due.
    pub fn due_ms(&self) -> u64 {
        self.due_ms
    }

    /// The line of a venue, of what was counted in a period.
    fn period_line(
        &self,
        names: &VenueNames,
        moment: Moment,
        since: &VenueFigures,
    ) -> Result<String, AllocError> {
        match self.format {
            StatsFormat::Table => period_text(self.alloc, names, moment.second(), since),
            StatsFormat::Json => period_json(self.alloc, names, moment, since),
        }
    }

    /// What was counted of all venues.
    fn totals(
        &self,
        names: &VenueNames,
        moment: Moment,
        figures: &AllFigures,
    ) -> Result<String, AllocError> {
        match self.format {
            StatsFormat::Table => table_text(self.alloc, names, figures),
            StatsFormat::Json => totals_json(self.alloc, names, moment, figures),
        }
    }

    /// Writes the line of each venue, of what was counted since its line before, and has the next
    /// lines due at the next period's end. `figures` returns what a venue has come to, or None
    /// where there is none. A line is left out where memory for it is refused.
    #[tactic(auto, using(crate::specs::RunNewsLaws::no_counts, crate::proofs::Counts::more_counts))]
    pub fn write_period<F, E>(
        &mut self,
        names: &VenueNames,
        moment: Moment,
        figures: F,
        errors: &mut E,
    )
    where
        F: Fn(VenueId) -> Option<VenueFigures>,
        E: TextOut,
        requires { F.IsAlwaysCallable figures }
        ensures { SaysCounts (writing_of E.TextOut) errors.old errors.new }
    {
        for place in 0..MAX_VENUES {
            self.write_any(names, moment, place, figures(VenueId::at(place)), errors);
        }
        let periods = moment.elapsed_ms / self.period_ms.max(1);
        self.due_ms = periods.saturating_add(1).saturating_mul(self.period_ms);
    }

    /// Writes the line of the venue at this place, if there is one.
    #[tactic(auto, using(crate::specs::RunNewsLaws::no_counts))]
    fn write_any<E: TextOut>(
        &mut self,
        names: &VenueNames,
        moment: Moment,
        place: usize,
        figures: Option<VenueFigures>,
        errors: &mut E,
    )
        ensures { SaysCounts (writing_of E.TextOut) errors.old errors.new }
    {
        if let Some(figures) = figures {
            self.write_venue(names, moment, place, &figures, errors);
        }
    }

    /// Writes the line of the venue at this place, which has come to this.
    #[tactic(auto, using(crate::specs::RunNewsLaws::no_counts))]
    fn write_venue<E: TextOut>(
        &mut self,
        names: &VenueNames,
        moment: Moment,
        place: usize,
        figures: &VenueFigures,
        errors: &mut E,
    )
        ensures { SaysCounts (writing_of E.TextOut) errors.old errors.new }
    {
        if let Some(written) = self.last_written.get_mut(place) {
            let since = figures_since(figures, written.as_ref());
            *written = Some(*figures);
            if let Ok(line) = self.period_line(names, moment, &since) {
                write_stderr(line.as_str(), errors);
            }
        }
    }

    /// Writes what was counted of all venues, in the form of the counts. Where memory for it is
    /// refused, it is left out.
    #[tactic(auto, using(crate::specs::RunNewsLaws::no_counts))]
    pub fn write_totals<E: TextOut>(
        &self,
        names: &VenueNames,
        moment: Moment,
        figures: &AllFigures,
        errors: &mut E,
    )
        ensures { SaysCounts (writing_of E.TextOut) errors.old errors.new }
    {
        if let Ok(totals) = self.totals(names, moment, figures) {
            write_stderr(totals.as_str(), errors);
        }
    }
}
