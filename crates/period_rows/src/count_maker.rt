//! What counts the datagrams of each line in each period.
ghost use Rattle.std.specs.Prelude.{◌≡◌, ◌*◌, ◌≤◌, ◌++◌, [], OnErr, OnOk, Some};
ghost use Rattle.event_sinks.specs.SinkEvents.{timed_event, told_by};
ghost use Rattle.event_sinks.specs.TextPages.{FailsPage, TakesPage};
ghost use Rattle.report_rows.specs.PeriodLists.{over_with};
ghost use Rattle.report_rows.specs.RowSinks.{IsNewRowSink};
ghost use Rattle.report_rows.specs.RowTexts.{header_text};
ghost use Rattle.period_rows.specs.CountRows.{ArePeriodCounts, IsCounted, count_names, left_text, made_text, over_text, periods_text, count_state_of};
ghost use Rattle.period_rows.specs.CountStates.{counted_begin, late_by, own_begin, periods_by};

use crate::count_figures::{CountFigures, NO_LINES, count_in_period};
use crate::count_rows::{count_names, write_over, write_periods};
use crate::line_sequence::{LineSequence, take_sequences};
use crate::times::period_begin;
use event_sinks::{ReplayedEvent, SinkStop, TextPage};
use report_rows::{KeptPeriods, RowMaker, RowSink, ends_all};
use run_settings::{PeriodLength, PeriodStyle};
use text_out::TextOut;

/// What makes the rows of what lines brought in each period.
///
/// The rows of a period come once it is none of the 16 latest in which a datagram came, or the
/// capture is over: for each venue one of line A and one of line B.
#[derive(Drop)]
pub struct PeriodCounter {
    pub style: PeriodStyle,
    /// Two for each venue.
    pub lines: usize,
    pub sequences: [LineSequence; 32],
    pub periods: KeptPeriods<CountFigures>,
}

/// Returns when the period of a datagram began, where its time is known.
fn own_begin(length: PeriodLength, time: Option<u64>, event: &ReplayedEvent<'_>) -> Option<u64>
    ensures { result ≡ own_begin length (timed_event time (told_by event.now)) }
{
    match (event, time) {
        (ReplayedEvent::Packet { .. }, Some(time)) => Some(period_begin(length, time)),
        (ReplayedEvent::Refusal { .. }, Some(time)) => Some(period_begin(length, time)),
        _ => None,
    }
}

impl PeriodCounter {
    /// Counts nothing yet, of this many venues.
    pub fn new(style: PeriodStyle, venues: usize) -> PeriodCounter
        requires { venues ≤ 16 }
        ensures { ArePeriodCounts (record { style = style; lines = 2 * venues }) [] result }
    {
        PeriodCounter {
            style,
            lines: 2 * venues,
            sequences: [LineSequence::default(); 32],
            periods: KeptPeriods::new(),
        }
    }

    /// Returns how many datagrams came later than 16 periods: each counts in the earliest one that
    /// was kept.
    pub fn late(&self) -> u64
        ensures { result ≡ self.now.periods.late }
    {
        self.periods.late
    }
}

impl PeriodCounter {
    /// Writes the rows of all periods that are kept.
    fn end<W: TextOut>(&mut self, page: &mut TextPage<W>) -> Result<(), SinkStop>
        ensures took { OnOk result (TakesPage W.adds W.failures page.old
            (periods_text self.old.style.format self.old.lines self.old.periods.kept.items)
            page.new) }
        ensures failed { OnErr result (FailsPage W.adds W.failures page.old (page.old.text.items
            ++ periods_text self.old.style.format self.old.lines self.old.periods.kept.items)
            page.new) }
        ensures same { self.new ≡ record self.old { periods = self.new.periods } }
        ensures none { OnOk result (self.new.periods.kept.items ≡ []) }
        ensures late { self.new.periods.late ≡ self.old.periods.late }
    {
        let periods = self.periods.kept.as_slice();
        write_periods(page, self.style.format, self.lines, periods)?;
        self.periods.clear();
        Ok(())
    }

    /// Counts a datagram of the period that began at this time.
    fn count<W: TextOut>(
        &mut self,
        page: &mut TextPage<W>,
        begin: u64,
        event: &ReplayedEvent<'_>,
    ) -> Result<(), SinkStop>
        ensures took { OnOk result (TakesPage W.adds W.failures page.old
            (over_text self.old.style.format self.old.lines
            (over_with begin self.old.periods.kept.items)) page.new) }
        ensures failed { OnErr result (FailsPage W.adds W.failures page.old (page.old.text.items
            ++ over_text self.old.style.format self.old.lines
            (over_with begin self.old.periods.kept.items)) page.new) }
        ensures same { self.new ≡ record self.old { periods = self.new.periods } }
        ensures counts { OnOk result (self.new.periods.kept.items
            ≡ counted_begin begin self.old.sequences self.old.periods.kept.items
            (told_by event.now)) }
        ensures late { OnOk result (self.new.periods.late
            ≡ late_by (Some begin) (count_state_of self.old)) }
    {
        let entered = self.periods.enter(begin, &NO_LINES);
        write_over(page, &self.style.format, self.lines, &entered.over)?;
        let periods = self.periods.kept.as_mut_slice();
        count_in_period(periods, entered.place, &self.sequences, event);
        Ok(())
    }

    /// Counts a datagram whose time is known.
    fn count_any<W: TextOut>(
        &mut self,
        page: &mut TextPage<W>,
        begin: Option<u64>,
        event: &ReplayedEvent<'_>,
    ) -> Result<(), SinkStop>
        ensures took { OnOk result (TakesPage W.adds W.failures page.old
            (left_text self.old.style.format self.old.lines begin self.old.periods.kept.items)
            page.new) }
        ensures failed { OnErr result (FailsPage W.adds W.failures page.old (page.old.text.items
            ++ left_text self.old.style.format self.old.lines begin
            self.old.periods.kept.items) page.new) }
        ensures same { self.new ≡ record self.old { periods = self.new.periods } }
        ensures counts { OnOk result (self.new.periods.kept.items
            ≡ periods_by begin (count_state_of self.old) (told_by event.now)) }
        ensures late { OnOk result (self.new.periods.late
            ≡ late_by begin (count_state_of self.old)) }
    {
        match begin {
            Some(begin) => self.count(page, begin, event),
            None => Ok(()),
        }
    }

    /// Takes an event.
    fn step<W: TextOut>(
        &mut self,
        page: &mut TextPage<W>,
        time: Option<u64>,
        event: &ReplayedEvent<'_>,
    ) -> Result<(), SinkStop>
        ensures took { OnOk result (TakesPage W.adds W.failures page.old
            (made_text self.old (timed_event time (told_by event.now))) page.new) }
        ensures failed { OnErr result (FailsPage W.adds W.failures page.old (page.old.text.items
            ++ made_text self.old (timed_event time (told_by event.now))) page.new) }
        ensures counts { OnOk result (IsCounted self.old
            (timed_event time (told_by event.now)) self.new) }
    {
        if ends_all(event) {
            return self.end(page);
        }
        let begin = own_begin(self.style.length, time, event);
        self.count_any(page, begin, event)?;
        take_sequences(&mut self.sequences, event);
        Ok(())
    }
}

/// Makes the sink of the rows of what lines brought in each period.
pub fn new_count_rows<W>(
    page: TextPage<W>,
    style: PeriodStyle,
    venues: usize,
) -> RowSink<W, PeriodCounter>
    requires empty { page.text.items ≡ [] }
    requires few { venues ≤ 16 }
    ensures sink { IsNewRowSink page.writer result.maker
        (header_text style.format (count_names style.format)) result }
    ensures counts { ArePeriodCounts
        (record { style = style; lines = 2 * venues }) [] result.maker }
{
    let format = style.format;
    RowSink::new(
        page,
        PeriodCounter::new(style, venues),
        format,
        &count_names(format),
    )
}

impl RowMaker for PeriodCounter {
    ghost use Rattle.period_rows.specs.CountRows.{ArePeriodCounts, MakesCounts, TellsCounts, count_rows_with};
    ghost use Rattle.report_rows.specs.RowHistoryLaws.{makes_more_history, makes_no_history, tells_after_history, tells_no_history};

    ghost tells = { TellsCounts };

    ghost makes = { MakesCounts };

    fn make<W: TextOut>(
        &mut self,
        page: &mut TextPage<W>,
        time: Option<u64>,
        event: &ReplayedEvent<'_>,
    ) -> Result<(), SinkStop> {
        self.step(page, time, event)
    }

    fn pass(&mut self, _time: Option<u64>, event: &ReplayedEvent<'_>) {
        take_sequences(&mut self.sequences, event);
    }

    ghost makes_none = { makes_no_history ArePeriodCounts count_rows_with };

    ghost makes_more = { makes_more_history ArePeriodCounts count_rows_with };

    ghost tells_none = { tells_no_history ArePeriodCounts count_rows_with };

    ghost tells_after = { tells_after_history ArePeriodCounts count_rows_with };
}
