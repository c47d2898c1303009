//! What makes the rows of how long national bests stood in each period.
ghost use Rattle.std.specs.Prelude.{◌≡◌, ◌++◌, ℕ, List, [], IfOk, OnErr, OnOk, false, true, unwrap_or};
ghost use Rattle.event_sinks.specs.SinkEvents.{timed_event, told_by};
ghost use Rattle.event_sinks.specs.TextPages.{FailsPage, TakesPage};
ghost use Rattle.report_rows.specs.RowSinks.{IsNewRowSink};
ghost use Rattle.report_rows.specs.RowTexts.{header_text};
ghost use Rattle.period_rows.specs.BestHolding.{IsNewTable};
ghost use Rattle.period_rows.specs.BestMakers.{AreBests, IsLiveStep, IsPassed, IsStepped, period_at_hand, best_made_text, live_text, over_at};
ghost use Rattle.period_rows.specs.BestRows.{best_names};
ghost use Rattle.period_rows.specs.Bests.{begin_after, clock_after};

use crate::best_clock::{begin_after, clock_after, ended_by, first_clock, time_in};
use crate::best_table::BestTable;
use crate::best_times::{PeriodOver, best_names, write_best_period};
use crate::times::period_begin;
use event_sinks::{ReplayedEvent, SinkStop, TextPage};
use feed_types::SymbolName;
use report_rows::{RowMaker, RowSink, ends_all};
use run_settings::PeriodStyle;
use std::alloc::{AllocError, Global};
use text_out::TextOut;

/// What makes the rows of how long the national bests of symbols stood in each period.
///
/// The clock is the latest time so far, so that each period has its rows once: when one of a later
/// period comes, or the capture is over. A symbol whose best stood at no time of it has none.
#[derive(Drop)]
pub struct BestMaker {
    pub style: PeriodStyle,
    pub venues: usize,
    pub clock: u64,
    /// Whether a time came, so that a period is at hand: that of the clock.
    pub is_timed: bool,
    /// Whether the capture is over.
    pub over: bool,
    pub table: BestTable,
}

impl BestMaker {
    /// Of the symbols of a table of which nothing came, and of this many venues. All is told from
    /// a time on, if there is one.
    fn of(style: PeriodStyle, venues: usize, table: BestTable, from: Option<u64>) -> BestMaker
        ensures { (symbols : List (List ℕ)) → IsNewTable (unwrap_or from 0) symbols table
            → AreBests (record {
              style = style;
              venues = venues;
              symbols = symbols;
              from = from;
            }) [] result }
    {
        let _length = style.length.nanoseconds();
        BestMaker {
            style,
            venues,
            clock: first_clock(from),
            is_timed: from.is_some(),
            over: false,
            table,
        }
    }

    /// Of these symbols, of which nothing came, and of this many venues. All is told from a time
    /// on, if there is one: what a best stood before it doesn't count. Fails where memory is
    /// refused, or a symbol is there twice.
    pub fn new(
        alloc: Global,
        style: PeriodStyle,
        venues: usize,
        symbols: &[SymbolName],
        from: Option<u64>,
    ) -> Result<BestMaker, AllocError>
        ensures { IfOk result (AreBests (record {
          style = style;
          venues = venues;
          symbols = symbols.now;
          from = from;
        }) []) }
    {
        match BestTable::new(alloc, symbols, first_clock(from)) {
            Ok(table) => Ok(BestMaker::of(style, venues, table, from)),
            Err(error) => Err(error),
        }
    }

    /// Returns when the period at hand began, if there is one.
    fn begun(&self) -> Option<u64>
        ensures { result ≡ period_at_hand self.now }
    {
        if self.is_timed {
            return Some(period_begin(self.style.length, self.clock));
        }
        None
    }

    /// Returns the period that is over, if one is, where another one is at hand at this time.
    fn over_at(&self, ends: bool, begin: Option<u64>, clock: u64) -> Option<PeriodOver>
        ensures { result ≡ over_at self.now ends begin clock }
    {
        match ended_by(ends, self.begun(), begin) {
            Some(old) => Some(PeriodOver {
                style: self.style,
                venues: self.venues,
                begin: old,
                end: clock.min(old.saturating_add(self.style.length.nanoseconds())),
            }),
            None => None,
        }
    }

    /// Returns whether the clock goes on with a time, or begins.
    #[inline(always)]
    fn goes_on(&self, time: Option<u64>) -> bool
        ensures clock { result ≡ false → clock_after time self.now.clock ≡ self.now.clock }
        ensures begun { result ≡ false
            → begin_after self.now.style.length time self.now.clock (period_at_hand self.now)
            ≡ period_at_hand self.now }
    {
        match time {
            Some(time) => !self.is_timed || self.clock < time,
            None => false,
        }
    }

    /// Takes an event with which the clock goes on, or the capture is over.
    #[inline(never)]
    fn go_on<W: TextOut>(
        &mut self,
        page: &mut TextPage<W>,
        time: Option<u64>,
        event: &ReplayedEvent<'_>,
    ) -> Result<(), SinkStop>
        ensures took { OnOk result (TakesPage W.adds W.failures page.old
            (live_text self.old (timed_event time (told_by event.now))) page.new) }
        ensures failed { OnErr result (FailsPage W.adds W.failures page.old (page.old.text.items
            ++ live_text self.old (timed_event time (told_by event.now))) page.new) }
        ensures stepped { OnOk result (IsLiveStep self.old
            (timed_event time (told_by event.now)) self.new) }
    {
        let ends = ends_all(event);
        let time = time_in(time, event);
        let clock = clock_after(time, self.clock);
        let old = self.begun();
        let begin = begin_after(self.style.length, time, self.clock, old);
        let over = self.over_at(ends, begin, clock);
        write_best_period(page, &over, self.table.times.as_slice())?;
        self.table.begin(old, begin);
        self.table.take(clock, event);
        self.clock = clock;
        self.is_timed = begin.is_some();
        self.over = ends;
        Ok(())
    }

    /// Takes an event with which the clock stands.
    #[inline(always)]
    fn pass_on(&mut self, event: &ReplayedEvent<'_>)
        ensures { IsPassed self.old (told_by event.now) self.new }
    {
        self.table.take(self.clock, event);
    }

    /// Takes an event of a capture that isn't over. With most of them the clock stands.
    #[inline(always)]
    fn step_on<W: TextOut>(
        &mut self,
        page: &mut TextPage<W>,
        time: Option<u64>,
        event: &ReplayedEvent<'_>,
    ) -> Result<(), SinkStop>
        requires { self.old.over ≡ false }
        ensures took { OnOk result (TakesPage W.adds W.failures page.old
            (live_text self.old (timed_event time (told_by event.now))) page.new) }
        ensures failed { OnErr result (FailsPage W.adds W.failures page.old (page.old.text.items
            ++ live_text self.old (timed_event time (told_by event.now))) page.new) }
        ensures stepped { OnOk result (IsLiveStep self.old
            (timed_event time (told_by event.now)) self.new) }
    {
        if ends_all(event) || self.goes_on(time_in(time, event)) {
            return self.go_on(page, time, event);
        }
        self.pass_on(event);
        Ok(())
    }

    /// Takes an event.
    #[inline(always)]
    fn step<W: TextOut>(
        &mut self,
        page: &mut TextPage<W>,
        time: Option<u64>,
        event: &ReplayedEvent<'_>,
    ) -> Result<(), SinkStop>
        ensures took { OnOk result (TakesPage W.adds W.failures page.old
            (best_made_text self.old (timed_event time (told_by event.now))) page.new) }
        ensures failed { OnErr result (FailsPage W.adds W.failures page.old (page.old.text.items
            ++ best_made_text self.old (timed_event time (told_by event.now))) page.new) }
        ensures stepped { OnOk result (IsStepped self.old
            (timed_event time (told_by event.now)) self.new) }
    {
        if self.over {
            return Ok(());
        }
        self.step_on(page, time, event)
    }
}

impl BestMaker {
    /// Takes an event before all that has rows.
    fn take_before(&mut self, event: &ReplayedEvent<'_>)
        ensures over { self.old.over ≡ true → self.new ≡ self.old }
        ensures passed { self.old.over ≡ false → IsPassed self.old (told_by event.now) self.new }
    {
        if !self.over {
            self.pass_on(event);
        }
    }
}

/// Makes the sink of the rows of how long national bests stood in each period.
pub fn new_best_rows<W>(page: TextPage<W>, maker: BestMaker) -> RowSink<W, BestMaker>
    requires { page.text.items ≡ [] }
    ensures { IsNewRowSink page.writer maker
        (header_text maker.style.format (best_names maker.style.format)) result }
{
    let format = maker.style.format;
    RowSink::new(page, maker, format, &best_names(format))
}

impl RowMaker for BestMaker {
    ghost use Rattle.period_rows.specs.BestMakers.{AreBests, MakesBests, TellsBests};
    ghost use Rattle.period_rows.specs.BestRows.{best_rows_with};
    ghost use Rattle.report_rows.specs.RowHistoryLaws.{makes_more_history, makes_no_history, tells_after_history, tells_no_history};

    ghost tells = { TellsBests };

    ghost makes = { MakesBests };

    #[inline(always)]
    fn make<W: TextOut>(
        &mut self,
        page: &mut TextPage<W>,
        time: Option<u64>,
        event: &ReplayedEvent<'_>,
    ) -> Result<(), SinkStop> {
        self.step(page, time, event)
    }

    fn pass(&mut self, _time: Option<u64>, event: &ReplayedEvent<'_>) {
        self.take_before(event);
    }

    ghost makes_none = { makes_no_history AreBests best_rows_with };

    ghost makes_more = { makes_more_history AreBests best_rows_with };

    ghost tells_none = { tells_no_history AreBests best_rows_with };

    ghost tells_after = { tells_after_history AreBests best_rows_with };
}
