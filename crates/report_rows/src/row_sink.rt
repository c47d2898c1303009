//! The sink of rows.
ghost use Rattle.std.specs.Prelude.{◌≡◌, ◌≤◌, []};
ghost use Rattle.report_rows.specs.RowSinks.{IsNewRowSink};
ghost use Rattle.report_rows.specs.RowTexts.{header_text, row_room, texts_of};

use crate::row::put_header;
use crate::row_maker::RowMaker;
use crate::spanned_sink::SpanAware;
use event_sinks::{EventSink, ReplayedEvent, SinkStop, TextPage};
use run_settings::RowFormat;
use text_out::TextOut;

/// The rows that a maker makes of events, written to a writer by the page.
///
/// The header stands before the first row, and is written even where no row follows.
#[derive(Drop)]
pub struct RowSink<W, M> {
    pub page: TextPage<W>,
    pub maker: M,
}

impl<W, M: Drop> RowSink<W, M> {
    /// Writes the maker's rows to the page's writer from here on, after the header with the names
    /// of the columns.
    pub fn new(page: TextPage<W>, maker: M, format: RowFormat, names: &[&str]) -> RowSink<W, M>
        requires empty { page.text.items ≡ [] }
        requires few { row_room (texts_of names.now) ≤ 1024 }
        ensures { IsNewRowSink page.writer maker (header_text format (texts_of names.now)) result }
    {
        let mut page = page;
        put_header(&mut page.text, format, names);
        RowSink { page, maker }
    }

    /// Returns the writer, as the last call left it. What waits is dropped.
    pub fn into_writer(self) -> W
        ensures { result ≡ self.page.writer }
    {
        let RowSink { page, maker: _ } = self;
        page.into_writer()
    }
}

impl<W: TextOut, M: RowMaker + Drop> EventSink for RowSink<W, M> {
    ghost use Rattle.report_rows.specs.RowSinks.{FailsRows, TakesRows};
    ghost use Rattle.report_rows.specs.RowLaws.{fails_after_rows, fails_longer_rows, takes_more_rows, takes_no_rows};

    ghost takes = { TakesRows M.makes W.adds W.failures };

    ghost fails = { FailsRows M.tells W.adds W.failures };

    ghost is_shown = { λ s. s.page.text.items ≡ [] };

    ghost takes_none = { takes_no_rows M.makes M.tells W.adds W.failures M.makes_none
        W.adds_none };

    ghost takes_more = { takes_more_rows M.makes M.tells W.adds W.failures M.makes_more
        W.adds_more };

    ghost fails_after = { fails_after_rows M.makes M.tells W.adds W.failures M.tells_after
        W.adds_more };

    ghost fails_longer = { fails_longer_rows M.makes M.tells W.adds W.failures };

    #[inline(always)]
    fn take(&mut self, time: Option<u64>, event: &ReplayedEvent<'_>) -> Result<(), SinkStop> {
        self.maker.make(&mut self.page, time, event)
    }

    fn show(&mut self) -> Result<(), SinkStop> {
        self.page.write()
    }
}

impl<W: TextOut, M: RowMaker + Drop> SpanAware for RowSink<W, M> {
    fn take_before(&mut self, time: Option<u64>, event: &ReplayedEvent<'_>) {
        self.maker.pass(time, event);
    }
}
