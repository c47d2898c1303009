//! What makes the rows of national bests.
ghost use Rattle.std.specs.Prelude.{◌≡◌, []};
ghost use Rattle.best_rows.specs.RowTexts.{header_of};
ghost use Rattle.report_rows.specs.RowSinks.{IsNewRowSink};

use best_rows::{RowStyle, put_header, put_row};
use event_sinks::{ReplayedEvent, SinkStop, TextPage};
use report_rows::{RowMaker, RowSink};
use text_out::TextOut;

/// What makes a row of each event where a national best changes, in its style; other events have
/// none.
#[derive(Drop)]
pub struct BestRowMaker {
    pub style: RowStyle,
}

/// Makes the sink of the rows of national bests.
pub fn new_best_row_sink<W>(page: TextPage<W>, style: RowStyle) -> RowSink<W, BestRowMaker>
    requires { page.text.items ≡ [] }
    ensures { IsNewRowSink page.writer (record { style = style })
        (header_of style.format style.timed) result }
{
    let mut page = page;
    put_header(&mut page.text, style);
    RowSink {
        page,
        maker: BestRowMaker { style },
    }
}

impl RowMaker for BestRowMaker {
    ghost use Rattle.replay_reports.specs.BestRowMakers.{IsInStyle, style_rows};
    ghost use Rattle.report_rows.specs.RowHistories.{MakesHistory, TellsHistory};
    ghost use Rattle.report_rows.specs.RowHistoryLaws.{makes_more_history, makes_no_history, tells_after_history, tells_no_history};

    ghost tells = { TellsHistory IsInStyle style_rows };

    ghost makes = { MakesHistory IsInStyle style_rows };

    #[inline(always)]
    fn make<W: TextOut>(
        &mut self,
        page: &mut TextPage<W>,
        time: Option<u64>,
        event: &ReplayedEvent<'_>,
    ) -> Result<(), SinkStop> {
        match event {
            ReplayedEvent::Best { number, change } => {
                page.write_full()?;
                put_row(&mut page.text, &self.style, time, *number, change);
                Ok(())
            }
            _ => Ok(()),
        }
    }

    fn pass(&mut self, _time: Option<u64>, _event: &ReplayedEvent<'_>) {}

    ghost makes_none = { makes_no_history IsInStyle style_rows };

    ghost makes_more = { makes_more_history IsInStyle style_rows };

    ghost tells_none = { tells_no_history IsInStyle style_rows };

    ghost tells_after = { tells_after_history IsInStyle style_rows };
}
