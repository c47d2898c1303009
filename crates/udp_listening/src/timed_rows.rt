//! Rows of notices, each with a time of its own.
ghost use Rattle.std.specs.Prelude.{OnOk};
ghost use Rattle.best_rows.specs.NoticeRows.{AreRowsOf};
ghost use Rattle.udp_listening.specs.SettledNotices.{notices_of};

use best_rows::{RowStyle, put_notice};
use live_feed::{FeedName, Logged, SubscriberLog};
use std::alloc::AllocError;
use text_out::LineBuffer;

/// Puts the rows of these notices into the text, in place of what it has, each with the time that
/// the subscriber's log has of it.
pub fn put_timed<N: FeedName>(
    text: &mut LineBuffer,
    style: RowStyle,
    taken: &[Logged],
    log: &SubscriberLog<N>,
) -> Result<(), AllocError>
    ensures { OnOk result (AreRowsOf style (notices_of taken.now) text.new.items) }
{
    text.clear();
    for logged in taken {
        let notice = &logged.notice;
        put_notice(text, style, log.time_of(notice.number), notice)?;
    }
    Ok(())
}
