//! Where the program prints while a run goes on.
ghost use Rattle.text_out.specs.Members.{writing_of};
ghost use Rattle.std.specs.Prelude.{◌≡◌, ◌≢◌, drop};
ghost use Rattle.feed_types.specs.Prefix.{IsPrefix};
ghost use Rattle.best_rows.specs.NoticeRows.{AreRowsOf};
ghost use Rattle.udp_listening.specs.Listening.{IsUnprinted, KeepsFollowing, KeepsNoting};
ghost use Rattle.udp_listening.specs.SettledNotices.{notices_of};

use crate::row_marks::RowMarks;
use crate::timed_rows::put_timed;
use crate::unchanged::note_log;
use best_rows::{RowStyle, header_line};
use live_feed::{FeedName, SubscriberLog};
use run_notes::AbsentList;
use std::alloc::Global;
use std::sync::Wait;
use std::time::Clock;
use text_out::{LineBuffer, TextOut, write_all};

/// The most notices that are taken before their lines are written.
pub const MOST: usize = 1_024;

/// Whether lines are printed while a run goes on.
#[derive(Clone, Copy, Debug, PartialEq, Eq)]
pub enum LiveOutput {
    /// They are printed as they come.
    On,
    /// They are printed at the end, since that was asked for, or since memory for a line was
    /// refused.
    Off,
    /// The output failed, and nothing more is printed on it.
    Failed,
}

/// Standard output, and whether lines are printed while the run goes on. What was printed of a log
/// it has forgotten.
#[derive(Drop)]
pub struct Console<C, W> {
    pub output: W,
    pub live_output: LiveOutput,
    /// How rows are written.
    pub style: RowStyle,
    /// Where it is marked how far the rows are, if anywhere.
    pub marks: Option<RowMarks<C>>,
    /// Of the symbols of which it is told at the end, those of which no change is among what the
    /// log has forgotten.
    pub unchanged: AbsentList,
}

/// Polls once, and returns whether a notice was taken.
fn has_polled<N: FeedName, R: Wait>(rt: &R, log: &mut SubscriberLog<N>) -> bool
    ensures lines { IsPrefix log.old.lines log.new.lines }
    ensures forgotten { log.new.forgotten ≡ log.old.forgotten }
{
    match log.poll_holding(rt) {
        Ok(polled) => polled.is_some(),
        Err(_) => false,
    }
}

/// Takes the notices that the log's subscriber is offered, 1,024 at most.
fn poll_some<N: FeedName, R: Wait>(rt: &R, log: &mut SubscriberLog<N>)
    ensures lines { IsPrefix log.old.lines log.new.lines }
    ensures forgotten { log.new.forgotten ≡ log.old.forgotten }
{
    for _ in 0..MOST {
        if !has_polled(rt, log) {
            break;
        }
    }
}

impl<C: Clock, W: TextOut> Console<C, W> {
    /// Prints what stands before the first row. At the end it is told of no symbol that it never
    /// had a best.
    pub fn new(alloc: Global, output: W, live_output: LiveOutput, style: RowStyle) -> Console<C, W>
        requires { live_output ≢ LiveOutput.Failed }
        ensures unprinted { IsUnprinted (writing_of W.TextOut) style output result }
    {
        let mut output = output;
        let live_output = match write_all(header_line(style).as_bytes(), &mut output) {
            Ok(()) => live_output,
            Err(_) => LiveOutput::Failed,
        };
        Console {
            output,
            live_output,
            style,
            marks: None,
            unchanged: AbsentList::none(alloc),
        }
    }

    /// Marks that all that the log has was taken.
    fn mark_taken<N: FeedName>(&self, log: &SubscriberLog<N>) {
        if let Some(marks) = &self.marks {
            marks.take(log);
        }
    }

    /// Marks that a write begins. One that fails is never over.
    fn mark_write(&self) {
        if let Some(marks) = &self.marks {
            marks.begin_write();
        }
    }

    /// Marks that the log's rows are written.
    fn mark_written<N: FeedName>(&self, log: &SubscriberLog<N>) {
        if let Some(marks) = &self.marks {
            marks.end_write(log);
        }
    }

    /// Takes what the log's subscriber is offered, 1,024 notices at most, and where lines are
    /// printed as they come prints those of the log that aren't printed yet, with their times, and
    /// has the log forget them.
    ///
    /// Where memory for the lines is refused they are printed at the end, with all that follow, and
    /// without times.
    pub fn follow<N: FeedName, R: Wait>(
        &mut self,
        rt: &R,
        text: &mut LineBuffer,
        log: &mut SubscriberLog<N>,
    )
        ensures log { IsPrefix log.old.lines log.new.lines }
        ensures shows { KeepsFollowing (writing_of W.TextOut) log.old self.old log.new self.new }
        ensures notes { KeepsNoting log.old self.old log.new self.new }
    {
        poll_some(rt, log);
        self.mark_taken(log);
        if self.live_output == LiveOutput::On {
            self.print_rest(text, log);
        }
    }

    /// Prints the rows of the log that aren't printed yet, with their times, and has the log forget
    /// them.
    fn print_rest<N: FeedName>(&mut self, text: &mut LineBuffer, log: &mut SubscriberLog<N>)
        requires { self.old.live_output ≡ LiveOutput.On }
        ensures log { log.new.lines ≡ log.old.lines }
        ensures shows { KeepsFollowing (writing_of W.TextOut) log.old self.old log.new self.new }
        ensures notes { KeepsNoting log.old self.old log.new self.new }
    {
        if log.log().is_empty() {
            return;
        }
        if put_timed(text, self.style, log.log(), log).is_err() {
            self.live_output = LiveOutput::Off;
            return;
        }
        self.write_rest(text.as_slice(), log);
    }

    /// Writes the text of the log's rows that aren't printed yet, and has the log forget them, once
    /// it was noted which symbols they are of.
    fn write_rest<N: FeedName>(&mut self, text: &[u8], log: &mut SubscriberLog<N>)
        requires on { self.old.live_output ≡ LiveOutput.On }
        requires text { AreRowsOf self.old.style (notices_of (drop log.old.forgotten log.old.lines))
            text.now }
        ensures log { log.new.lines ≡ log.old.lines }
        ensures shows { KeepsFollowing (writing_of W.TextOut) log.old self.old log.new self.new }
        ensures notes { KeepsNoting log.old self.old log.new self.new }
    {
        let count = log.log().len();
        self.mark_write();
        match write_all(text, &mut self.output) {
            Ok(()) => {
                self.mark_written(log);
                note_log(&mut self.unchanged, log.log());
                log.forget(count);
            }
            Err(_) => self.live_output = LiveOutput::Failed,
        }
    }
}
