//! The busiest period of the clock: the busiest second, say.
ghost use Rattle.std.specs.Prelude.{◌≡◌, ◌<◌, ℕ, List, [], ◌∷◌, ◌++◌, None, Some, length, slice_index_or, slice_set};
ghost use Rattle.feed_types.specs.declared.line.LineId.{LineId};
ghost use Rattle.event_sinks.specs.SinkEvents.{told_by, told_packet};
ghost use Rattle.report_rows.specs.PeriodLists.{begun};
ghost use Rattle.replay_reports.specs.times.Busiest.{HoldsBusiest, IsPeak, MessagesAt, began_with, begin_of, datagram_messages, messages_at, messages_by, with_messages};

use event_sinks::ReplayedEvent;
use line_arbiter::{LineFault, Outcome};
use report_rows::{KeptPeriod, KeptPeriods};

/// The most messages of a period, when that began, and how many datagrams came too late for theirs.
#[derive(Clone, Copy, Debug, Default, PartialEq, Eq)]
pub struct Peak {
    pub messages: u64,
    /// In nanoseconds from 1970 on, if there is a message; of several that are as busy the first to
    /// be so.
    pub began: Option<u64>,
    /// How many datagrams came once 16 later periods were kept.
    pub late: u64,
}

/// The most messages that come within one period of the clock, of a length in nanoseconds that each
/// call is given. The messages of the latest 16 periods are kept, so that those of a frame that
/// comes late count in its own one, and those of one that is later still in the earliest of these.
#[derive(Drop)]
pub struct BusiestPeriod {
    kept: KeptPeriods<u64>,
    /// The most messages of a period.
    pub messages: u64,
    /// When that period began, in nanoseconds from 1970 on, if there is one; of several that are as
    /// busy the first to be so.
    pub began: Option<u64>,
}

/// Returns when the period of a time began.
#[inline(always)]
fn begin_of(length: u64, time: u64) -> u64
    ensures { result ≡ begin_of length time }
{
    time - time % length.max(1)
}

/// Counts messages in the period at a place, and returns it.
#[inline(always)]
fn raise(periods: &mut [KeptPeriod<u64>], place: usize, messages: u64) -> KeptPeriod<u64>
    requires { place < length periods.old }
    ensures put { periods.new ≡ slice_set periods.old place result }
    ensures more { result
        ≡ with_messages messages (slice_index_or periods.old place (begun 0 0)) }
{
    let mut period = periods[place];
    period.figures = period.figures.saturating_add(messages);
    periods[place] = period;
    period
}

/// Returns when the busiest period began, once one has as many messages as this.
#[inline(always)]
fn began_with(most: u64, period: KeptPeriod<u64>, began: Option<u64>) -> Option<u64>
    ensures { result ≡ began_with most period began }
{
    if period.figures > most {
        return Some(period.begin);
    }
    began
}

/// Returns how many messages of a datagram were taken, or had come before; none where the event is
/// no datagram.
#[inline(always)]
pub(crate) fn datagram_messages(event: &ReplayedEvent<'_>) -> Option<u64>
    ensures { result ≡ datagram_messages (told_by event.now) }
{
    match event {
        ReplayedEvent::Packet { answer, .. } => Some(taken_messages(answer)),
        ReplayedEvent::Refusal { .. } => Some(0),
        ReplayedEvent::Item { .. } => None,
        ReplayedEvent::Best { .. } => None,
        ReplayedEvent::Gap { .. } => None,
        ReplayedEvent::Renewal { .. } => None,
        ReplayedEvent::Skip { .. } => None,
        ReplayedEvent::Declaration { .. } => None,
        ReplayedEvent::Last { .. } => None,
    }
}

/// Returns how many messages of a packet that was answered so were taken, or had come before.
#[inline(always)]
fn taken_messages(answer: &Result<Outcome, LineFault>) -> u64
    ensures { (venue number count bytes : ℕ) (line : LineId) → Some result
        ≡ datagram_messages (told_packet venue line number count bytes answer.now) }
{
    match answer {
        Ok(Outcome::Taken { new, repeated }) => u64::from(*new) + u64::from(*repeated),
        Ok(Outcome::Heartbeat) => 0,
        Ok(Outcome::Ended) => 0,
        Ok(Outcome::Ahead) => 0,
        Err(_) => 0,
    }
}

impl BusiestPeriod {
    /// No message yet.
    pub(crate) fn new() -> BusiestPeriod
        ensures kept { result.kept.kept.items ≡ [] }
        ensures late { result.kept.late ≡ 0 }
        ensures messages { result.messages ≡ 0 }
        ensures began { result.began ≡ None }
    {
        BusiestPeriod {
            kept: KeptPeriods::new(),
            messages: 0,
            began: None,
        }
    }

    /// Counts messages at a time in nanoseconds.
    #[inline(always)]
    fn add_at(&mut self, length: u64, time: u64, messages: u64)
        ensures { (came : List MessagesAt) → HoldsBusiest length came self.old
            → HoldsBusiest length (messages_at time messages ∷ came) self.new }
    {
        let place = self.kept.enter(begin_of(length, time), &0).place;
        let period = raise(self.kept.kept.as_mut_slice(), place, messages);
        self.began = began_with(self.messages, period, self.began);
        self.messages = self.messages.max(period.figures);
    }

    /// Counts the messages of a datagram at a time in nanoseconds, where both are known.
    #[inline(always)]
    pub(crate) fn add(&mut self, length: u64, time: Option<u64>, messages: Option<u64>)
        ensures { (came : List MessagesAt) → HoldsBusiest length came self.old
            → HoldsBusiest length (messages_by time messages ++ came) self.new }
    {
        match (time, messages) {
            (Some(time), Some(messages)) => self.add_at(length, time, messages),
            _ => {}
        }
    }

    /// Returns the most messages of a period, when it began, and how many datagrams came too late
    /// for theirs.
    pub(crate) fn peak(&self) -> Peak
        ensures { (length : ℕ) (came : List MessagesAt) → HoldsBusiest length came self.now
            → IsPeak length came result }
    {
        Peak {
            messages: self.messages,
            began: self.began,
            late: self.kept.late,
        }
    }
}
