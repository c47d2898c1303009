//! A sink that is asked whether anything came to it.

use event_sinks::{EventSink, ReplayedEvent, SinkStop};
use report_rows::SpanAware;

/// A sink, and whether an event came to it.
#[derive(Drop)]
pub struct FedSink<K> {
    pub(crate) sink: K,
    pub(crate) is_fed: bool,
}

impl<K: EventSink> EventSink for FedSink<K> {
    ghost takes = { λ s told t. K.takes s.sink told t.sink };

    ghost fails = { λ s told t. K.fails s.sink told t.sink };

    ghost is_shown = { λ s. K.is_shown s.sink };

    ghost takes_none = { λ s. K.takes_none s.sink };

    ghost takes_more = { λ s t u xs ys a b. K.takes_more s.sink t.sink u.sink xs ys a b };

    ghost fails_after = { λ s t u xs ys a b. K.fails_after s.sink t.sink u.sink xs ys a b };

    ghost fails_longer = { λ s t xs ys a. K.fails_longer s.sink t.sink xs ys a };

    #[inline(always)]
    fn take(&mut self, time: Option<u64>, event: &ReplayedEvent<'_>) -> Result<(), SinkStop> {
        self.is_fed = true;
        self.sink.take(time, event)
    }

    fn show(&mut self) -> Result<(), SinkStop> {
        self.sink.show()
    }
}

impl<K: SpanAware> SpanAware for FedSink<K> {
    fn take_before(&mut self, time: Option<u64>, event: &ReplayedEvent<'_>) {
        self.is_fed = true;
        self.sink.take_before(time, event);
    }
}
