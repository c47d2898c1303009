//! The sink of lines.
ghost use Rattle.std.specs.Prelude.{◌≡◌, ◌≤◌, ◌++◌, [], OnErr, OnOk};
ghost use Rattle.event_sinks.specs.EventLines.{event_line, timed_line};
ghost use Rattle.text_out.specs.Pages.{Puts};
ghost use Rattle.event_sinks.specs.SinkEvents.{told_by};
ghost use Rattle.event_sinks.specs.TextPages.{TakesText, FailsText};
ghost use Rattle.event_sinks.specs.TextPageLaws.{takes_no_text, takes_more_text, fails_after_text, fails_longer_text};

use crate::event::ReplayedEvent;
use crate::event_sink::{EventSink, SinkStop};
use crate::lines::{
    put_change, put_declared, put_fault, put_gap, put_item, put_last, put_packet, put_renewal,
    put_skip,
};
use crate::text_page::TextPage;
use text_out::{LineBuffer, TextOut};

/// The line of each event, written by the page.
#[derive(Drop)]
pub struct TextSink<W> {
    page: TextPage<W>,
}

impl<W> TextSink<W> {
    /// Writes after the page's text.
    pub fn new(page: TextPage<W>) -> TextSink<W>
        ensures { result.page ≡ page }
    {
        TextSink { page }
    }

    /// Returns the writer, as the last call left it.
    pub fn into_writer(self) -> W
        ensures { result ≡ self.page.writer }
    {
        self.page.into_writer()
    }
}

/// Appends the line of any event. Those that come with most records have a way of their own.
#[inline(never)]
fn put_any(text: &mut LineBuffer, event: &ReplayedEvent<'_>)
    requires { 1024 ≤ text.old.room }
    ensures { Puts text.old (event_line (told_by event.now)) text.new }
{
    match event {
        ReplayedEvent::Packet {
            venue,
            line,
            answer,
            ..
        } => put_packet(text, *venue, *line, answer),
        ReplayedEvent::Refusal { venue, line, fault } => put_fault(
            text,
            *venue,
            *line,
            fault.code(),
        ),
        ReplayedEvent::Item { venue, item } => put_item(text, *venue, item),
        ReplayedEvent::Best { number, change } => put_change(text, *number, change),
        ReplayedEvent::Gap { venue, request } => put_gap(text, *venue, request),
        ReplayedEvent::Renewal { venue, answer } => put_renewal(text, *venue, answer),
        ReplayedEvent::Skip {
            venue,
            number,
            answer,
        } => put_skip(text, *venue, *number, answer),
        ReplayedEvent::Declaration {
            venue,
            on,
            position,
        } => put_declared(text, *venue, *on, *position),
        ReplayedEvent::Last {
            venue,
            sent,
            a,
            b,
            recovery,
        } => put_last(text, *venue, *sent, *a, *b, *recovery),
    }
}

/// Appends the line of an event. It is small, so that it is inlined where the event is made.
#[inline(always)]
fn put_event(text: &mut LineBuffer, event: &ReplayedEvent<'_>)
    requires { 1024 ≤ text.old.room }
    ensures { Puts text.old (event_line (told_by event.now)) text.new }
{
    match event {
        ReplayedEvent::Packet {
            venue,
            line,
            answer,
            ..
        } => put_packet(text, *venue, *line, answer),
        ReplayedEvent::Item { venue, item } => put_item(text, *venue, item),
        ReplayedEvent::Best { number, change } => put_change(text, *number, change),
        _ => put_any(text, event),
    }
}

impl<W: TextOut> EventSink for TextSink<W> {
    ghost takes = { λ s events t. TakesText timed_line W.adds W.failures s.page events t.page };

    ghost fails = { λ s events t. FailsText timed_line W.adds W.failures s.page events t.page };

    ghost is_shown = { λ s. s.page.text.items ≡ [] };

    ghost takes_none = { λ s. takes_no_text timed_line W.adds W.failures W.adds_none s.page };

    ghost takes_more = { λ s t u xs ys a b.
        takes_more_text timed_line W.adds W.failures W.adds_more s.page t.page u.page xs ys a b };

    ghost fails_after = { λ s t u xs ys a b.
        fails_after_text timed_line W.adds W.failures W.adds_more s.page t.page u.page xs ys a b };

    ghost fails_longer = { λ s t xs ys a.
        fails_longer_text timed_line W.adds W.failures s.page t.page xs ys a };

    #[inline(always)]
    fn take(&mut self, _time: Option<u64>, event: &ReplayedEvent<'_>) -> Result<(), SinkStop> {
        self.page.write_full()?;
        put_event(&mut self.page.text, event);
        Ok(())
    }

    fn show(&mut self) -> Result<(), SinkStop> {
        self.page.write()
    }
}
